// What is printed for a log's file, line by line: the heading and a line for each day, or, for a file that is refused, the one line of its
// refusal, as `refused 31`; and, for a person who looks, the strip of each day. The file is read once; a page is by what was read, and each
// line gives the page behind it.
#![tactic(auto)]

mod page;
mod refused;

pub use page::{DAYS_MOST, LINES_MOST, Line, Page, page_of, put_next_line, put_next_strip};
