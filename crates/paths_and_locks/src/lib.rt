// Paths as bytes, and the text of a lock: what of files and locks is decided over bytes alone. No function here calls the C library.
#![tactic(auto)]

mod holder;
mod path;

pub use holder::{holder_of, put_holder};
pub use path::{base_of, folder_of, front, joined, start_of};
