// A line and its words.
ghost use Rattle.std.specs.Prelude.{◌≡◌};
ghost use Rattle.console.specs.Line.{part_of, without_return, spaces_in, first_word, after_first, word_at, is_passed_over};

const SPACE: u8 = b' ';

const COMMENT: u8 = b'#';

const CARRIAGE_RETURN: u8 = b'\r';

// The first bytes of a slice: nothing where it has fewer. Not by `get`, whose clauses are no equation.
#[tactic(auto, unfolding(crate::specs::Line::part_of))]
pub fn part(s: &[u8], n: usize) -> &[u8]
    ensures { result.now ≡ part_of n s.now }
{
    if n <= s.len() { &s[..n] } else { &[] }
}

// A line without the carriage return that ends it, where one does: some systems put it before the newline.
#[tactic(auto, unfolding(crate::specs::Line::without_return))]
pub fn without_return(line: &[u8]) -> &[u8]
    ensures { result.now ≡ without_return line.now }
{
    match line {
        [before @ .., CARRIAGE_RETURN] => before,
        _ => line,
    }
}

// How many spaces a line has: one less than its words.
pub fn spaces(line: &[u8]) -> usize
    ensures { result ≡ spaces_in line.now }
{
    line.iter().filter(|b| **b == SPACE).count()
}

// What stands before the first space.
#[tactic(auto, unfolding(crate::specs::Line::first_word))]
fn first_word(line: &[u8]) -> &[u8]
    ensures { result.now ≡ first_word line.now }
{
    &line[..text::index_of(line, SPACE)]
}

// What follows the first space: nothing where there is none.
#[tactic(auto, unfolding(crate::specs::Line::after_first))]
fn after_first(line: &[u8]) -> &[u8]
    ensures { result.now ≡ after_first line.now }
{
    byte_numbers::tail(line, text::index_of(line, SPACE) + 1)
}

// A word of a line, counted from 0: nothing where there are fewer. By recursion, as its definition goes: a loop would say the same again.
#[tactic(auto, unfolding(crate::specs::Line::word_at))]
pub fn word(line: &[u8], k: usize) -> &[u8]
    ensures { result.now ≡ word_at k line.now }
{
    if k == 0 {
        return first_word(line);
    }
    word(after_first(line), k - 1)
}

// Whether a line is passed over: an empty one, or a comment.
#[tactic(auto, unfolding(crate::specs::Line::is_passed_over))]
pub fn is_passed_over(line: &[u8]) -> bool
    ensures { result ≡ is_passed_over line.now }
{
    line.is_empty() || line[0] == COMMENT
}
