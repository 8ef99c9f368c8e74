// A byte looked for in a text.
ghost use Rattle.std.specs.Prelude.{◌≡◌};
ghost use Rattle.text.specs.Search.{index_of};

// The first place of a byte: the length where it stands nowhere.
pub fn index_of(s: &[u8], byte: u8) -> usize
    ensures { result ≡ index_of byte s.now }
{
    match s.iter().position(|b| *b == byte) {
        Some(i) => i,
        None => s.len(),
    }
}
