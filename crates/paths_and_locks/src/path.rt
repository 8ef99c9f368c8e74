// Paths as bytes.
ghost use Rattle.std.specs.Prelude.{◌≡◌, length, take};
ghost use Rattle.refusal.specs.Outcome.{outcome};
ghost use Rattle.paths_and_locks.specs.Path.{folder_length, folder_of, base_of, start_of};
ghost use Rattle.paths_and_locks.specs.Path.{joined as Path·joined};

const SLASH: u8 = b'/';

// Down from the end, as the definition goes, and not by `rposition`, whose clauses count from the back.
fn folder_length(path: &[u8]) -> usize
    ensures { result ≡ folder_length (length path.now) path.now }
{
    for i in (0..path.len()).rev() {
        if path[i] == SLASH {
            return i + 1;
        }
    }
    0
}

// The first bytes of a slice: all of it where it has fewer.
pub fn front(s: &[u8], n: usize) -> &[u8]
    ensures { result.now ≡ take n s.now }
{
    &s[..n.min(s.len())]
}

#[tactic(auto, unfolding(crate::specs::Path::folder_of))]
pub fn folder_of(path: &[u8]) -> &[u8]
    ensures { result.now ≡ folder_of path.now }
{
    front(path, folder_length(path))
}

#[tactic(auto, unfolding(crate::specs::Path::base_of))]
pub fn base_of(path: &[u8]) -> &[u8]
    ensures { result.now ≡ base_of path.now }
{
    byte_numbers::tail(path, folder_length(path))
}

// What of a link's own path stands before its text in the path that it leads to.
#[tactic(auto, unfolding(crate::specs::Path::start_of))]
pub fn start_of<'a>(link: &'a [u8], text: &[u8]) -> &'a [u8]
    ensures { result.now ≡ start_of link.now text.now }
{
    match text {
        [SLASH, ..] => &[],
        _ => folder_of(link),
    }
}

// Puts two texts, one behind the other, to the front of a buffer that has room for both.
#[tactic(auto, using(byte_numbers::proofs::PlaceLaws::onward), unfolding(crate::specs::Path::joined))]
pub fn joined(out: &mut [u8], xs: &[u8], ys: &[u8]) -> Option<usize>
    ensures { outcome result out.new ≡ Path·joined out.old xs.now ys.now }
{
    let length = xs.len() + ys.len();
    if out.len() < length {
        return None;
    }
    byte_numbers::put_bytes(out, 0, xs);
    byte_numbers::put_bytes(out, xs.len(), ys);
    Some(length)
}
