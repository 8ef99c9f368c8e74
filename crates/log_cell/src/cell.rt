// A cell of the log: what is known of one interval. In a file it has nine bytes, and a tenth for how many asks for it lapsed.
ghost use Rattle.std.specs.Prelude.{◌≡◌};
ghost use Rattle.byte_numbers.specs.Place.{written};
ghost use Rattle.log_cell.specs.Cell.{cell_of, kind_bytes, kind_cell, kind_fits, kind_names, no_counts, kind_of, e_plus_of, e_minus_of, r_plus_of, r_minus_of};

#[derive(Clone, Copy, PartialEq, Eq)]
pub enum Cell {
    // No well-formed reply with result 0 came.
    Gap,
    // Such replies came, and all were zeros.
    Empty,
    // E+, E-, R+, R-, not all zero.
    Measured(u16, u16, u16, u16),
}

// Kind and counts.
pub const COUNTS_BYTES: usize = 9;

// The kinds, as the cell's first byte has them.
const GAP: u8 = 0;

const EMPTY: u8 = 1;

const MEASURED: u8 = 2;

pub fn cell_of(bytes: &[u8]) -> Option<Cell>
    ensures { result ≡ cell_of bytes.now }
{
    if bytes.len() != COUNTS_BYTES {
        return None;
    }
    kind_cell(
        byte_numbers::byte_at(bytes, 0),
        byte_numbers::u16_at(bytes, 1),
        byte_numbers::u16_at(bytes, 3),
        byte_numbers::u16_at(bytes, 5),
        byte_numbers::u16_at(bytes, 7),
    )
}

// The cell of a kind and four counts.
pub fn kind_cell(kind: u8, ep: u16, em: u16, rp: u16, rm: u16) -> Option<Cell>
    ensures { result ≡ kind_cell kind ep em rp rm }
{
    // Whether it is one comes first, and is nearly always so; what it is comes then, with nothing left to guess.
    if kind_fits(kind, no_counts(ep, em, rp, rm)) {
        return cell_by(kind, ep, em, rp, rm);
    }
    None
}

// Whether a kind goes with its counts: none of them above zero, or some.
pub fn kind_fits(kind: u8, none: bool) -> bool
    ensures { result ≡ kind_fits kind none }
{
    // With other kinds out of the way, one of the two tests is the other's opposite.
    if MEASURED < kind {
        return false;
    }
    if none {
        return kind < MEASURED;
    }
    kind == MEASURED
}

// The cell that a kind names. Each kind has an arm of its own, so that the compiler sees the cell's variant in the kind itself.
pub fn cell_by(kind: u8, ep: u16, em: u16, rp: u16, rm: u16) -> Option<Cell>
    ensures { result ≡ kind_names kind ep em rp rm }
{
    match kind {
        GAP => Some(Cell::Gap),
        EMPTY => Some(Cell::Empty),
        MEASURED => Some(Cell::Measured(ep, em, rp, rm)),
        _ => None,
    }
}

// Whether none of four counts is above zero.
pub fn no_counts(ep: u16, em: u16, rp: u16, rm: u16) -> bool
    ensures { result ≡ no_counts ep em rp rm }
{
    ep == 0 && em == 0 && rp == 0 && rm == 0
}

pub fn kind_of(c: Cell) -> u8
    ensures { result ≡ kind_of c }
{
    match c {
        Cell::Gap => GAP,
        Cell::Empty => EMPTY,
        Cell::Measured(_, _, _, _) => MEASURED,
    }
}

// A function for each count, since each names another part; a parameter for which one it is would be one more thing to branch on.
pub fn e_plus(c: Cell) -> u16
    ensures { result ≡ e_plus_of c }
{
    match c {
        Cell::Gap | Cell::Empty => 0,
        Cell::Measured(ep, _, _, _) => ep,
    }
}

pub fn e_minus(c: Cell) -> u16
    ensures { result ≡ e_minus_of c }
{
    match c {
        Cell::Gap | Cell::Empty => 0,
        Cell::Measured(_, em, _, _) => em,
    }
}

pub fn r_plus(c: Cell) -> u16
    ensures { result ≡ r_plus_of c }
{
    match c {
        Cell::Gap | Cell::Empty => 0,
        Cell::Measured(_, _, rp, _) => rp,
    }
}

pub fn r_minus(c: Cell) -> u16
    ensures { result ≡ r_minus_of c }
{
    match c {
        Cell::Gap | Cell::Empty => 0,
        Cell::Measured(_, _, _, rm) => rm,
    }
}

// Puts a kind and four counts to the front of a lent part.
pub fn write_kind(out: &mut [u8], kind: u8, ep: u16, em: u16, rp: u16, rm: u16)
    ensures { out.new ≡ written out.old 0 (kind_bytes kind ep em rp rm) }
{
    byte_numbers::put_byte(out, 0, kind);
    byte_numbers::put_u16(out, 1, ep);
    byte_numbers::put_u16(out, 3, em);
    byte_numbers::put_u16(out, 5, rp);
    byte_numbers::put_u16(out, 7, rm);
}
