// The log's image: single cells, by their index in time order. Its places go by the number of its cells: a caller that looks at many of them
// asks for that number once, and hands it to the functions named `among`.
ghost use Rattle.std.specs.Prelude.{◌≡◌, ◌+◌, ◌*◌, ◌<◌, ◌≤◌, length};
ghost use Rattle.byte_numbers.specs.Place.{number_at};
ghost use Rattle.log_header.specs.Header.{size_for};
ghost use Rattle.energy_log.specs.Image.{kind_place, count_place, lapses_place};
ghost use Rattle.energy_log.specs.Image.{kind_at, count_at, cells_at, cell_among, lapses_among, cell_at, lapses_at};
ghost use Rattle.energy_log.specs.Image.{put_kind, put_count, put_counts, put_cell_among, put_lapses_among, put_cell, put_lapses, applied};

use log_cell::Cell;
use log_header::HEADER_BYTES;

// What a call does to a log.
#[derive(Clone, Copy, PartialEq, Eq)]
pub enum Change {
    None,
    // The cell with this index is another, with the lapses that it had.
    Put(usize, Cell),
    // So many asks for the cell with this index have lapsed.
    Lapses(usize, u8),
}

// How many cells the header's bytes say.
pub fn cells_at(log: &[u8]) -> u16
    ensures { result ≡ cells_at log.now }
{
    let days = byte_numbers::byte_at(log, 8);
    let slots = slots::slots_of(byte_numbers::byte_at(log, 9));
    (days as u16) * (slots as u16)
}

pub fn cell_at(log: &[u8], i: usize) -> Option<Cell>
    ensures { result ≡ cell_at log.now i }
{
    cell_among(log, cells_at(log), i)
}

// How many asks for a cell lapsed; none for an index past the end.
pub fn lapses_at(log: &[u8], i: usize) -> u8
    ensures { result ≡ lapses_at log.now i }
{
    lapses_among(log, cells_at(log), i)
}

pub fn cell_among(log: &[u8], n: u16, i: usize) -> Option<Cell>
    ensures { result ≡ cell_among n log.now i }
{
    let cells = n as usize;
    if cells <= i {
        return None;
    }
    if size_for(n) <= log.len() {
        return cell_in(log, n, i);
    }
    log_cell::kind_cell(
        kind_at(log, n, i),
        count_at(log, n, i),
        count_at(log, n, cells + i),
        count_at(log, n, 2 * cells + i),
        count_at(log, n, 3 * cells + i),
    )
}

// ---- where a log of n cells has what

// The byte that has the kind of cell i.
fn kind_place(i: usize) -> usize
    ensures { result ≡ kind_place i }
{
    HEADER_BYTES + i / 4
}

// The count with index m, of which cell i has i, n + i, 2 n + i and 3 n + i.
fn count_place(n: u16, m: usize) -> usize
    requires { m < 4 * n }
    ensures { result ≡ count_place n m }
{
    HEADER_BYTES + (n as usize) / 4 + 2 * m
}

// The lapses of cell i.
fn lapses_place(n: u16, i: usize) -> usize
    requires { i < n }
    ensures { result ≡ lapses_place n i }
{
    let cells = n as usize;
    HEADER_BYTES + cells / 4 + 8 * cells + i
}

// ---- read

// Where all cells have their room: its five parts are read without a test.
fn cell_in(log: &[u8], n: u16, i: usize) -> Option<Cell>
    requires { (i < n) × (size_for n ≤ length log.now) }
    ensures { result ≡ cell_among n log.now i }
{
    let cells = n as usize;
    log_cell::kind_cell(
        crate::pair::pair_of(log[kind_place(i)], i % 4),
        count_in(log, count_place(n, i)),
        count_in(log, count_place(n, cells + i)),
        count_in(log, count_place(n, 2 * cells + i)),
        count_in(log, count_place(n, 3 * cells + i)),
    )
}

// Both bytes are read before they are joined, so that the two become one load.
fn count_in(log: &[u8], at: usize) -> u16
    requires { at + 1 < length log.now }
    ensures { result ≡ number_at log.now at 2 }
{
    let low = log[at];
    let high = log[at + 1];
    (high as u16) * 256 + (low as u16)
}

pub fn lapses_among(log: &[u8], n: u16, i: usize) -> u8
    ensures { result ≡ lapses_among n log.now i }
{
    if (n as usize) <= i {
        return 0;
    }
    let at = lapses_place(n, i);
    if size_for(n) <= log.len() {
        return log[at];
    }
    byte_numbers::byte_at(log, at)
}

// The room of n cells. With it every place of theirs is one: a loop over them tests it once, and no place by itself.
fn size_for(n: u16) -> usize
    ensures { result ≡ size_for n }
{
    let cells = n as usize;
    HEADER_BYTES + cells / 4 + 8 * cells + cells
}

pub fn kind_at(log: &[u8], n: u16, i: usize) -> u8
    requires { i < n }
    ensures { result ≡ kind_at log.now i }
{
    let at = kind_place(i);
    if size_for(n) <= log.len() {
        return crate::pair::pair_of(log[at], i % 4);
    }
    crate::pair::pair_of(byte_numbers::byte_at(log, at), i % 4)
}

pub fn count_at(log: &[u8], n: u16, m: usize) -> u16
    requires { m < 4 * n }
    ensures { result ≡ count_at n log.now m }
{
    let at = count_place(n, m);
    if size_for(n) <= log.len() {
        return count_in(log, at);
    }
    byte_numbers::u16_at(log, at)
}

// As far as the image has room for it.
pub fn put_cell(log: &mut [u8], i: usize, c: Cell)
    ensures { log.new ≡ put_cell log.old i c }
{
    let n = cells_at(log);
    put_cell_among(log, n, i, c);
}

// Where the image has room for it.
pub fn put_lapses(log: &mut [u8], i: usize, lapses: u8)
    ensures { log.new ≡ put_lapses log.old i lapses }
{
    let n = cells_at(log);
    put_lapses_among(log, n, i, lapses);
}

pub fn put_cell_among(log: &mut [u8], n: u16, i: usize, c: Cell)
    ensures { log.new ≡ put_cell_among n log.old i c }
{
    if (n as usize) <= i {
        return;
    }
    // The cell is matched for each part by itself: kinds come in no order that a processor could guess, and so nothing branches on them.
    put_kind(log, i, log_cell::kind_of(c));
    put_counts(
        log,
        n,
        i,
        log_cell::e_plus(c),
        log_cell::e_minus(c),
        log_cell::r_plus(c),
        log_cell::r_minus(c),
    );
}

pub fn put_lapses_among(log: &mut [u8], n: u16, i: usize, lapses: u8)
    ensures { log.new ≡ put_lapses_among n log.old i lapses }
{
    if (n as usize) <= i {
        return;
    }
    let at = lapses_place(n, i);
    if size_for(n) <= log.len() {
        log[at] = lapses;
        return;
    }
    byte_numbers::put_byte(log, at, lapses);
}

fn put_kind(log: &mut [u8], i: usize, kind: u8)
    requires { kind < 4 }
    ensures { log.new ≡ put_kind log.old i kind }
{
    let at = kind_place(i);
    let kinds = byte_numbers::byte_at(log, at);
    byte_numbers::put_byte(log, at, crate::pair::put_pair(kinds, i % 4, kind));
}

fn put_counts(log: &mut [u8], n: u16, i: usize, ep: u16, em: u16, rp: u16, rm: u16)
    requires { i < n }
    ensures { log.new ≡ put_counts n log.old i ep em rp rm }
{
    let cells = n as usize;
    put_count(log, n, i, ep);
    put_count(log, n, cells + i, em);
    put_count(log, n, 2 * cells + i, rp);
    put_count(log, n, 3 * cells + i, rm);
}

fn put_count(log: &mut [u8], n: u16, m: usize, x: u16)
    requires { m < 4 * n }
    ensures { log.new ≡ put_count n log.old m x }
{
    let at = count_place(n, m);
    if size_for(n) <= log.len() {
        log[at] = (x % 256) as u8;
        log[at + 1] = (x / 256) as u8;
        return;
    }
    byte_numbers::put_u16(log, at, x);
}

pub fn apply(log: &mut [u8], change: Change)
    ensures { log.new ≡ applied change log.old }
{
    match change {
        Change::Put(i, c) => put_cell(log, i, c),
        Change::Lapses(i, n) => put_lapses(log, i, n),
        Change::None => {}
    }
}
