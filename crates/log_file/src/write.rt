// A log, written as a file.
ghost use Rattle.std.specs.Prelude.{◌≡◌, true, ◌+◌, ◌≤◌, length};
ghost use Rattle.refusal.specs.Outcome.{outcome};
ghost use Rattle.byte_numbers.specs.Place.{written};
ghost use Rattle.log_header.specs.Header.{header_size, version, is_header, cells_of};
ghost use Rattle.energy_log.specs.Image.{cell_at, lapses_at, all_good, goods};
ghost use Rattle.energy_log.specs.Walk.{seen_from};
ghost use Rattle.energy_log.specs.View.{view_of};
ghost use Rattle.log_file.specs.Row.{row_size_of, row_start, rows_bytes, put_looked};
ghost use Rattle.log_file.specs.File.{file_bytes, file_length, cells_right};
ghost use Rattle.log_file.specs.Write.{write_error_number, written_file};

use crate::missing::Held;
use crate::row::ROW_BYTES;
use log_header::HEADER_BYTES;
use refusal::Numbered;

#[derive(Clone, Copy, PartialEq, Eq)]
pub enum WriteError {
    // The lent log: its header, its length or a cell.
    Unsound,
    TooShort,
}

impl Numbered for WriteError {
    ghost number_of = { write_error_number };

    fn number(&self) -> u8 {
        match self {
            WriteError::Unsound => refusal::UNSOUND,
            WriteError::TooShort => refusal::TOO_SHORT,
        }
    }
}

// To the front of out, whose rest stays as it was. All cells are walked before the first byte is written.
#[tactic(auto, unfolding(crate::specs::Write::written_file))]
pub fn write_file(log: &[u8], out: &mut [u8]) -> Result<usize, WriteError>
    ensures { outcome result out.new ≡ written_file (view_of log.now) out.old }
{
    let Some(h) = log_header::sound(log) else {
        return Err(WriteError::Unsound);
    };
    let length = crate::file::file_length(h);
    if out.len() < length {
        return Err(WriteError::TooShort);
    }
    if !cells_right(log, h) {
        return Err(WriteError::Unsound);
    }
    put_file(log, h, out);
    Ok(length)
}

// Whether each cell is one, and a gap without lapses where there is no slot.
fn cells_right(log: &[u8], h: log_header::Header) -> bool
    requires { is_header h ≡ true }
    ensures { result ≡ cells_right h (cell_at log.now) (lapses_at log.now) }
{
    crate::walk::cells_good(log, log_header::cells_of(h))
        && crate::missing::missing_fresh(log, Held::Image, h)
}

// The file of a log with this header, whose cells are all good, where there is room for it.
fn put_file(log: &[u8], h: log_header::Header, out: &mut [u8])
    requires { (all_good (seen_from (cell_at log.now) 0 (cells_of h)) ≡ true) × (file_length h ≤ length out.old) }
    ensures { out.new
        ≡ written out.old 0 (file_bytes h (goods (seen_from (cell_at log.now) 0 (cells_of h))) (lapses_at log.now)) }
{
    let cells = log_header::cells_of(h);
    log_header::write_header(out, h);
    put_rows(log, cells, out);
    frame::seal(out, HEADER_BYTES + ROW_BYTES * cells);
}

// Its rows, one by one. All cells were seen to be good, and none is tested again.
fn put_rows(log: &[u8], cells: usize, out: &mut [u8])
    requires { (all_good (seen_from (cell_at log.now) 0 cells) ≡ true) × (row_start version cells ≤ length out.old) }
    ensures { out.new
        ≡ written out.old header_size (rows_bytes version 0 (goods (seen_from (cell_at log.now) 0 cells)) (lapses_at log.now)) }
{
    // Asked for once: what is stored to out might be the header's bytes, as far as the compiler can tell.
    let n = energy_log::cells_at(log);
    for i in 0..cells {
        put_known(log, n, i, out);
    }
}

// The row of a cell that was seen to be good: its kind and its counts as they lie. No cell is made, and nothing branches on a kind.
#[tactic(auto, unfolding(crate::specs::Row::put_looked))]
fn put_known(log: &[u8], n: u16, i: usize, out: &mut [u8])
    requires { row_start version i + row_size_of version ≤ length out.old }
    ensures { out.new ≡ put_looked n log.now i out.old }
{
    crate::row::put_row(
        out,
        i,
        energy_log::kind_among(log, n, i),
        energy_log::e_plus_among(log, n, i),
        energy_log::e_minus_among(log, n, i),
        energy_log::r_plus_among(log, n, i),
        energy_log::r_minus_among(log, n, i),
        energy_log::lapses_among(log, n, i),
    );
}
