// The functions of include/metlazuel.h, as C calls them: each hands its arguments to the function of the same name of `metlazuel`, and promises what that
// one promises. A slice is a pointer and then its length, `&mut` of a number or of an array a pointer.
#![tactic(auto)]

ghost use Rattle.std.specs.Prelude.{◌≡◌};
ghost use Rattle.crc16.specs.Crc.{crc_of};
ghost use Rattle.refusal.specs.Outcome.{outcome};
ghost use Rattle.log_header.specs.Header.{sound_of};
ghost use Rattle.day_rows.specs.LogAndRows.{log_and_rows};
ghost use Rattle.log_file.specs.Read.{read_file, read_number};
ghost use Rattle.day_report.specs.Report.{report_of, report_number};
ghost use Rattle.metlazuel.specs.Calls.{numbered, sized};
ghost use Rattle.metlazuel.specs.LogCalls.{length_after};

mod answer_call;
mod bench_meter;
mod cell_calls;
mod log_calls;
mod mercury_calls;
mod wire_calls;

pub use answer_call::metlazuel_meter_answer;
pub use bench_meter::{
    metlazuel_meter_make, metlazuel_meter_powers, metlazuel_meter_ratios, metlazuel_meter_second,
    metlazuel_meter_slice,
};
pub use cell_calls::{metlazuel_cell, metlazuel_next_gap};
pub use log_calls::{
    metlazuel_ask, metlazuel_lapse, metlazuel_log_fresh, metlazuel_take, metlazuel_write_file,
};
pub use mercury_calls::{
    metlazuel_mercury_answer, metlazuel_mercury_decode, metlazuel_mercury_request,
};
pub use wire_calls::{metlazuel_decode, metlazuel_decode4, metlazuel_request, metlazuel_request4};

#[unsafe(no_mangle)]
pub extern "C" fn metlazuel_crc16(bytes: &[u8]) -> u16
    ensures { result ≡ crc_of bytes.now }
{
    metlazuel::metlazuel_crc16(bytes)
}

#[unsafe(no_mangle)]
pub extern "C" fn metlazuel_read_file(
    file: &[u8],
    out: &mut [u8],
    figures: &mut [u32],
    length: &mut usize,
) -> u8
    ensures { outcome result (length.new, log_and_rows out.new figures.new)
        ≡ sized read_number length_after (read_file file.now out.old figures.old) length.old }
{
    metlazuel::metlazuel_read_file(file, out, figures, length)
}

#[unsafe(no_mangle)]
pub extern "C" fn metlazuel_day_report(log: &[u8], figures: &[u32], day: u8, row: &mut [u32]) -> u8
    ensures { outcome result row.new
        ≡ numbered report_number (report_of (sound_of log.now) figures.now day row.old) }
{
    metlazuel::metlazuel_day_report(log, figures, day, row)
}
