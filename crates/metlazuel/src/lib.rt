// The core's functions for firmware written in C: numbers and byte slices alone go in and out, and nothing is required of the caller
// but memory that is as long as it says. A slice is a pointer and then its length, `&mut` of a number or of an array a pointer. Each
// function hands its arguments on to a proved one and answers with document 01's number. `metlazuel_c` exports them under these names.
#![tactic(auto)]

ghost use Rattle.std.specs.Prelude.{◌≡◌};
ghost use Rattle.crc16.specs.Crc.{crc_of};
ghost use Rattle.refusal.specs.Outcome.{outcome};
ghost use Rattle.log_header.specs.Header.{sound_of};
ghost use Rattle.day_rows.specs.LogAndRows.{log_and_rows};
ghost use Rattle.log_file.specs.Read.{read_file, read_number};
ghost use Rattle.day_report.specs.Report.{report_of, report_number};
ghost use Rattle.metlazuel.specs.Calls.{numbered, sized};
ghost use Rattle.metlazuel.specs.LogCalls.{length_after};

use refusal::Numbered;

mod answer_call;
mod bench_meter;
mod cell_calls;
mod given;
mod log_calls;
mod mercury_calls;
mod wire_calls;

pub use answer_call::metlazuel_meter_answer;
pub use bench_meter::{
    metlazuel_meter_make, metlazuel_meter_powers, metlazuel_meter_ratios, metlazuel_meter_second,
    metlazuel_meter_slice,
};
pub use cell_calls::{metlazuel_cell, metlazuel_next_gap};
pub use log_calls::{
    metlazuel_ask, metlazuel_lapse, metlazuel_log_fresh, metlazuel_take, metlazuel_write_file,
};
pub use mercury_calls::{
    metlazuel_mercury_answer, metlazuel_mercury_decode, metlazuel_mercury_request,
};
pub use wire_calls::{metlazuel_decode, metlazuel_decode4, metlazuel_request, metlazuel_request4};

// uint16_t metlazuel_crc16(const uint8_t *bytes, size_t n)
pub fn metlazuel_crc16(bytes: &[u8]) -> u16
    ensures { result ≡ crc_of bytes.now }
{
    crc16::crc16(bytes)
}

// uint8_t metlazuel_read_file(const uint8_t *file, size_t n, uint8_t *out, size_t room, uint32_t *figures, size_t numbers, size_t *length)
//
// The image's length goes to `length`, which a refusal leaves as it was, as it leaves `out` and `figures`.
#[tactic(auto, unfolding(crate::specs::LogCalls::length_after))]
pub fn metlazuel_read_file(
    file: &[u8],
    out: &mut [u8],
    figures: &mut [u32],
    length: &mut usize,
) -> u8
    ensures { outcome result (length.new, log_and_rows out.new figures.new)
        ≡ sized read_number length_after (read_file file.now out.old figures.old) length.old }
{
    let answer = log_file::read_file(file, out, figures);
    *length = answer.unwrap_or(*length);
    answer.number()
}

// uint8_t metlazuel_day_report(const uint8_t *log, size_t n, const uint32_t *figures, size_t numbers, uint8_t day, uint32_t *row, size_t room)
pub fn metlazuel_day_report(log: &[u8], figures: &[u32], day: u8, row: &mut [u32]) -> u8
    ensures { outcome result row.new
        ≡ numbered report_number (report_of (sound_of log.now) figures.now day row.old) }
{
    day_report::day_report(log, figures, day, row).number()
}
