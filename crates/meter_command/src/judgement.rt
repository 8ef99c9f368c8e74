// What becomes of a command, by the address that it met, the record and the frame alone.
ghost use Rattle.std.specs.Prelude.{◌≡◌, ◌+◌, eqb};
ghost use Rattle.frame.specs.Layout.{bare_size};
ghost use Rattle.meter_command.specs.Judgement.{passed, checked, argument_fits, read_verdict, change_verdict, zero_verdict, verdict_of};

use crate::access::Met;
use crate::command::Command;
use crate::verdict::Refusal;
use crate::{access, change};
use frame::layout;
use meter_record::Record;
use parameters::code::Function;
use parameters::table::Row;
use parameters::{code, table};
use wire_values::Telemetry;

// The papers' order: 11, 12, 13, and then 16, 14, 15.
#[tactic(auto, unfolding(crate::specs::Judgement::checked))]
fn checked(
    known: bool,
    opens: bool,
    length_fits: bool,
    own: bool,
    allowed: bool,
    fits: bool,
) -> Result<(), Refusal>
    ensures { result ≡ checked known opens length_fits own allowed fits }
{
    if !known {
        return Err(Refusal::UnknownParameter);
    }
    if !opens {
        return Err(Refusal::NotOpen);
    }
    if !length_fits {
        return Err(Refusal::WrongLength);
    }
    passed(own, allowed, fits)
}

#[tactic(auto, unfolding(crate::specs::Judgement::passed))]
fn passed(own: bool, allowed: bool, fits: bool) -> Result<(), Refusal>
    ensures { result ≡ passed own allowed fits }
{
    if !own {
        return Err(Refusal::ByAddressZero);
    }
    if !allowed {
        return Err(Refusal::NoAccess);
    }
    if !fits {
        return Err(Refusal::WrongArgument);
    }
    Ok(())
}

#[tactic(auto, unfolding(crate::specs::Judgement::read_verdict))]
fn read_verdict(r: Record, c: Command) -> Result<(), Refusal>
    ensures { result ≡ read_verdict r c }
{
    let row = c.row;
    checked(
        row.code != code::UNKNOWN,
        table::opens_to(c.request.reading, row),
        c.length == layout::READ_BYTES,
        true,
        true,
        request::fields_fit(row.fields, c.request, slots::slots_of(r.minutes)),
    )
}

// Whether a frame has so many bytes of data.
fn has_data(length: usize, size: usize) -> bool
    ensures { result ≡ eqb length (bare_size + size) }
{
    length.checked_sub(layout::BARE_BYTES) == Some(size)
}

#[tactic(auto, unfolding(crate::specs::Judgement::change_verdict))]
fn change_verdict(met: Met, r: Record, c: Command, frame: &[u8]) -> Result<(), Refusal>
    ensures { result ≡ change_verdict met r c frame.now }
{
    let row = c.row;
    checked(
        row.code != code::UNKNOWN,
        row.changeable,
        has_data(c.length, row.change_bytes),
        access::by_own(met),
        access::allows(row.access, r.protection.level),
        argument_fits(
            row,
            c.detail,
            r.telemetry,
            byte_numbers::tail(frame, layout::DATA),
        ),
    )
}

#[tactic(auto, unfolding(crate::specs::Judgement::argument_fits))]
fn argument_fits(row: Row, detail: u8, stored: Telemetry, bytes: &[u8]) -> bool
    ensures { result ≡ argument_fits row detail stored bytes.now }
{
    change::detail_fits(row.detail_from, row.detail_to, detail)
        && change::data_fits(row.code, stored, bytes)
}

#[tactic(auto, unfolding(crate::specs::Judgement::zero_verdict))]
fn zero_verdict(met: Met, r: Record, c: Command) -> Result<(), Refusal>
    ensures { result ≡ zero_verdict met r c }
{
    let row = c.row;
    checked(
        row.code != code::UNKNOWN,
        row.zeroable,
        c.length == layout::BARE_BYTES,
        access::by_own(met),
        access::is_main(r.protection.level),
        c.detail == 0,
    )
}

// A frame that met neither address is not heard and does not come here; what it would change is refused as by address 0.
#[tactic(auto, unfolding(crate::specs::Judgement::verdict_of))]
pub fn judge(met: Met, r: Record, c: Command, frame: &[u8]) -> Result<(), Refusal>
    ensures { result ≡ verdict_of met r c frame.now }
{
    match c.function {
        Function::Read(_) => read_verdict(r, c),
        Function::Change => change_verdict(met, r, c, frame),
        Function::Zero => zero_verdict(met, r, c),
        Function::Unlock => access::unlock_verdict(r.passwords, c, frame),
        Function::Lock => access::lock_verdict(c),
        Function::Unknown => Err(Refusal::UnknownFunction),
    }
}
