// Protection: which address and which level a command needs, and the commands that open and shut a level.
ghost use Rattle.std.specs.Prelude.{◌≡◌};
ghost use Rattle.meter_command.specs.Access.{by_own, is_main, is_open, allows, password_for, level_for, unlock_verdict, lock_verdict};

use crate::command::Command;
use crate::verdict::Refusal;
use frame::layout;
use meter_clock::Level;
use meter_record::Passwords;
use parameters::table::Access;

// The levels as a command names them: main 0, auxiliary 1.
pub const AUXILIARY: u8 = 1;

// The address by which a frame met the meter: its own, 0, or neither.
#[derive(Clone, Copy, PartialEq, Eq)]
pub enum Met {
    Own,
    Zero,
    Neither,
}

// Whether a frame may change the meter: by address 0 it would change every other on the line too.
pub fn by_own(met: Met) -> bool
    ensures { result ≡ by_own met }
{
    met == Met::Own
}

pub fn is_main(level: Level) -> bool
    ensures { result ≡ is_main level }
{
    level == Level::Main
}

fn is_open(level: Level) -> bool
    ensures { result ≡ is_open level }
{
    level != Level::Shut
}

// Whether a level opens a change that needs the access.
pub fn allows(access: Access, level: Level) -> bool
    ensures { result ≡ allows access level }
{
    match access {
        Access::Auxiliary => is_open(level),
        Access::Main => is_main(level),
    }
}

// The password of the level that a command names.
#[tactic(auto, unfolding(crate::specs::Access::password_for))]
fn password_for(p: Passwords, named: u8) -> u64
    ensures { result ≡ password_for p named }
{
    if named == AUXILIARY {
        p.auxiliary.0
    } else {
        p.main.0
    }
}

#[tactic(auto, unfolding(crate::specs::Access::level_for))]
pub fn level_for(named: u8) -> Level
    ensures { result ≡ level_for named }
{
    if named == AUXILIARY {
        Level::Auxiliary
    } else {
        Level::Main
    }
}

#[tactic(auto, unfolding(crate::specs::Access::unlock_verdict))]
pub fn unlock_verdict(p: Passwords, c: Command, frame: &[u8]) -> Result<(), Refusal>
    ensures { result ≡ unlock_verdict p c frame.now }
{
    if c.length != layout::UNLOCK_BYTES {
        return Err(Refusal::WrongLength);
    }
    if AUXILIARY < c.detail {
        return Err(Refusal::WrongArgument);
    }
    if byte_numbers::u64_at(frame, layout::DATA) != password_for(p, c.detail) {
        return Err(Refusal::NoAccess);
    }
    if c.request.parameter != 0 {
        return Err(Refusal::WrongArgument);
    }
    Ok(())
}

#[tactic(auto, unfolding(crate::specs::Access::lock_verdict))]
pub fn lock_verdict(c: Command) -> Result<(), Refusal>
    ensures { result ≡ lock_verdict c }
{
    if c.length != layout::BARE_BYTES {
        return Err(Refusal::WrongLength);
    }
    if c.request.parameter != 0 || c.detail != 0 {
        return Err(Refusal::WrongArgument);
    }
    Ok(())
}
