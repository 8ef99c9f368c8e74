// Protection: the level that a password opened, and the quiet seconds after which it returns.
ghost use Rattle.std.specs.Prelude.{◌≡◌};
ghost use Rattle.meter_clock.specs.Protection.{shut, opened, is_running, is_protection, quiet_second};

#[derive(Clone, Copy, PartialEq, Eq)]
pub enum Level {
    Shut,
    Auxiliary,
    Main,
}

#[derive(Clone, Copy, PartialEq, Eq)]
pub struct Protection {
    pub level: Level,
    // Seconds until protection returns; 0 while it is shut.
    pub left: u8,
}

const QUIET_SECONDS: u8 = 240;

pub fn shut() -> Protection
    ensures { result ≡ shut }
{
    Protection {
        level: Level::Shut,
        left: 0,
    }
}

// The level with all its seconds: after a right password, and again after each accepted change.
pub fn opened(level: Level) -> Protection
    ensures { result ≡ opened level }
{
    Protection {
        level,
        left: QUIET_SECONDS,
    }
}

// Whether the level and the seconds left go together.
#[tactic(auto, unfolding(crate::specs::Protection::is_protection))]
pub fn is_protection(p: Protection) -> bool
    ensures { result ≡ is_protection p }
{
    match p.level {
        Level::Shut => p.left == 0,
        Level::Auxiliary | Level::Main => is_running(p.left),
    }
}

#[tactic(auto, unfolding(crate::specs::Protection::is_running))]
fn is_running(left: u8) -> bool
    ensures { result ≡ is_running left }
{
    1 <= left && left <= QUIET_SECONDS
}

// A second without an accepted change.
#[tactic(auto, unfolding(crate::specs::Protection::quiet_second))]
pub fn quiet_second(p: Protection) -> Protection
    ensures { result ≡ quiet_second p }
{
    if p.left <= 1 {
        shut()
    } else {
        Protection {
            left: p.left - 1,
            ..p
        }
    }
}

// The same in place: "one small record that each second changes in place".
pub fn tick(p: &mut Protection)
    ensures { p.new ≡ quiet_second p.old }
{
    *p = quiet_second(*p);
}

// The step in place for whoever holds the record as a value: a copy is lent to `tick`.
pub fn ticked(p: Protection) -> Protection
    ensures { result ≡ quiet_second p }
{
    let mut q = p;
    tick(&mut q);
    q
}
