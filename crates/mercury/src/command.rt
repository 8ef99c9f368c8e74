// The three commands, and how many data bytes their replies have.
ghost use Rattle.std.specs.Prelude.{◌≡◌};
ghost use Rattle.mercury.specs.Command.{command_of, code_of, is_known, data_size};

#[derive(Clone, Copy)]
pub enum Command {
    Tariffs,
    // Voltage, current and power.
    Load,
    Frequency,
    // Any other code: no failure, but a command whose reply has no figures.
    Unknown,
}

pub const TARIFFS: u8 = 0x27;

pub const LOAD: u8 = 0x63;

pub const FREQUENCY: u8 = 0x81;

// Stands for the commands that are not known.
const UNKNOWN: u8 = 0;

impl From<u8> for Command {
    ghost from_gives = { λ code gives. gives ≡ command_of code };

    #[tactic(auto, unfolding(crate::specs::Command::command_of))]
    fn from(code: u8) -> Command {
        match code {
            TARIFFS => Command::Tariffs,
            LOAD => Command::Load,
            FREQUENCY => Command::Frequency,
            _ => Command::Unknown,
        }
    }
}

impl From<Command> for u8 {
    ghost from_gives = { λ c gives. gives ≡ code_of c };

    fn from(c: Command) -> u8 {
        match c {
            Command::Tariffs => TARIFFS,
            Command::Load => LOAD,
            Command::Frequency => FREQUENCY,
            Command::Unknown => UNKNOWN,
        }
    }
}

impl Command {
    pub fn is_known(self) -> bool
        ensures { result ≡ is_known self }
    {
        !matches!(self, Command::Unknown)
    }

    // How many data bytes the reply has.
    pub fn data_bytes(self) -> usize
        ensures { result ≡ data_size self }
    {
        match self {
            Command::Tariffs => 16,
            Command::Load => 7,
            Command::Frequency => 9,
            Command::Unknown => 0,
        }
    }
}
