// The table of parameters: 002's Appendix A (page 21), a row a parameter, as far as document 01 has a bullet for it.
//
// What a command may do to a parameter and how many bytes it takes is read from here and stands nowhere else. What a parameter's figures
// are, and what a change of it does, stand with the record that they belong to.
ghost use Rattle.std.specs.Prelude.{◌≡◌};
ghost use Rattle.parameters.specs.Table.{line, read, read_both, plain, by, parameter_row};
ghost use Rattle.parameters.specs.Table.{opens_to, parameter_of, by_phase, bytes_in, reply_bytes, figure_count};

use crate::code::{
    ACTIVE_POWER, ADDRESS, CLOCK, DISPLAY_MASK, PASSWORD, Parameter, REACTIVE_POWER, Reading,
    SIX_SLICES, SLICE, SUMMER_DATE, TELEMETRY, UNKNOWN, WINTER_DATE,
};

// What offset, tariff and detail of a read are.
#[derive(Clone, Copy, PartialEq, Eq)]
pub enum Fields {
    // All three are 0.
    Unused,
    // The detail names a phase, 1 to 3, or with 0 the total and all three.
    Phase,
    // Month, day and number of a slice.
    Slot,
    // The same of the first of six.
    SixSlots,
}

// The access that a change needs.
#[derive(Clone, Copy, PartialEq, Eq)]
pub enum Access {
    Auxiliary,
    Main,
}

#[derive(Clone, Copy, PartialEq, Eq)]
pub struct Row {
    pub code: u8,
    pub readable: bool,
    // Whether it can be read as the display shows it.
    pub displayable: bool,
    pub fields: Fields,
    // The data of a reply: bytes, and figures in them.
    pub reply_bytes: usize,
    pub figures: usize,
    pub changeable: bool,
    pub access: Access,
    // The data of a change, and the details that it may have, from and to.
    pub change_bytes: usize,
    pub detail_from: u8,
    pub detail_to: u8,
    pub zeroable: bool,
}

// A row's columns for reads, and those for changes.
#[derive(Clone, Copy)]
struct Reads {
    may: bool,
    displayed: bool,
    fields: Fields,
    bytes: usize,
    figures: usize,
}

#[derive(Clone, Copy)]
struct Changes {
    may: bool,
    access: Access,
    bytes: usize,
    from: u8,
    to: u8,
}

// The data of a power's reply that has one phase.
const PHASE_BYTES: usize = 4;

const PHASE_FIGURES: usize = 1;

// Those of a reply with what the display shows: four 32-bit floats.
const DISPLAYED_BYTES: usize = 16;

const DISPLAYED_FIGURES: usize = 4;

// The columns of a parameter that cannot be read, and of one that cannot be changed.
const UNREAD: Reads = Reads {
    may: false,
    displayed: false,
    fields: Fields::Unused,
    bytes: 0,
    figures: 0,
};

const FIXED: Changes = Changes {
    may: false,
    access: Access::Main,
    bytes: 0,
    from: 0,
    to: 0,
};

pub fn parameter_row(p: Parameter) -> Row
    ensures { result ≡ parameter_row p }
{
    // code, fields of a read with bytes and figures of its reply, bytes and details of a change, whether it can be zeroed
    match p {
        Parameter::ActivePower => line(ACTIVE_POWER, read(Fields::Phase, 16, 4), FIXED, false),
        Parameter::ReactivePower => line(REACTIVE_POWER, read(Fields::Phase, 16, 4), FIXED, false),
        Parameter::Address => line(ADDRESS, plain(1, 1), by(Access::Auxiliary, 1, 0, 0), false),
        Parameter::Telemetry => line(TELEMETRY, plain(8, 3), by(Access::Main, 8, 0, 0), false),
        Parameter::SummerDate => line(SUMMER_DATE, plain(6, 6), by(Access::Main, 6, 0, 0), true),
        Parameter::WinterDate => line(WINTER_DATE, plain(6, 6), by(Access::Main, 6, 0, 0), true),
        Parameter::Clock => line(CLOCK, plain(6, 6), by(Access::Main, 6, 2, 2), false),
        Parameter::DisplayMask => line(
            DISPLAY_MASK,
            plain(6, 3),
            by(Access::Auxiliary, 6, 0, 0),
            false,
        ),
        Parameter::Slice => line(SLICE, read_both(Fields::Slot, 8, 4), FIXED, true),
        Parameter::Password => line(PASSWORD, UNREAD, by(Access::Main, 8, 0, 1), false),
        Parameter::SixSlices => line(SIX_SLICES, read(Fields::SixSlots, 48, 24), FIXED, false),
        Parameter::Unknown => line(UNKNOWN, UNREAD, FIXED, false),
    }
}

fn line(code: u8, reads: Reads, changes: Changes, zeroable: bool) -> Row
    ensures { result ≡ line code reads changes zeroable }
{
    Row {
        code,
        readable: reads.may,
        displayable: reads.displayed,
        fields: reads.fields,
        reply_bytes: reads.bytes,
        figures: reads.figures,
        changeable: changes.may,
        access: changes.access,
        change_bytes: changes.bytes,
        detail_from: changes.from,
        detail_to: changes.to,
        zeroable,
    }
}

fn read(fields: Fields, bytes: usize, figures: usize) -> Reads
    ensures { result ≡ read fields bytes figures }
{
    Reads {
        may: true,
        displayed: false,
        fields,
        bytes,
        figures,
    }
}

fn read_both(fields: Fields, bytes: usize, figures: usize) -> Reads
    ensures { result ≡ read_both fields bytes figures }
{
    Reads {
        displayed: true,
        ..read(fields, bytes, figures)
    }
}

fn plain(bytes: usize, figures: usize) -> Reads
    ensures { result ≡ plain bytes figures }
{
    read(Fields::Unused, bytes, figures)
}

fn by(access: Access, bytes: usize, from: u8, to: u8) -> Changes
    ensures { result ≡ by access bytes from to }
{
    Changes {
        may: true,
        access,
        bytes,
        from,
        to,
    }
}

// Whether a read opens a parameter.
pub fn opens_to(reading: Reading, row: Row) -> bool
    ensures { result ≡ opens_to reading row }
{
    match reading {
        Reading::Stored => row.readable,
        Reading::Displayed => row.displayable,
    }
}

// The parameter that has a code in the table.
impl From<u8> for Parameter {
    ghost from_gives = { λ code gives. gives ≡ parameter_of code };

    #[tactic(auto, unfolding(crate::specs::Table::first_of, crate::specs::Table::parameter_of))]
    fn from(code: u8) -> Parameter {
        match code {
            ACTIVE_POWER => Parameter::ActivePower,
            REACTIVE_POWER => Parameter::ReactivePower,
            ADDRESS => Parameter::Address,
            TELEMETRY => Parameter::Telemetry,
            SUMMER_DATE => Parameter::SummerDate,
            WINTER_DATE => Parameter::WinterDate,
            CLOCK => Parameter::Clock,
            DISPLAY_MASK => Parameter::DisplayMask,
            SLICE => Parameter::Slice,
            PASSWORD => Parameter::Password,
            SIX_SLICES => Parameter::SixSlices,
            _ => Parameter::Unknown,
        }
    }
}

// How many bytes the data of a reply have, and how many figures: those of the row, save that one phase of a power is a part of it.
#[tactic(auto, unfolding(crate::specs::Table::reply_bytes))]
pub fn reply_bytes(reading: Reading, p: Parameter, detail: u8) -> usize
    ensures { result ≡ reply_bytes reading p detail }
{
    bytes_in(reading, parameter_row(p), detail)
}

// The bytes by a row that is at hand.
pub fn bytes_in(reading: Reading, row: Row, detail: u8) -> usize
    ensures { result ≡ bytes_in reading row detail }
{
    match reading {
        Reading::Stored => by_phase(row.fields, detail, row.reply_bytes, PHASE_BYTES),
        Reading::Displayed => DISPLAYED_BYTES,
    }
}

#[tactic(auto, unfolding(crate::specs::Table::figure_count))]
pub fn figure_count(reading: Reading, p: Parameter, detail: u8) -> usize
    ensures { result ≡ figure_count reading p detail }
{
    let row = parameter_row(p);
    match reading {
        Reading::Stored => by_phase(row.fields, detail, row.figures, PHASE_FIGURES),
        Reading::Displayed => DISPLAYED_FIGURES,
    }
}

fn by_phase(fields: Fields, detail: u8, whole: usize, phase: usize) -> usize
    ensures { result ≡ by_phase fields detail whole phase }
{
    match fields {
        Fields::Phase if detail != 0 => phase,
        Fields::Phase | Fields::Unused | Fields::Slot | Fields::SixSlots => whole,
    }
}
