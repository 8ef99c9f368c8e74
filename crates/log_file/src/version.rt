// What a file's version says: whether the file is read, which header it can have, and whether its rows have lapses.
ghost use Rattle.std.specs.Prelude.{◌≡◌};
ghost use Rattle.log_file.specs.Row.{has_lapses};
ghost use Rattle.log_file.specs.File.{is_version, seasons_fit, file_header};

// The first, whose header has no byte for the seasons.
const FIRST_VERSION: u16 = 1;

// The first whose rows have lapses.
const LAPSES_VERSION: u16 = 3;

#[tactic(auto, unfolding(crate::specs::File::is_version))]
pub fn is_version(version: u16) -> bool
    ensures { result ≡ is_version version }
{
    FIRST_VERSION <= version && version <= log_header::VERSION
}

#[tactic(auto, unfolding(crate::specs::Row::has_lapses))]
pub fn has_lapses(version: u16) -> bool
    ensures { result ≡ has_lapses version }
{
    LAPSES_VERSION <= version
}

#[tactic(auto, unfolding(crate::specs::File::seasons_fit))]
fn seasons_fit(version: u16, h: log_header::Header) -> bool
    ensures { result ≡ seasons_fit version h }
{
    FIRST_VERSION < version || h.seasons == 0
}

// The header of a file of at least fourteen bytes whose mark and version are right.
#[tactic(auto, unfolding(crate::specs::File::file_header))]
pub fn file_header(file: &[u8]) -> Option<log_header::Header>
    ensures { result ≡ file_header file.now }
{
    let h = log_header::header_of(file)?;
    seasons_fit(log_header::version_at(file), h).then_some(h)
}
