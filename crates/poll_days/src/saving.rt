// The log's file, written.
ghost use Rattle.std.specs.Prelude.{◌≡◌, take};
ghost use Rattle.log_file.specs.Write.{write_error_number};
ghost use Rattle.poll_days.specs.declared.saving.SaveError.TheVariants.{Refused, Failed};
ghost use Rattle.poll_days.specs.Saved.{LogFile};

use log_file::{FILE_MOST, WriteError};
use paths_and_locks::front;
use refusal::Numbered;
use std::io;

// How the file comes to its path.
#[derive(Clone, Copy)]
pub enum Way {
    // Where there is none yet.
    New,
    // In the place of the one that is there, which stays as it was where that fails.
    InItsPlace,
}

#[derive(Clone, Copy)]
pub enum SaveError {
    // The log, with this number.
    Refused(u8),
    // The system did, and why.
    Failed(io::Error),
}

impl From<WriteError> for SaveError {
    ghost from_gives = { λ refusal e. e ≡ Refused (write_error_number refusal) };

    fn from(refusal: WriteError) -> SaveError {
        SaveError::Refused(refusal.number())
    }
}

impl From<io::Error> for SaveError {
    ghost from_gives = { λ why e. e ≡ Failed why };

    fn from(why: io::Error) -> SaveError {
        SaveError::Failed(why)
    }
}

// Writes the file of a log.
pub fn saved(rt: HostRuntime, way: Way, path: &[u8], image: &[u8]) -> Result<(), SaveError> {
    let mut file = [0u8; FILE_MOST];
    let n = log_file::write_file(image, &mut file)?;
    put(rt, way, path, file_of(image, &file, n))?;
    Ok(())
}

fn put(rt: HostRuntime, way: Way, path: &[u8], file: &[u8]) -> io::Result<()> {
    match way {
        Way::New => file_io::made(rt, path, file),
        Way::InItsPlace => file_io::stored(rt, path, file),
    }
}

// What is handed over to be written is the log's file and nothing else.
fn file_of<'a>(log: &[u8], buffer: &'a [u8], n: usize) -> &'a [u8]
    requires { LogFile log.now buffer.now n }
    ensures { result.now ≡ take n buffer.now }
{
    front(buffer, n)
}
