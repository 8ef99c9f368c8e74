// The length of a log's file.
ghost use Rattle.std.specs.Prelude.{◌≡◌};
ghost use Rattle.log_file.specs.File.{file_length_as, file_length};

use crate::row::ROW_BYTES;
use frame::layout::CRC_BYTES;
use log_header::HEADER_BYTES;

// The longest file.
pub const FILE_MOST: usize = HEADER_BYTES + ROW_BYTES * log_header::CELLS_MOST + CRC_BYTES;

// Of some version.
pub fn file_length_as(version: u16, h: log_header::Header) -> usize
    ensures { result ≡ file_length_as version h }
{
    crate::row::row_start(version, log_header::cells_of(h)) + CRC_BYTES
}

// Of the file that is written.
pub fn file_length(h: log_header::Header) -> usize
    ensures { result ≡ file_length h }
{
    file_length_as(log_header::VERSION, h)
}
