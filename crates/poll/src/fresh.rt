// The file of a fresh log.
use crate::arguments;
use day_rows::FIGURES_MOST;
use file_io::PATH_ROOM;
use log_header::{Header, IMAGE_MOST};
use paths_and_locks::front;
use poll_days::{SaveError, Way};
use poll_words::say;
use refusal::Numbered;

// Whether it was made; where not, that is said.
pub fn make(rt: HostRuntime) -> bool {
    let mut room = [0u8; PATH_ROOM];
    let path = file_io::word(rt, arguments::NEW_LOG, &mut room);
    match arguments::start_words(rt) {
        Some(h) => made_of(rt, path, h),
        None => say::refused(rt, path, refusal::OUT_OF_RANGE),
    }
}

fn made_of(rt: HostRuntime, path: &[u8], h: Header) -> bool {
    let mut image = [0u8; IMAGE_MOST];
    let mut figures = [0u32; FIGURES_MOST];
    match day_rows::fresh_log(h, &mut image, &mut figures) {
        Ok(length) => put(rt, path, front(&image, length)),
        Err(error) => say::refused(rt, path, error.number()),
    }
}

fn put(rt: HostRuntime, path: &[u8], image: &[u8]) -> bool {
    match poll_days::saved(rt, Way::New, path, image) {
        Ok(()) => true,
        Err(SaveError::Refused(number)) => say::refused(rt, path, number),
        Err(SaveError::Failed(why)) => say::failed(rt, path, why),
    }
}
