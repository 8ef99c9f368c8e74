// Read requests: what a request asks for, by its fields and the slots of the meter's day, and the frame that it travels in.
#![tactic(auto)]

mod request;
mod subject;

pub use request::{Request, RequestError, put_request};
pub use subject::{MOST_SLOTS, Subject, data_bytes, fields_fit, is_askable, key_of, subject_of};
