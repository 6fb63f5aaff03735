//! What calls tell of values.

use crate::answers::{done, shown};
use crate::failure::Failure;
use crate::runner::Runner;
use nextest_config_values::read::ReadFault;

/// A value of which a call tells something.
pub trait Told {
    /// What the call tells of the value.
    fn told(&self, rt: &Runner, call: &str) -> Result<String, Failure>;
}

/// What the call tells of a value.
pub fn tell<T: Told + Drop>(rt: &Runner, call: &str, value: T) -> Result<String, Failure> {
    value.told(rt, call)
}

/// What the call tells of what was answered.
pub fn answered<T: Told + Drop, E: Told + Drop>(
    rt: &Runner,
    call: &str,
    answer: Result<T, E>,
) -> Result<String, Failure> {
    match answer {
        Ok(value) => value.told(rt, call),
        Err(error) => error.told(rt, call),
    }
}

/// The fault's text, or its kind and whether it says that memory ran out.
impl Told for ReadFault {
    fn told(&self, rt: &Runner, call: &str) -> Result<String, Failure> {
        if call.starts_with("kept ") {
            done(rt, format!(in rt.alloc(); "{self:?}, {}", self.is_memory()))
        } else {
            shown(rt, self)
        }
    }
}
