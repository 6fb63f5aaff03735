//! The texts of faults.

use crate::answers::{copied, cut, unknown};
use crate::failure::Failure;
use crate::runner::Runner;
use crate::told::tell;
use crate::values::{FromRow, word};
use nextest_config_values::read::{FaultKind, ReadFault, Rule, ValueFault};
use toml::Value;

/// The fault that a maker makes of what is given to it.
pub fn faults(rt: &Runner, call: &str, input: &str) -> Result<String, Failure> {
    let maker = call.strip_prefix("kept ").unwrap_or(call);
    let (at, given) = cut(input, ", ")?;
    tell(rt, call, told(rt, maker, given, at)?)
}

// What is told at a path of the fault that a maker makes of what is given there: of the value
// itself, or of what stands below a key `k` or an index 7.
fn told(rt: &Runner, call: &str, given: &str, at: &str) -> Result<ReadFault, Failure> {
    let alloc = rt.alloc();
    let (place, maker) = word(call);
    match place {
        "key" => Ok(fault(rt, maker, given)?.below_key(alloc, "k").at(alloc, at)),
        "index" => Ok(fault(rt, maker, given)?.below_index(alloc, 7).at(alloc, at)),
        "element" => {
            let fault = fault(rt, maker, given)?.below_index(alloc, 7);
            Ok(fault.below_key(alloc, "k").at(alloc, at))
        }
        _ => Ok(fault(rt, call, given)?.at(alloc, at)),
    }
}

// The fault that a maker makes of what is given to it. With it the call begins.
fn fault(rt: &Runner, call: &str, given: &str) -> Result<ValueFault, Failure> {
    let (maker, wanted) = word(call);
    match maker {
        "new" => new(rt, kind(rt, given)?),
        "unknown_variant" => Ok(ValueFault::unknown_variant(rt.call(), given, known(wanted))),
        "missing_field" => Ok(ValueFault::missing_field(rt.call(), given)),
        "memory" => Ok(ValueFault::memory(rt.call())),
        "unknown_field" => Ok(ValueFault::unknown_field(rt.call(), given, known(wanted))),
        _ => mismatch(rt, maker, given, expected(wanted)),
    }
}

fn kind(rt: &Runner, text: &str) -> Result<FaultKind, Failure> {
    match word(text) {
        ("PreRelease", _) => Ok(FaultKind::Custom(Rule::PreRelease)),
        ("NotVersion", text) => Ok(FaultKind::Custom(Rule::NotVersion {
            text: copied(rt, text)?,
        })),
        ("Memory", _) => Ok(FaultKind::Memory),
        (name, _) => unknown(rt, name),
    }
}

// The same text, for the program's whole life.
fn expected(text: &str) -> &'static str {
    match text {
        "a boolean" => "a boolean",
        "a string" => "a string",
        _ => "?",
    }
}

// The same words, for the program's whole life.
fn known(words: &str) -> &'static [&'static str] {
    match words {
        "a" => &["a"],
        "a b" => &["a", "b"],
        "a b c" => &["a", "b", "c"],
        _ => &[],
    }
}

fn new(rt: &Runner, kind: FaultKind) -> Result<ValueFault, Failure> {
    Ok(ValueFault::new(rt.call(), kind))
}

fn mismatch(
    rt: &Runner,
    maker: &str,
    given: &str,
    wanted: &'static str,
) -> Result<ValueFault, Failure> {
    let value = Value::from_row(rt, given)?;
    match maker {
        "invalid_type" => Ok(ValueFault::invalid_type(rt.call(), &value, wanted)),
        "invalid_value" => Ok(ValueFault::invalid_value(rt.call(), &value, wanted)),
        "no_duration" => Ok(ValueFault::no_duration(rt.call(), &value)),
        _ => unknown(rt, maker),
    }
}
