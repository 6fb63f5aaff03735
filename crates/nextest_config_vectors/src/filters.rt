//! What is told of filters and platforms.

use crate::answers::{copied, done, shown, unknown};
use crate::failure::Failure;
use crate::runner::Runner;
use nextest_config_filters::{FilterPlace, TextFault, filter_fault, platform_fault};
use nextest_config_lint::{Finding, FindingKind};
use nextest_config_values::read::Word;

/// What is told of the text: from which character to which, the code, and the words. The call is
/// what it is.
pub fn filters(rt: &Runner, call: &str, input: &str) -> Result<String, Failure> {
    let fault = match call {
        "filter" => filter_fault(rt.call(), input, FilterPlace::Filter),
        "default-filter" => filter_fault(rt.call(), input, FilterPlace::DefaultFilter),
        "platform" => platform_fault(rt.call(), input),
        _ => return unknown(rt, call),
    };
    rt.end();
    match fault {
        Ok(Some(fault)) => told(rt, input, fault),
        Ok(None) => copied(rt, "nothing"),
        Err(error) => shown(rt, &error),
    }
}

fn told(rt: &Runner, text: &str, fault: TextFault) -> Result<String, Failure> {
    let begin = characters_before(text, fault.begin);
    let end = characters_before(text, fault.end);
    let finding = Finding {
        path: Vec::new(rt.alloc()),
        kind: FindingKind::Text(fault),
    };
    let code = finding.code().as_word();
    let words = shown(rt, &finding)?;
    done(rt, format!(in rt.alloc(); "{begin} {end} {code}: {words}"))
}

fn characters_before(text: &str, offset: usize) -> usize {
    text.get(..offset).unwrap_or("").chars().count()
}
