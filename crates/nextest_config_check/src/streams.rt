//! From streams to a report, and from the words of the command line to a status.

ghost use Rattle.std.specs.Prelude.{◌≡◌, ◌≢◌, ◌↔◌, ◌⊎◌, ◌++◌, ℕ, List, Some, codes, IfOk, IfErr, OnOk, IfSome};
ghost use Rattle.std.specs.IoError.{error_kind};
ghost use Rattle.std.specs.Io.KnownBytes.{Appends, IsAtEnd, Keeps};
ghost use Rattle.semver.specs.Identifiers.{parts_of};
ghost use Rattle.nextest_config_report.specs.ExitStatus.{exit_code};
ghost use Rattle.nextest_config_report.specs.Streams.{AddsOrFails};
ghost use Rattle.nextest_config_check.specs.CommandLine.{IfCheck, IfComplaint, command_line_of, words_fault_text, words_status};
ghost use Rattle.nextest_config_check.specs.Streams.{WritesReport, IsCutShort, Writes, run_fault_text};
ghost use Rattle.nextest_config_check.specs.Report.{IsReport};

use crate::command_line::{Check, WordsFault, parse_words};
pub use crate::report::Outcome;
use crate::report::report_on;
use nextest_config::nextest_version::Edition;
use nextest_config_report::exit_status::ExitStatus;
use nextest_config_report::streams::{CANNOT_WRITE, OUT_OF_MEMORY, Stream, complain, write_report};
use semver::Version;
use std::alloc::{AllocError, Global};
use std::fmt;
use std::io::{self, ErrorKind, Read};

/// Why a check gave no outcome.
#[derive(Clone, Copy, Debug, PartialEq, Eq)]
pub enum RunFault {
    /// The reader failed. Nothing was written.
    Read,
    /// The writer failed. Some of the report may have been written.
    Write,
    /// A request for memory was refused. Nothing was written.
    Memory,
}

impl RunFault {
    // Why a read gave nothing.
    fn of_read(error: &io::Error) -> Self
        ensures memory { (result ≡ RunFault.Memory)
            ↔ (error_kind error.now ≡ ErrorKind.OutOfMemory) }
        ensures read { result ≢ RunFault.Write }
    {
        match error.kind() {
            ErrorKind::OutOfMemory => RunFault::Memory,
            _ => RunFault::Read,
        }
    }

    // What the program says of the fault.
    fn as_str(self) -> &'static str
        ensures { result.now ≡ run_fault_text self }
    {
        match self {
            RunFault::Read => "cannot read input",
            RunFault::Write => CANNOT_WRITE,
            RunFault::Memory => OUT_OF_MEMORY,
        }
    }
}

impl From<AllocError> for RunFault {
    ghost use Rattle.nextest_config_check.specs.declared.streams.RunFault.TheVariants.{Memory};

    ghost from_gives = { λ _ fault. fault ≡ Memory };

    fn from(_error: AllocError) -> Self {
        RunFault::Memory
    }
}

impl fmt::Display for RunFault {
    ghost output = { λ fault. Some (run_fault_text fault) };

    ghost styled_output = { λ fault _. Some (run_fault_text fault) };

    fn fmt<W: fmt::Write>(&self, f: &mut fmt::Formatter<W>) -> fmt::Result {
        f.write_str(self.as_str())
    }
}

/// Does what the words of the command line, without the program's name, ask for, and answers the
/// status that the program ends with.
pub fn serve<R: Read, W: Stream, E: Stream>(
    alloc: Global,
    words: &[String],
    reader: &mut R,
    writer: &mut W,
    faults: &mut E,
) -> u8
    // Words that are refused.
    ensures complaint { IfComplaint (command_line_of words.now) (λ _. result ≡ 2) }
    ensures told { IfComplaint (command_line_of words.now) (λ text.
        AddsOrFails (E.may_have_failed faults.new) (E.contents faults.old)
        (E.contents faults.new) text) }
    ensures unread { IfComplaint (command_line_of words.now) (λ _.
        Keeps (R.remaining reader.old) (R.remaining reader.new)) }
    ensures unwritten { IfComplaint (command_line_of words.now) (λ _.
        Keeps (W.contents writer.old) (W.contents writer.new)) }

    // Words that ask for a check.
    ensures checked { IfCheck (command_line_of words.now) (λ current overridden edition.
        (result ≡ 3)
        ⊎ WritesReport (R.remaining reader.old) current overridden edition result
        (W.contents writer.old) (W.contents writer.new)) }
    ensures drained { result ≢ 3 → IfCheck (command_line_of words.now)
        (λ _ _ _. IsAtEnd (R.remaining reader.new)) }
    ensures quiet { result ≢ 3 → IfCheck (command_line_of words.now)
        (λ _ _ _. Keeps (E.contents faults.old) (E.contents faults.new)) }
    ensures cut_short { result ≡ 3 → IfCheck (command_line_of words.now) (λ _ _ _. IsCutShort
        (R.remaining reader.new) (W.may_have_failed writer.new) (W.contents writer.old)
        (W.contents writer.new) (E.may_have_failed faults.new) (E.contents faults.old)
        (E.contents faults.new)) }
{
    match parse_words(alloc, words) {
        Ok(check) => make(alloc, &check, reader, writer, faults),
        Err(fault) => refuse(faults, fault),
    }
}

// Makes the check, says why if there is no outcome, and answers the status that the program ends
// with.
fn make<R: Read, W: Stream, E: Stream>(
    alloc: Global,
    check: &Check,
    reader: &mut R,
    writer: &mut W,
    faults: &mut E,
) -> u8
    ensures checked { (result ≡ 3)
        ⊎ WritesReport (R.remaining reader.old) (parts_of check.now.current)
        check.now.override_version_check check.now.edition result
        (W.contents writer.old) (W.contents writer.new) }
    ensures drained { result ≢ 3 → IsAtEnd (R.remaining reader.new) }
    ensures quiet { result ≢ 3 → Keeps (E.contents faults.old) (E.contents faults.new) }
    ensures cut_short { result ≡ 3 → IsCutShort (R.remaining reader.new)
        (W.may_have_failed writer.new) (W.contents writer.old) (W.contents writer.new)
        (E.may_have_failed faults.new) (E.contents faults.old) (E.contents faults.new) }
{
    match run(
        alloc,
        reader,
        writer,
        &check.current,
        check.override_version_check,
        check.edition,
    ) {
        Ok(outcome) => outcome.status(),
        Err(fault) => {
            let _ = complain(faults, fault.as_str(), "");
            ExitStatus::NoOutcome.code()
        }
    }
}

/// Says why the words of the command line are refused, and answers the status that the program ends
/// with.
pub(crate) fn refuse<E: Stream>(faults: &mut E, fault: WordsFault<'_>) -> u8
    ensures status { result ≡ exit_code (words_status fault.entry) }
    ensures told { AddsOrFails (E.may_have_failed faults.new) (E.contents faults.old)
        (E.contents faults.new) (words_fault_text fault.entry ++ codes "\n") }
{
    let (complaint, word) = fault.text();
    let _ = complain(faults, complaint, word);
    fault.status().code()
}

/// Reads the whole input, its sources under the edition, and then writes the report on it.
pub fn run<R: Read, W: Stream>(
    alloc: Global,
    reader: &mut R,
    writer: &mut W,
    current: &Version,
    override_version_check: bool,
    edition: Edition,
) -> Result<Outcome, RunFault>
    ensures report { IfOk result
        (λ outcome. IfSome (R.remaining reader.old) (λ input. (text : List ℕ)
        × IsReport input (parts_of current.now) override_version_check edition text outcome
        × Appends (W.contents writer.old) (W.contents writer.new) text)) }
    ensures read { OnOk result (IsAtEnd (R.remaining reader.new)) }
    ensures read_first { result ≡ Err RunFault.Write → IsAtEnd (R.remaining reader.new) }
    ensures nothing { IfErr result (Writes (W.may_have_failed writer.new) (W.contents writer.old)
        (W.contents writer.new)) }
{
    let mut input = Vec::new(alloc);
    if let Err(error) = reader.read_to_end(&mut input) {
        return Err(RunFault::of_read(&error));
    }
    let report = report_on(alloc, &input, current, override_version_check, edition)?;
    let Ok(()) = write_report(writer, report.text.as_bytes()) else {
        return Err(RunFault::Write);
    };
    Ok(report.outcome)
}
