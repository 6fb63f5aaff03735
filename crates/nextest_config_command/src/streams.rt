//! From a request to what is written, and to a status.

ghost use Rattle.std.specs.Prelude.{◌≡◌, ◌⊎◌, IfErr, IfOk, IsTrue};
ghost use Rattle.nextest_config_report.specs.declared.exit_status.ExitStatus.TheVariants.{NoOutcome};
ghost use Rattle.nextest_config_report.specs.Streams.{AddsOrFails};
ghost use Rattle.nextest_config_command.specs.Files.{unanswered_text, UnlessMemory};
ghost use Rattle.nextest_config_command.specs.Found.{files_of, IsFirstUnread};
ghost use Rattle.nextest_config_command.specs.Streams.{AddsPrintable, AddTwoPrintable, IsEnded, IsOutput, IsOutputAbout, is_read_by_people, IsWritten, IsUnwritten, line_of};

use crate::answer::{Answer, Engine};
use crate::files::{Files, Unanswered};
use crate::found::Search;
use crate::parsed_file::ParsedFiles;
use crate::request::Request;
use nextest_config_report::exit_status::ExitStatus;
use nextest_config_report::streams::{
    CANNOT_WRITE, Stream, complain, is_reader_gone, write_report,
};
use nextest_config_values::literal::shown_lines;
use std::alloc::{AllocError, Global};

/// An answer as it is printed, and what is said before it: a line for each file that is missing,
/// and what the answer says beside what it writes.
#[derive(Drop)]
pub(crate) struct Output {
    notices: String,
    text: String,
    status: ExitStatus,
}

/// Does what is asked for, and answers the number that the command ends with. Where a file is
/// looked for and missing, the second stream says so, and the command goes on without it.
pub fn serve<F: Files, W: Stream, E: Stream>(
    alloc: Global,
    request: &Request,
    files: &F,
    writer: &mut W,
    faults: &mut E,
) -> u8
    ensures ended { IsEnded (F.holds files.now) request.now result
        (W.may_have_failed writer.new) (W.reader_may_be_gone writer.new)
        (W.contents writer.old) (W.contents writer.new)
        (E.may_have_failed faults.new) (E.contents faults.old) (E.contents faults.new) }
    ensures writes_printable { IsTrue (is_read_by_people request.now.task)
        → AddsPrintable (W.contents writer.old) (W.contents writer.new) }
    ensures says_printable { IsTrue (is_read_by_people request.now.task)
        → AddTwoPrintable (E.contents faults.old) (E.contents faults.new) }
{
    match output_of(alloc, request, files) {
        Ok(output) => print(&output, writer, faults).code(),
        Err(unanswered) => give_up(&unanswered, faults).code(),
    }
}

// The output for a request, whose files are read.
fn output_of<F: Files>(alloc: Global, request: &Request, files: &F) -> Result<Output, Unanswered>
    ensures output { IfOk result (IsOutput (F.holds files.now) request.now) }
    ensures unread { IfErr result (UnlessMemory (IsFirstUnread (F.holds files.now) request.now)) }
{
    let search = Search { alloc, files };
    let tools = search.read_tools(request)?;
    let found = search.find_all(request)?;
    let parsed = ParsedFiles::of(alloc, tools.as_slice(), found.as_slice())?;
    let output = output_about(alloc, request, &parsed)?;
    Ok(output)
}

// The output for a request of which these are the files.
fn output_about(
    alloc: Global,
    request: &Request,
    files: &ParsedFiles<'_>,
) -> Result<Output, AllocError>
    ensures { IfOk result (IsOutputAbout request.now (files_of files.now)) }
{
    let notices = String::from_str(alloc, files.notices.as_str())?;
    let mut notices = shown_lines(alloc, notices)?;
    let engine = Engine {
        alloc,
        edition: request.edition,
        files,
    };
    let Answer { text, said, status } = engine.answer_to(&request.task)?;
    let said = said.text(alloc)?;
    notices.push_str(said.as_str())?;
    let text = text.text(alloc)?;
    Ok(Output {
        notices,
        text,
        status,
    })
}

// Says the notices, writes the answer, and tells how the command ends.
fn print<W: Stream, E: Stream>(output: &Output, writer: &mut W, faults: &mut E) -> ExitStatus
    ensures { IsWritten output.now result (W.contents writer.old) (W.contents writer.new)
        (E.may_have_failed faults.new) (E.contents faults.old) (E.contents faults.new)
        ⊎ IsUnwritten output.now result (W.may_have_failed writer.new)
        (W.reader_may_be_gone writer.new) (W.contents writer.old) (W.contents writer.new)
        (E.may_have_failed faults.new) (E.contents faults.old) (E.contents faults.new) }
{
    say(output.notices.as_str(), faults);
    match write_report(writer, output.text.as_bytes()) {
        Ok(()) => output.status,
        Err(error) => {
            if !is_reader_gone(&error) {
                let _ = complain(faults, CANNOT_WRITE, "");
            }
            ExitStatus::NoOutcome
        }
    }
}

// Says notices, if there are any.
fn say<E: Stream>(notices: &str, faults: &mut E)
    ensures { AddsOrFails (E.may_have_failed faults.new) (E.contents faults.old)
        (E.contents faults.new) notices.now }
{
    if !notices.is_empty() {
        let _ = write_report(faults, notices.as_bytes());
    }
}

// Says why there is no answer, and tells how the command ends.
fn give_up<E: Stream>(unanswered: &Unanswered, faults: &mut E) -> ExitStatus
    ensures status { result ≡ NoOutcome }
    ensures reported { AddsOrFails (E.may_have_failed faults.new) (E.contents faults.old)
        (E.contents faults.new) (line_of (unanswered_text unanswered.now)) }
{
    let _ = complain(faults, unanswered.as_str(), "");
    ExitStatus::NoOutcome
}
