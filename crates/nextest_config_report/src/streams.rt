//! How reports and complaints are written to streams, and the texts that programs have in common.

ghost use Rattle.std.specs.Prelude.{◌≡◌, ◌<◌, ◌++◌, ◌↔◌, ℕ, List, Option, codes, IfErr, IfOk, IsTrue, length, OnErr, OnOk};
ghost use Rattle.std.specs.Io.{WritesAtMost};
ghost use Rattle.std.specs.Io.KnownBytes.{Appends, Keeps, WriteAppends};
ghost use Rattle.nextest_config_report.specs.Streams.{AddsFront, IsReaderGone};

use std::io::{self, ErrorKind, Write};

/// What a program says before a word of its command line that is no version.
pub const NOT_VERSION: &str = "not a version: ";

/// What a program says where its output can't be written.
pub const CANNOT_WRITE: &str = "cannot write output";

/// What a program says where a request for memory was refused.
pub const OUT_OF_MEMORY: &str = "out of memory";

/// What reports and complaints are written to: any writer, or what says itself where it fails.
pub trait Stream {
    // The bytes that it holds, where they are known.
    ghost contents: { Self → Option (List ℕ) };

    // A call of it may have failed.
    ghost may_have_failed: { Self → Type 0 };

    // A call of it may have said that who reads it is gone.
    ghost reader_may_be_gone: { Self → Type 0 };

    /// Takes a front of the bytes, and answers how long that is: at least one byte, where there is
    /// one, unless it fails.
    fn write(&mut self, bytes: &[u8]) -> io::Result<usize>
        ensures bound { WritesAtMost result bytes.now }
        ensures bytes { WriteAppends (contents self.old) (contents self.new) result bytes.now }
        ensures failed { OnErr result (may_have_failed self.new) }
        ensures gone { IfErr result (λ error. IsReaderGone error → reader_may_be_gone self.new) }
        ensures stuck { IfOk result (λ count. count ≡ 0 → 0 < length bytes.now
            → may_have_failed self.new) }
        ensures kept { may_have_failed self.old → may_have_failed self.new };

    /// Passes on what it took.
    fn flush(&mut self) -> io::Result<()>
        ensures bytes { Keeps (contents self.old) (contents self.new) }
        ensures failed { OnErr result (may_have_failed self.new) }
        ensures gone { IfErr result (λ error. IsReaderGone error → reader_may_be_gone self.new) }
        ensures kept { may_have_failed self.old → may_have_failed self.new };
}

/// A writer doesn't say whether a call of it has failed, or why.
impl<W: Write> Stream for W {
    ghost contents = { λ writer. W.Write.contents writer };

    ghost may_have_failed = { λ _. Unit {0} };

    ghost reader_may_be_gone = { λ _. Unit {0} };

    fn write(&mut self, bytes: &[u8]) -> io::Result<usize> {
        Write::write(self, bytes)
    }

    fn flush(&mut self) -> io::Result<()> {
        Write::flush(self)
    }
}

/// Writes a complaint and the word that it is about as a line, with nothing left in the stream's
/// buffers. Where that fails, a front of the line may have been written.
pub fn complain<S: Stream>(faults: &mut S, complaint: &str, word: &str) -> io::Result<()>
    ensures whole { OnOk result (Appends (S.contents faults.old) (S.contents faults.new)
        ((complaint.now ++ word.now) ++ codes "\n")) }
    ensures front { AddsFront (S.contents faults.old) (S.contents faults.new)
        ((complaint.now ++ word.now) ++ codes "\n") }
    ensures failed { OnErr result (S.may_have_failed faults.new) }
    ensures gone { IfErr result (λ error. IsReaderGone error → S.reader_may_be_gone faults.new) }
    ensures kept { S.may_have_failed faults.old → S.may_have_failed faults.new }
{
    write_text(faults, complaint.as_bytes())?;
    write_text(faults, word.as_bytes())?;
    write_text(faults, b"\n")?;
    faults.flush()
}

/// Writes the text of a report, with nothing left in the stream's buffers. Where that fails, a
/// front of it may have been written.
pub fn write_report<S: Stream>(stream: &mut S, text: &[u8]) -> io::Result<()>
    ensures whole { OnOk result (Appends (S.contents stream.old) (S.contents stream.new) text.now) }
    ensures front { AddsFront (S.contents stream.old) (S.contents stream.new) text.now }
    ensures failed { OnErr result (S.may_have_failed stream.new) }
    ensures gone { IfErr result (λ error. IsReaderGone error → S.reader_may_be_gone stream.new) }
    ensures kept { S.may_have_failed stream.old → S.may_have_failed stream.new }
{
    write_text(stream, text)?;
    stream.flush()
}

/// Whether an error says that who reads what is written is gone, and wants no more of it.
pub fn is_reader_gone(error: &io::Error) -> bool
    ensures { IsTrue result ↔ IsReaderGone error.now }
{
    matches!(error.kind(), ErrorKind::BrokenPipe)
}

// Writes the text; where that fails, a front of it may have been written.
fn write_text<S: Stream>(stream: &mut S, text: &[u8]) -> io::Result<()>
    ensures whole { OnOk result (Appends (S.contents stream.old) (S.contents stream.new) text.now) }
    ensures front { AddsFront (S.contents stream.old) (S.contents stream.new) text.now }
    ensures failed { OnErr result (S.may_have_failed stream.new) }
    ensures gone { IfErr result (λ error. IsReaderGone error → S.reader_may_be_gone stream.new) }
    ensures kept { S.may_have_failed stream.old → S.may_have_failed stream.new }
{
    let mut rest = text;
    while !rest.is_empty() {
        match write_some(stream, rest)? {
            0 => return Err(io::Error::from(ErrorKind::WriteZero)),
            count => rest = &rest[count..],
        }
    }
    Ok(())
}

// Writes a front of the bytes. An interrupted write is tried again.
fn write_some<S: Stream>(stream: &mut S, bytes: &[u8]) -> io::Result<usize>
    ensures bound { WritesAtMost result bytes.now }
    ensures bytes { WriteAppends (S.contents stream.old) (S.contents stream.new) result bytes.now }
    ensures failed { OnErr result (S.may_have_failed stream.new) }
    ensures gone { IfErr result (λ error. IsReaderGone error → S.reader_may_be_gone stream.new) }
    ensures stuck { IfOk result (λ count. count ≡ 0 → 0 < length bytes.now
        → S.may_have_failed stream.new) }
    ensures kept { S.may_have_failed stream.old → S.may_have_failed stream.new }
{
    for _ in 0..u64::MAX {
        match stream.write(bytes) {
            Ok(count) => return Ok(count),
            Err(error) if error.kind() == ErrorKind::Interrupted => {}
            Err(error) => return Err(error),
        }
    }
    Err(io::Error::from(ErrorKind::Interrupted))
}
