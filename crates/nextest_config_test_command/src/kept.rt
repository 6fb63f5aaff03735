//! Streams in memory, which say whether a call of them has failed, and runs of the command over
//! them, with what `serve` promises there as one contract.

ghost use Rattle.std.specs.Prelude.{◌≡◌, false, IsTrue, Some};
ghost use Rattle.nextest_config_test_command.specs.Kept.{IsDoneOrSaysWhy};

use crate::memory::MemoryFiles;
use nextest_config_command::{Files, Request, serve};
use nextest_config_report::streams::Stream;
use std::alloc::Global;
use std::io;

/// A stream that keeps what it takes. A call of it fails where it is refused memory.
#[derive(Debug, Drop)]
pub struct KeptStream {
    pub bytes: Vec<u8>,
    pub has_failed: bool,
}

impl Stream for KeptStream {
    ghost contents = { λ stream. Some stream.bytes.items };

    ghost may_have_failed = { λ stream. IsTrue stream.has_failed };

    ghost reader_may_be_gone = { λ stream. IsTrue stream.has_failed };

    fn write(&mut self, bytes: &[u8]) -> io::Result<usize> {
        match self.bytes.extend_from_slice(bytes) {
            Ok(()) => Ok(bytes.len()),
            Err(error) => {
                self.has_failed = true;
                Err(io::Error::from(error))
            }
        }
    }

    fn flush(&mut self) -> io::Result<()> {
        Ok(())
    }
}

/// Does what is asked for over files and streams in memory. Where no call of these has failed, all
/// of it is told; or status 3 comes with the whole line that says why, and nothing written.
pub fn serve_kept(
    alloc: Global,
    request: &Request,
    files: &MemoryFiles,
    writer: &mut KeptStream,
    faults: &mut KeptStream,
) -> u8
    ensures { writer.new.has_failed ≡ false → faults.new.has_failed ≡ false
        → IsDoneOrSaysWhy (⟦<MemoryFiles as Files>⟧.holds files.now) request.now result
        writer.old.bytes.items writer.new.bytes.items
        faults.old.bytes.items faults.new.bytes.items }
{
    serve(alloc, request, files, writer, faults)
}
