//! What reports and complaints leave in the buffers of streams.

use crate::answers::{copied, unknown};
use crate::failure::Failure;
use crate::runner::Runner;
use crate::values::word;
use nextest_config_report::streams::{complain, write_report};
use std::io::{self, ErrorKind, Write};

// A stream that takes all bytes, and passes them on at a flush, unless that is interrupted.
#[derive(Clone, Copy)]
struct Buffered {
    has_bytes: bool,
    is_interrupted: bool,
}

impl Write for Buffered {
    fn write(&mut self, buf: &[u8]) -> io::Result<usize> {
        self.has_bytes = true;
        Ok(buf.len())
    }

    fn flush(&mut self) -> io::Result<()> {
        if self.is_interrupted {
            return Err(io::Error::from(ErrorKind::Interrupted));
        }
        self.has_bytes = false;
        Ok(())
    }
}

/// Whether its stream passes on a report or a complaint; a flush may be interrupted.
pub fn streams(rt: &Runner, call: &str, input: &str) -> Result<String, Failure> {
    let (what, flush) = word(call);
    let mut stream = Buffered {
        has_bytes: false,
        is_interrupted: flush == "interrupted",
    };
    rt.begin();
    let written = match what {
        "report" => write_report(&mut stream, input.as_bytes()),
        "complaint" => complain(&mut stream, "", input),
        _ => return unknown(rt, call),
    };
    rt.end();
    let told = match written {
        Ok(()) if stream.has_bytes => "kept back",
        Ok(()) => "passed on",
        Err(_) => "failed",
    };
    copied(rt, told)
}
