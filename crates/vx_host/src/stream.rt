//! A writer of std's as a sink.
ghost use Rattle.std.specs.Prelude.{◌≡◌, ◌<◌, ◌≤◌, ◌↔◌, length, IfOk, OnErr};
ghost use Rattle.std.specs.Io.KnownBytes.{WriteAppends};
ghost use Rattle.std.specs.IoError.{error_kind};
ghost use Rattle.vx_base.specs.Causes.{HasCause};
ghost use Rattle.vx_host.specs.Reading.{faults_after_write, wants_after_write};
ghost use Rattle.vx_host.specs.Real.{stream_view};
ghost use Rattle.vx_host.specs.Sink.{Takes, StaysUnfailing};

use crate::error::SinkError;
use crate::sink::Sink;
use std::io;
use std::io::ErrorKind;

/// A writer as a sink. It tells its counts alone.
#[derive(Drop)]
pub(crate) struct Stream<W> {
    pub(crate) writer: W,
    pub(crate) faults: u64,
    pub(crate) wants: u64,
}

impl<W: io::Write> Sink for Stream<W> {
    ghost state = { stream_view };

    fn write(&mut self, piece: &[u8]) -> Result<usize, SinkError>
        ensures ok { IfOk result (Takes (stream_view self.old) (stream_view self.new) piece.now) }
        ensures err { OnErr result ((stream_view self.new).taken ≡ (stream_view self.old).taken) }
        ensures cause { HasCause (λ e. e ≡ SinkError.Failed) (stream_view self.old).faults (stream_view self.new).faults result }
        ensures wanted { HasCause (λ e. e ≡ SinkError.NoMemory) (stream_view self.old).wants (stream_view self.new).wants result }
        ensures unfailing { StaysUnfailing (stream_view self.old) (stream_view self.new) result }

        // The writer took exactly the bytes that were answered. A fault is counted at a failure alone, and a want at
        // want of memory alone.
        ensures bytes { WriteAppends (W.contents self.old.writer) (W.contents self.new.writer) result piece.now }
        ensures faults { self.new.faults ≡ faults_after_write self.old.faults result }
        ensures wants { self.new.wants ≡ wants_after_write self.old.wants result }
    {
        match write_some(&mut self.writer, piece) {
            Ok(count) => Ok(count),
            Err(SinkError::NoMemory) => {
                self.wants = self.wants.saturating_add(1);
                Err(SinkError::NoMemory)
            }
            Err(SinkError::Failed) => {
                self.faults = self.faults.saturating_add(1);
                Err(SinkError::Failed)
            }
        }
    }

    fn faults(&self) -> u64 {
        self.faults
    }

    fn wants(&self) -> u64 {
        self.wants
    }
}

// One write that takes a byte where there is one. It is tried again where a signal interrupted it.
fn write_some<W: io::Write>(writer: &mut W, piece: &[u8]) -> Result<usize, SinkError>
    ensures within { IfOk result (λ count. count ≤ length piece.now) }
    ensures some { IfOk result (λ count. 0 < length piece.now → 0 < count) }
    ensures bytes { WriteAppends (W.contents writer.old) (W.contents writer.new) result piece.now }
{
    for _ in 0..u64::MAX {
        match writer.write(piece) {
            Ok(count) => {
                if count == 0 && !piece.is_empty() {
                    return Err(SinkError::Failed);
                }
                return Ok(count);
            }
            Err(error) => {
                if error.kind() != ErrorKind::Interrupted {
                    return Err(sink_error(&error));
                }
            }
        }
    }
    Err(SinkError::Failed)
}

fn sink_error(error: &io::Error) -> SinkError
    ensures { (result ≡ SinkError.NoMemory) ↔ (error_kind error.now ≡ ErrorKind.OutOfMemory) }
{
    if error.kind() == ErrorKind::OutOfMemory {
        SinkError::NoMemory
    } else {
        SinkError::Failed
    }
}
