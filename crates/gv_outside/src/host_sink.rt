ghost use Rattle.std.specs.Prelude.{◌≡◌, ◌<◌, ◌≤◌, None, length, IfOk};

use crate::files::Failed;
use crate::machine::{MOST_RETRIES, settled};
use crate::sink::Sink;
use std::io::Write;
use std::marker::Model;

/// A writer of the real machine as a sink. It tells no bytes.
#[derive(Drop)]
pub struct HostSink<W> {
    writer: W,
    faults: u64,
}

impl<W> Model for HostSink<W> {
    ghost use Rattle.std.specs.Prelude.{None};
    ghost use Rattle.gv_outside.specs.Sink.{SinkState};

    ghost Value = { SinkState };

    ghost view = { λ s. record { written = None; faults = s.faults } };
}

impl<W: Write> HostSink<W> {
    /// A sink over a writer, with no faults yet.
    pub fn new(writer: W) -> HostSink<W>
        ensures { result ≡ record { written = None; faults = 0 } }
    {
        HostSink { writer, faults: 0 }
    }

    /// How many calls failed.
    pub fn faults(&self) -> u64
        ensures { result ≡ self.now.faults }
    {
        self.faults
    }
}

impl<W: Write> Sink for HostSink<W> {
    ghost state = { λ sink. sink };

    fn put(&mut self, piece: &[u8]) -> Result<usize, Failed> {
        if piece.is_empty() {
            return Ok(0);
        }
        let written = write_through(&mut self.writer, piece);
        if written.is_err() {
            self.faults = self.faults.saturating_add(1);
        }
        written
    }
}

/// Writes some first bytes of a piece, which isn't empty, and flushes them.
fn write_through<W: Write>(writer: &mut W, piece: &[u8]) -> Result<usize, Failed>
    ensures within { IfOk result (λ count. count ≤ length piece.now) }
    ensures progress { IfOk result (λ count. 0 < count) }
{
    let count = write_some(writer, piece)?;
    if count == 0 {
        return Err(Failed);
    }
    flush(writer)?;
    Ok(count)
}

fn write_some<W: Write>(writer: &mut W, piece: &[u8]) -> Result<usize, Failed>
    ensures { IfOk result (λ count. count ≤ length piece.now) }
{
    for _ in 0..=MOST_RETRIES {
        if let Some(outcome) = settled(writer.write(piece)) {
            return outcome;
        }
    }
    Err(Failed)
}

fn flush<W: Write>(writer: &mut W) -> Result<(), Failed> {
    for _ in 0..=MOST_RETRIES {
        if let Some(outcome) = settled(writer.flush()) {
            return outcome;
        }
    }
    Err(Failed)
}
