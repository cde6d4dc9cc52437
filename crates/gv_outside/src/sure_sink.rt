ghost use Rattle.std.specs.Prelude.{◌≡◌, ◌+◌, ◌≤◌, [], ◌++◌, ◌||◌, nat_lt, length, take, Ok, false, vec_len, IfOk, OnErr, ◌<◌};
ghost use Rattle.gv_outside.specs.Count.{HasCause};
ghost use Rattle.gv_outside.specs.Sink.{Takes};

use crate::files::Failed;
use crate::sink::Sink;
use std::marker::Model;

/// A sink in memory, which stores the first bytes that it takes, and takes the rest unstored.
#[derive(Drop)]
pub struct SureSink {
    buffer: Vec<u8>,
    most: usize,
    kept: usize,
    over: bool,
}

impl Model for SureSink {
    ghost use Rattle.std.specs.Prelude.{◌≤◌, length, take};
    ghost use Rattle.gv_outside.specs.SinkView.{SinkView};

    ghost Value = { SinkView };

    ghost view = { λ s. record { stored = take s.kept s.buffer.items; most = s.most; over = s.over } };

    ghost invariant = { λ s. (s.kept ≤ s.most) × (s.most ≤ length s.buffer.items) };
}

impl SureSink {
    /// An empty sink that stores the first `most` bytes.
    pub fn new(buffer: Vec<u8>, most: usize) -> SureSink
        requires { most ≤ vec_len buffer }
        ensures { result ≡ record { stored = []; most = most; over = false } }
    {
        SureSink {
            buffer,
            most,
            kept: 0,
            over: false,
        }
    }

    /// The bytes stored.
    pub fn written(&self) -> &[u8]
        ensures { result.now ≡ self.now.stored }
    {
        &self.buffer[..self.kept]
    }

    /// Takes a piece whole.
    fn keep(&mut self, piece: &[u8])
        ensures stored { self.new.stored ≡ take self.old.most (self.old.stored ++ piece.now) }
        ensures most { self.new.most ≡ self.old.most }
        ensures short { length self.old.stored ≤ self.old.most }
        ensures over { self.new.over ≡ (self.old.over || nat_lt self.old.most (length self.old.stored + length piece.now)) }
    {
        let count = (self.most - self.kept).min(piece.len());
        store(self.buffer.as_mut_slice(), self.kept, &piece[..count]);
        self.kept += count;
        if count < piece.len() {
            self.over = true;
        }
    }
}

impl Sink for SureSink {
    ghost use Rattle.gv_outside.specs.SinkView.{told_of};

    ghost state = { told_of };

    fn put(&mut self, piece: &[u8]) -> Result<usize, Failed>
        ensures all { result ≡ Ok (length piece.now) }
        ensures stored { self.new.stored ≡ take self.old.most (self.old.stored ++ piece.now) }
        ensures most { self.new.most ≡ self.old.most }
        ensures within { IfOk result (λ count. count ≤ length piece.now) }
        ensures progress { IfOk result (λ count. 0 < length piece.now → 0 < count) }
        ensures takes { IfOk result (λ count. Takes (told_of self.old) (take count piece.now) (told_of self.new)) }
        ensures err { OnErr result ((told_of self.new).written ≡ (told_of self.old).written) }
        ensures empty { piece.now ≡ [] → (result ≡ Ok 0) × (told_of self.new ≡ told_of self.old) }
        ensures cause { HasCause (told_of self.old).faults (told_of self.new).faults result }
    {
        self.keep(piece);
        Ok(piece.len())
    }
}

/// Writes bytes into a buffer from a place on.
fn store(buffer: &mut [u8], at: usize, bytes: &[u8])
    requires { at + length bytes.now ≤ length buffer.old }
    ensures { take (at + length bytes.now) buffer.new ≡ take at buffer.old ++ bytes.now }
{
    buffer[at..at + bytes.len()].copy_from_slice(bytes);
}
