ghost use Rattle.std.specs.Prelude.{◌≡◌, ◌≤◌, ◌<◌, ◌↔◌, [], ◌++◌, length, take, false, vec_len, IfOk, IsErr, OnOk, OnErr, Contains, ◌≢◌};
ghost use Rattle.gv_outside.specs.Count.{HasCause, one_more};
ghost use Rattle.gv_outside.specs.Sink.{Takes};

use crate::files::Failed;
use crate::sink::Sink;
use crate::sure_sink::SureSink;
use std::marker::Model;

/// A sink in memory, which fails at the calls whose numbers from 1 are listed.
#[derive(Drop)]
pub struct MemorySink {
    sink: SureSink,
    fails: Vec<u64>,
    calls: u64,
    faults: u64,
}

impl Model for MemorySink {
    ghost use Rattle.gv_outside.specs.MemorySinkView.{MemorySinkView};

    ghost Value = { MemorySinkView };

    ghost view = { λ s. record { sink = s.sink; fails = s.fails.items; calls = s.calls; faults = s.faults } };
}

impl MemorySink {
    /// An empty sink that stores the first `most` bytes.
    pub fn new(buffer: Vec<u8>, most: usize, fails: Vec<u64>) -> MemorySink
        requires { most ≤ vec_len buffer }
        ensures { result ≡ record { sink = record { stored = []; most = most; over = false }; fails = fails.items; calls = 0; faults = 0 } }
    {
        MemorySink {
            sink: SureSink::new(buffer, most),
            fails,
            calls: 0,
            faults: 0,
        }
    }

    /// The bytes stored.
    pub fn written(&self) -> &[u8]
        ensures { result.now ≡ self.now.sink.stored }
    {
        self.sink.written()
    }
}

impl Sink for MemorySink {
    ghost use Rattle.gv_outside.specs.MemorySinkView.{memory_told};

    ghost state = { memory_told };

    fn put(&mut self, piece: &[u8]) -> Result<usize, Failed>
        ensures fails { IsErr result ↔ ((piece.now ≢ []) × Contains self.old.fails (one_more self.old.calls)) }
        ensures all { IfOk result (λ count. count ≡ length piece.now) }
        ensures stored { OnOk result (self.new.sink.stored ≡ take self.old.sink.most (self.old.sink.stored ++ piece.now)) }
        ensures kept { OnErr result (self.new.sink ≡ self.old.sink) }
        ensures listed { self.new.fails ≡ self.old.fails }
        ensures counted { piece.now ≢ [] → self.new.calls ≡ one_more self.old.calls }
        ensures uncounted { piece.now ≡ [] → self.new.calls ≡ self.old.calls }
        ensures within { IfOk result (λ count. count ≤ length piece.now) }
        ensures progress { IfOk result (λ count. 0 < length piece.now → 0 < count) }
        ensures takes { IfOk result (λ count. Takes (memory_told self.old) (take count piece.now) (memory_told self.new)) }
        ensures err { OnErr result ((memory_told self.new).written ≡ (memory_told self.old).written) }
        ensures empty { piece.now ≡ [] → (result ≡ Ok 0) × (memory_told self.new ≡ memory_told self.old) }
        ensures cause { HasCause (memory_told self.old).faults (memory_told self.new).faults result }
    {
        if !piece.is_empty() {
            self.calls = self.calls.saturating_add(1);
            if self.fails.contains(&self.calls) {
                self.faults = self.faults.saturating_add(1);
                return Err(Failed);
            }
        }
        self.sink.put(piece)
    }
}
