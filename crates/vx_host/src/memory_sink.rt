//! A sink in memory, which fails at listed calls.
ghost use Rattle.std.specs.Prelude.{◌≡◌, ◌≤◌, ◌↔◌, min, length, true, IfOk, OnErr, IsErrOf};
ghost use Rattle.vx_base.specs.Causes.{HasCause};
ghost use Rattle.vx_host.specs.Memory.{sink_view, new_sink, after_write, is_to_fail};
ghost use Rattle.vx_host.specs.Sink.{Takes, StaysUnfailing};

use crate::error::SinkError;
use crate::sink::Sink;
use std::alloc::{AllocError, Global};
use std::marker::Model;
use vx_store::Script;

/// A sink that keeps the bytes that it takes, and fails at listed calls.
#[derive(Drop)]
pub struct MemorySink {
    taken: Vec<u8>,
    most: u32,
    script: Script,
    wants: u64,
}

impl Model for MemorySink {
    ghost use Rattle.std.specs.Prelude.{◌≤◌};
    ghost use Rattle.vx_host.specs.Memory.{SinkMemory};

    ghost Value = { SinkMemory };

    ghost view = { λ s. record { taken = s.taken.items; most = s.most; fails = s.script.fails.items; calls = s.script.calls; faults = s.script.faults; wants = s.wants } };

    ghost invariant = { λ s. 1 ≤ s.most };
}

impl MemorySink {
    /// A sink that takes at most `most` bytes in a call. Its calls of `write` are numbered from 0, and
    /// those in `fails` fail.
    pub fn new(alloc: Global, most: u32, fails: Vec<u64>) -> MemorySink
        requires { 1 ≤ most }
        ensures { result ≡ new_sink most fails.items }
    {
        MemorySink {
            taken: Vec::new(alloc),
            most,
            script: Script::new(fails),
            wants: 0,
        }
    }

    /// The bytes that were taken so far.
    pub fn taken(&self) -> &[u8]
        ensures { result.now ≡ self.now.taken }
    {
        &self.taken
    }
}

impl Sink for MemorySink {
    ghost state = { sink_view };

    fn write(&mut self, piece: &[u8]) -> Result<usize, SinkError>
        ensures ok { IfOk result (Takes (sink_view self.old) (sink_view self.new) piece.now) }
        ensures err { OnErr result ((sink_view self.new).taken ≡ (sink_view self.old).taken) }
        ensures cause { HasCause (λ e. e ≡ SinkError.Failed) (sink_view self.old).faults (sink_view self.new).faults result }
        ensures wanted { HasCause (λ e. e ≡ SinkError.NoMemory) (sink_view self.old).wants (sink_view self.new).wants result }
        ensures unfailing { StaysUnfailing (sink_view self.old) (sink_view self.new) result }

        // It fails exactly at the listed calls, and else takes as much as it may.
        ensures failed { IsErrOf result SinkError.Failed ↔ (is_to_fail self.old.fails self.old.calls ≡ true) }
        ensures count { IfOk result (λ count. count ≡ min (length piece.now) self.old.most) }
        ensures after { self.new ≡ after_write self.old piece.now result }
    {
        if self.script.next_fails() {
            return Err(SinkError::Failed);
        }
        let count = piece.len().min(self.most as usize);
        match self.taken.extend_from_slice(&piece[..count]) {
            Ok(()) => Ok(count),
            Err(AllocError) => {
                self.wants = self.wants.saturating_add(1);
                Err(SinkError::NoMemory)
            }
        }
    }

    fn faults(&self) -> u64 {
        self.script.faults
    }

    fn wants(&self) -> u64 {
        self.wants
    }
}
