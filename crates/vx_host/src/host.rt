//! The outside of a run: the contract.
ghost use Rattle.std.specs.Prelude.{◌≡◌, ◌≤◌, length, Bool, true, IfOk, IfErr, OnErr};
ghost use Rattle.vx_base.specs.Causes.{HasCause};
ghost use Rattle.vx_host.specs.Views.{SinkView, FilesView};
ghost use Rattle.vx_host.specs.Sink.{Takes, StaysUnfailing};

use crate::error::{ReadError, SinkError};
use std::alloc::AllocError;
use vx_store::Store;

/// One of a host's two sinks.
#[derive(Clone, Copy, Debug, PartialEq, Eq)]
pub enum To {
    Output,
    Errors,
}

/// What a run reads from and writes to: files by name, two sinks, and a store for each job.
pub trait Host {
    ghost use Rattle.vx_host.specs.Host.{Stands, IsReadErrorOf, KeepsFiles, WritesOnly};
    ghost use Rattle.vx_host.specs.Stores.{IsFreshStore, IsSafeStore};
    ghost use Rattle.vx_host.specs.declared.host.To.{To as Place};

    /// The files, their faults, and whether a read is still to fail.
    ghost files: { Self → FilesView };

    /// The state of each sink.
    ghost sink: { Self → Place → SinkView };

    /// Whether no call of a store that it gives is to fail, and each such store tells its files.
    ghost stores_unfailing: { Self → Bool };

    /// The files that a job's query spills to.
    type Store: Store + Send + Drop;

    /// The bytes under a name, at most `limit` of them.
    fn read(&mut self, name: &str, limit: u64) -> Result<Vec<u8>, ReadError>
        ensures ok { IfOk result (λ bytes. Stands (files self.old) name.now bytes.items) }
        ensures within { IfOk result (λ bytes. length bytes.items ≤ limit) }
        ensures err { IfErr result (IsReadErrorOf (files self.old) name.now limit) }
        ensures cause { HasCause (λ e. e ≡ ReadError.Failed) (files self.old).faults (files self.new).faults result }
        ensures files { KeepsFiles (files self.old) (files self.new) }
        ensures sinks { (to : Place) → sink self.new to ≡ sink self.old to }
        ensures stores { stores_unfailing self.old ≡ true → stores_unfailing self.new ≡ true };

    /// A new store for a job, none of whose calls has failed.
    fn store(&mut self, job: u32) -> Result<Self::Store, AllocError>
        ensures fresh { IfOk result (λ store. IsFreshStore (Self.Store.state store)) }
        ensures unfailing { stores_unfailing self.old ≡ true → IfOk result (λ store. IsSafeStore (Self.Store.state store)) }
        ensures files { files self.new ≡ files self.old }
        ensures sinks { (to : Place) → sink self.new to ≡ sink self.old to }
        ensures stores { stores_unfailing self.old ≡ true → stores_unfailing self.new ≡ true };

    /// How many reads have failed; it stays at the last `u64`.
    fn read_faults(&self) -> u64
        ensures { result ≡ (files self.now).faults };

    /// Writes to one of the sinks, as `Sink::write` does.
    fn write(&mut self, to: To, piece: &[u8]) -> Result<usize, SinkError>
        ensures ok { IfOk result (Takes (sink self.old to) (sink self.new to) piece.now) }
        ensures err { OnErr result ((sink self.new to).taken ≡ (sink self.old to).taken) }
        ensures cause { HasCause (λ e. e ≡ SinkError.Failed) (sink self.old to).faults (sink self.new to).faults result }
        ensures wanted { HasCause (λ e. e ≡ SinkError.NoMemory) (sink self.old to).wants (sink self.new to).wants result }
        ensures unfailing { StaysUnfailing (sink self.old to) (sink self.new to) result }
        ensures others { WritesOnly files sink to self.old self.new }
        ensures stores { stores_unfailing self.old ≡ true → stores_unfailing self.new ≡ true };

    /// How many writes to that sink have failed; it stays at the last `u64`.
    fn sink_faults(&self, to: To) -> u64
        ensures { result ≡ (sink self.now to).faults };

    /// How many writes to that sink wanted memory; it stays at the last `u64`.
    fn sink_wants(&self, to: To) -> u64
        ensures { result ≡ (sink self.now to).wants };
}
