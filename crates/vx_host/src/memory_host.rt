//! A host in memory, which fails at listed reads.
ghost use Rattle.std.specs.Prelude.{◌≡◌, ◌≤◌, ◌↔◌, min, length, true, IfOk, IfErr, OnErr, IsErrOf};
ghost use Rattle.std.specs.Option.{option_copied};
ghost use Rattle.vx_base.specs.Causes.{HasCause};
ghost use Rattle.vx_host.specs.Files.{named};
ghost use Rattle.vx_host.specs.Host.{Stands, IsReadErrorOf, KeepsFiles, WritesOnly};
ghost use Rattle.vx_host.specs.Memory.{new_host, bytes_of, read_fails, after_read, after_write, is_to_fail, files_view, sink_at, sink_view_at, fails_of, no_store_fails};
ghost use Rattle.vx_host.specs.Stores.{IsFreshStore, IsSafeStore};
ghost use Rattle.vx_store.specs.Memory.{new_store, store_view};
ghost use Rattle.vx_host.specs.Sink.{Takes, StaysUnfailing};
ghost use Rattle.vx_host.specs.declared.host.To.{To as Place};

use crate::error::{ReadError, SinkError};
use crate::host::{Host, To};
use crate::memory_sink::MemorySink;
use crate::sink::Sink;
use std::alloc::{AllocError, Global};
use std::marker::Model;
use vx_store::{MemoryStore, Script};

/// A file of a `MemoryHost`.
#[derive(Debug, Drop)]
pub struct MemoryFile {
    pub name: String,
    pub bytes: Vec<u8>,
}

/// A call of a job's store that fails.
#[derive(Clone, Copy, Debug, PartialEq, Eq)]
pub struct StoreFail {
    pub job: u32,
    /// The number of the call, from 0 over all calls of that store.
    pub call: u64,
}

/// A host over files, sinks and stores in memory, which fails at listed reads.
#[derive(Drop)]
pub struct MemoryHost {
    alloc: Global,
    files: Vec<MemoryFile>,
    script: Script,
    out: MemorySink,
    err: MemorySink,
    store_fails: Vec<StoreFail>,
}

impl Model for MemoryHost {
    ghost use Rattle.vx_host.specs.Files.{named};
    ghost use Rattle.vx_host.specs.Memory.{HostMemory};

    ghost Value = { HostMemory };

    ghost view = { λ h. record { files = named h.files.items; fails = h.script.fails.items; reads = h.script.calls; faults = h.script.faults; out = h.out; err = h.err; store_fails = h.store_fails.items } };
}

impl MemoryHost {
    /// A host over these files; of two files of one name the first counts. Reads are numbered from 0, and
    /// those in `read_fails` fail. The store of a job fails at its calls in `store_fails`.
    pub fn new(
        alloc: Global,
        files: Vec<MemoryFile>,
        read_fails: Vec<u64>,
        out: MemorySink,
        err: MemorySink,
        store_fails: Vec<StoreFail>,
    ) -> MemoryHost
        ensures { result ≡ new_host (named files.items) read_fails.items out err store_fails.items }
    {
        MemoryHost {
            alloc,
            files,
            script: Script::new(read_fails),
            out,
            err,
            store_fails,
        }
    }

    /// The bytes that a sink has taken so far.
    pub fn taken(&self, to: To) -> &[u8]
        ensures { result.now ≡ (sink_at self.now to).taken }
    {
        match to {
            To::Output => self.out.taken(),
            To::Errors => self.err.taken(),
        }
    }
}

impl Host for MemoryHost {
    ghost files = { files_view };

    ghost sink = { sink_view_at };

    ghost stores_unfailing = { no_store_fails };

    type Store = MemoryStore;

    fn read(&mut self, name: &str, limit: u64) -> Result<Vec<u8>, ReadError>
        ensures ok { IfOk result (λ bytes. Stands (files_view self.old) name.now bytes.items) }
        ensures within { IfOk result (λ bytes. length bytes.items ≤ limit) }
        ensures err { IfErr result (IsReadErrorOf (files_view self.old) name.now limit) }
        ensures cause { HasCause (λ e. e ≡ ReadError.Failed) (files_view self.old).faults (files_view self.new).faults result }
        ensures files { KeepsFiles (files_view self.old) (files_view self.new) }
        ensures sinks { (to : Place) → sink_view_at self.new to ≡ sink_view_at self.old to }

        // It fails exactly at the listed reads, and at a name under which nothing stands.
        ensures stores { no_store_fails self.old ≡ true → no_store_fails self.new ≡ true }
        ensures failed { IsErrOf result ReadError.Failed ↔ (read_fails self.old name.now ≡ true) }
        ensures after { self.new ≡ after_read self.old result }
    {
        if self.script.next_fails() {
            return Err(ReadError::Failed);
        }
        let Some(bytes) = find_bytes(&self.files, name) else {
            self.script.note_fault();
            return Err(ReadError::Failed);
        };
        if bytes.len() as u64 > limit {
            return Err(ReadError::TooBig { at: limit });
        }
        Ok(Vec::from_slice(self.alloc, bytes)?)
    }

    fn read_faults(&self) -> u64 {
        self.script.faults
    }

    fn store(&mut self, job: u32) -> Result<MemoryStore, AllocError>
        ensures fresh { IfOk result (λ store. IsFreshStore (store_view store)) }
        ensures unfailing { no_store_fails self.old ≡ true → IfOk result (λ store. IsSafeStore (store_view store)) }
        ensures files { files_view self.new ≡ files_view self.old }
        ensures sinks { (to : Place) → sink_view_at self.new to ≡ sink_view_at self.old to }
        ensures stores { no_store_fails self.old ≡ true → no_store_fails self.new ≡ true }

        // It fails exactly at the job's listed calls.
        ensures store { IfOk result (λ store. store ≡ new_store (fails_of self.old.store_fails job)) }
        ensures after { self.new ≡ self.old }
    {
        let fails = fails_of(self.alloc, &self.store_fails, job)?;
        Ok(MemoryStore::new(self.alloc, fails))
    }

    fn write(&mut self, to: To, piece: &[u8]) -> Result<usize, SinkError>
        ensures ok { IfOk result (Takes (sink_view_at self.old to) (sink_view_at self.new to) piece.now) }
        ensures err { OnErr result ((sink_view_at self.new to).taken ≡ (sink_view_at self.old to).taken) }
        ensures cause { HasCause (λ e. e ≡ SinkError.Failed) (sink_view_at self.old to).faults (sink_view_at self.new to).faults result }
        ensures wanted { HasCause (λ e. e ≡ SinkError.NoMemory) (sink_view_at self.old to).wants (sink_view_at self.new to).wants result }
        ensures unfailing { StaysUnfailing (sink_view_at self.old to) (sink_view_at self.new to) result }
        ensures others { WritesOnly files_view sink_view_at to self.old self.new }

        ensures stores { no_store_fails self.old ≡ true → no_store_fails self.new ≡ true }

        // It fails exactly at the sink's listed calls, and else the sink takes as much as it may.
        ensures failed { IsErrOf result SinkError.Failed ↔ (is_to_fail (sink_at self.old to).fails (sink_at self.old to).calls ≡ true) }
        ensures count { IfOk result (λ count. count ≡ min (length piece.now) (sink_at self.old to).most) }
        ensures after { sink_at self.new to ≡ after_write (sink_at self.old to) piece.now result }
    {
        match to {
            To::Output => self.out.write(piece),
            To::Errors => self.err.write(piece),
        }
    }

    fn sink_faults(&self, to: To) -> u64 {
        match to {
            To::Output => self.out.faults(),
            To::Errors => self.err.faults(),
        }
    }

    fn sink_wants(&self, to: To) -> u64 {
        match to {
            To::Output => self.out.wants(),
            To::Errors => self.err.wants(),
        }
    }
}

// The bytes of the first file of that name.
fn find_bytes<'a>(files: &'a [MemoryFile], name: &str) -> Option<&'a [u8]>
    ensures { option_copied result ≡ bytes_of (named files.now) name.now }
{
    for file in files {
        if file.name.as_str() == name {
            return Some(&file.bytes);
        }
    }
    None
}

// The calls of a job's store that fail.
fn fails_of(alloc: Global, fails: &[StoreFail], job: u32) -> Result<Vec<u64>, AllocError>
    ensures { IfOk result (λ calls. calls.items ≡ fails_of fails.now job) }
{
    let of_job = fails.iter().filter(|fail| fail.job == job);
    of_job.map(|fail| fail.call).collect(alloc)
}
