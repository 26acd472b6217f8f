//! A host over real files and two writers.
ghost use Rattle.std.specs.Prelude.{◌≡◌, ◌≤◌, length, true, false, IfOk, IfErr, OnErr};
ghost use Rattle.std.specs.Io.KnownBytes.{WriteAppends};
ghost use Rattle.vx_base.specs.Causes.{HasCause};
ghost use Rattle.vx_host.specs.Host.{other, Stands, IsReadErrorOf, KeepsFiles, WritesOnly};
ghost use Rattle.vx_host.specs.Reading.{faults_after_read, faults_after_write, wants_after_write};
ghost use Rattle.vx_host.specs.Real.{real_files, real_sink, written, IsFresh};
ghost use Rattle.vx_host.specs.Sink.{Takes, StaysUnfailing};
ghost use Rattle.vx_host.specs.Stores.{IsFreshStore, IsSafeStore};
ghost use Rattle.vx_store.specs.Folder.{folder_view};
ghost use Rattle.vx_host.specs.declared.host.To.{To as Place};

use crate::error::{ReadError, SinkError};
use crate::host::{Host, To};
use crate::reading::read_file;
use crate::sink::Sink;
use crate::stream::Stream;
use std::alloc::{AllocError, Global};
use std::io;
use std::rt::Files;
use vx_store::FolderStore;

/// A host over real files and two writers, as standard output and standard error.
///
/// A name is a path. Directories and names that aren't there are failures.
#[derive(Drop)]
pub struct RealHost<F, O, E> {
    alloc: Global,
    files: F,
    faults: u64,
    out: Stream<O>,
    err: Stream<E>,
}

impl<F: Files + Drop, O: io::Write + Drop, E: io::Write + Drop> RealHost<F, O, E> {
    /// A host over these files and writers, none of which has failed.
    pub fn new(alloc: Global, files: F, out: O, err: E) -> RealHost<F, O, E>
        ensures fresh { IsFresh result }
        ensures output { written O.contents E.contents result To.Output ≡ O.contents out }
        ensures errors { written O.contents E.contents result To.Errors ≡ E.contents err }
    {
        RealHost {
            alloc,
            files,
            faults: 0,
            out: Stream {
                writer: out,
                faults: 0,
                wants: 0,
            },
            err: Stream {
                writer: err,
                faults: 0,
                wants: 0,
            },
        }
    }

    /// The two writers.
    pub fn into_writers(self) -> (O, E)
        ensures output { O.contents result.0 ≡ written O.contents E.contents self To.Output }
        ensures errors { E.contents result.1 ≡ written O.contents E.contents self To.Errors }
    {
        (self.out.writer, self.err.writer)
    }
}

impl<F: Files + Copy + Send + Drop, O: io::Write, E: io::Write> Host for RealHost<F, O, E> {
    ghost files = { real_files };

    ghost sink = { real_sink };

    ghost stores_unfailing = { λ _. false };

    type Store = FolderStore<F>;

    fn read(&mut self, name: &str, limit: u64) -> Result<Vec<u8>, ReadError>
        ensures ok { IfOk result (λ bytes. Stands (real_files self.old) name.now bytes.items) }
        ensures within { IfOk result (λ bytes. length bytes.items ≤ limit) }
        ensures err { IfErr result (IsReadErrorOf (real_files self.old) name.now limit) }
        ensures cause { HasCause (λ e. e ≡ ReadError.Failed) (real_files self.old).faults (real_files self.new).faults result }
        ensures files { KeepsFiles (real_files self.old) (real_files self.new) }
        ensures sinks { (to : Place) → real_sink self.new to ≡ real_sink self.old to }

        // A fault is counted at a failure alone, and nothing is written.
        ensures written { (to : Place) → written O.contents E.contents self.new to ≡ written O.contents E.contents self.old to }
        ensures faults { (real_files self.new).faults ≡ faults_after_read (real_files self.old).faults result }
    {
        match read_file(self.alloc, &self.files, name, limit) {
            Ok(bytes) => Ok(bytes),
            Err(ReadError::TooBig { at }) => Err(ReadError::TooBig { at }),
            Err(ReadError::NoMemory) => Err(ReadError::NoMemory),
            Err(ReadError::Failed) => {
                self.faults = self.faults.saturating_add(1);
                Err(ReadError::Failed)
            }
        }
    }

    fn store(&mut self, job: u32) -> Result<FolderStore<F>, AllocError>
        ensures fresh { IfOk result (λ store. IsFreshStore (folder_view store.next store.faults)) }
        ensures unfailing { false ≡ true → IfOk result (λ store. IsSafeStore (folder_view store.next store.faults)) }
        ensures files { real_files self.new ≡ real_files self.old }
        ensures sinks { (to : Place) → real_sink self.new to ≡ real_sink self.old to }
        ensures stores { false ≡ true → false ≡ true }

        // It is that job's, and nothing of the host changes.
        ensures job { IfOk result (λ store. store.job ≡ job) }
        ensures after { self.new ≡ self.old }
    {
        Ok(FolderStore::new(self.alloc, self.files, job))
    }

    fn read_faults(&self) -> u64 {
        self.faults
    }

    fn write(&mut self, to: To, piece: &[u8]) -> Result<usize, SinkError>
        ensures ok { IfOk result (Takes (real_sink self.old to) (real_sink self.new to) piece.now) }
        ensures err { OnErr result ((real_sink self.new to).taken ≡ (real_sink self.old to).taken) }
        ensures cause { HasCause (λ e. e ≡ SinkError.Failed) (real_sink self.old to).faults (real_sink self.new to).faults result }
        ensures wanted { HasCause (λ e. e ≡ SinkError.NoMemory) (real_sink self.old to).wants (real_sink self.new to).wants result }
        ensures unfailing { StaysUnfailing (real_sink self.old to) (real_sink self.new to) result }
        ensures others { WritesOnly real_files real_sink to self.old self.new }

        // The sink's writer took exactly the bytes that were answered, the other one none.
        ensures written { WriteAppends (written O.contents E.contents self.old to) (written O.contents E.contents self.new to) result piece.now }
        ensures other { written O.contents E.contents self.new (other to) ≡ written O.contents E.contents self.old (other to) }
        ensures faults { (real_sink self.new to).faults ≡ faults_after_write (real_sink self.old to).faults result }
        ensures wants { (real_sink self.new to).wants ≡ wants_after_write (real_sink self.old to).wants result }
    {
        match to {
            To::Output => self.out.write(piece),
            To::Errors => self.err.write(piece),
        }
    }

    fn sink_faults(&self, to: To) -> u64 {
        match to {
            To::Output => self.out.faults(),
            To::Errors => self.err.faults(),
        }
    }

    fn sink_wants(&self, to: To) -> u64 {
        match to {
            To::Output => self.out.wants(),
            To::Errors => self.err.wants(),
        }
    }
}
