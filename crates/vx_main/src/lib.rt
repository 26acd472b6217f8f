//! What `main` of `vxrun` does: the top call over the process's words, real files and the standard streams. It is a
//! library so that several programs, each a stored run of its own, are one body.
#![tactic(auto)]

ghost use Rattle.std.specs.Prelude.{◌≡◌, IfOk, IfErr, IsErr};
ghost use Rattle.std.specs.IoError.{error_kind};
ghost use Rattle.std.specs.Vec.Iter.{into_iter_items};
ghost use Rattle.vx_main.specs.Arguments.{words_in};

use std::alloc::{AllocError, Global};
use std::env::Args;
use std::io::ErrorKind;
use std::process::ExitCode;
use std::sync::Wait;
use std::thread::Threads;
use std::{env, io};
use vx_engine::{NO_MEMORY, vxrun};
use vx_host::{FreeGate, RealHost};

/// Runs `vxrun` on the process's words, and answers its status. `main` hands in its runtime twice: only there it
/// is also a handle to threads.
pub fn run<R: Threads + Wait + Sync>(rt: &HostRuntime, threads: &R) -> ExitCode {
    let alloc = rt.alloc();
    let Ok(words) = words_of(alloc, env::args(rt)) else {
        let _ = eprint!(rt; "vxrun: out of memory\n");
        return ExitCode::from(NO_MEMORY);
    };
    let mut host = RealHost::new(alloc, rt, rt.stdout(), rt.stderr());
    ExitCode::from(vxrun(threads, alloc, words.as_slice(), &mut host, &FreeGate))
}

/// The words that were read, and none where one of them is no text: then the words are bad.
fn words_of(alloc: Global, read: io::Result<Args>) -> Result<Vec<String>, AllocError>
    ensures words { IfOk result (λ words. words.items ≡ words_in read) }
    ensures memory { IfErr read (λ e. error_kind e ≡ ErrorKind.OutOfMemory → IsErr result) }
{
    match read {
        Ok(words) => gathered(alloc, words),
        Err(error) => match error.kind() {
            ErrorKind::OutOfMemory => Err(AllocError),
            _ => Ok(Vec::new(alloc)),
        },
    }
}

fn gathered(alloc: Global, words: Args) -> Result<Vec<String>, AllocError>
    ensures { IfOk result (λ all. all.items ≡ into_iter_items words) }
{
    let mut all = Vec::new(alloc);
    let mut rest = words;
    while let Some(word) = rest.next() {
        all.push(word)?;
    }
    Ok(all)
}
