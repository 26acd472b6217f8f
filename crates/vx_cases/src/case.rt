//! A case: what a run is given, and what it is wanted to leave.

use crate::side::{Side, add_many, part};
use anyhow::{Context, Result, bail};
use std::alloc::{AllocError, Global};
use std::mem;
use vx_host::{MemoryFile, MemoryHost};

/// What a run is given, and what it is wanted to leave.
#[derive(Drop)]
pub struct Case {
    pub name: String,
    words: Option<Vec<String>>,
    files: Vec<MemoryFile>,
    read_fails: Vec<u64>,
    pub out: Side,
    pub err: Side,
    /// A case that wants no status is never met.
    pub status: Option<u8>,
    /// Whether the lines on out behind the first two may stand in any order.
    pub any_order: bool,
}

impl Case {
    /// A case without facts.
    pub fn new(alloc: Global, name: &str) -> Result<Case, AllocError> {
        Ok(Case {
            name: String::from_str(alloc, name)?,
            words: None,
            files: Vec::new(alloc),
            read_fails: Vec::new(alloc),
            out: Side::new(alloc),
            err: Side::new(alloc),
            status: None,
            any_order: false,
        })
    }

    /// Adds the fact that a line tells, its word and its rest.
    pub fn add(&mut self, alloc: Global, word: &str, rest: &str) -> Result<()> {
        if let Some(what) = word.strip_prefix("out") {
            return self.out.add(what, rest);
        }
        if let Some(what) = word.strip_prefix("err") {
            return self.err.add(what, rest);
        }
        match word {
            "word" => self.add_word(alloc, rest)?,
            "no-words" => self.words = Some(Vec::new(alloc)),
            "status" => self.status = Some(rest.parse::<u8>()?),
            "any-order" => self.any_order = true,
            _ => self.add_file_fact(alloc, word, rest)?,
        }
        Ok(())
    }

    fn add_word(&mut self, alloc: Global, word: &str) -> Result<(), AllocError> {
        let word = String::from_str(alloc, word)?;
        let mut words = self.words.take().unwrap_or(Vec::new(alloc));
        words.push(word)?;
        self.words = Some(words);
        Ok(())
    }

    fn add_file_fact(&mut self, alloc: Global, word: &str, rest: &str) -> Result<()> {
        let (name, text) = part(rest);
        match word {
            "file" => self.add_file(alloc, name, Vec::from_slice(alloc, text.as_bytes())?)?,
            "bytes" => self.add_file(alloc, name, hex::decode(alloc, text)?)?,
            "more" => self.add_more(rest)?,
            "read-fails" => self.read_fails.push(rest.parse::<u64>()?)?,
            _ => bail!("unknown word"),
        }
        Ok(())
    }

    fn add_file(&mut self, alloc: Global, name: &str, bytes: Vec<u8>) -> Result<(), AllocError> {
        let name = String::from_str(alloc, name)?;
        self.files.push(MemoryFile { name, bytes })?;
        Ok(())
    }

    /// Adds to the file that came last.
    fn add_more(&mut self, rest: &str) -> Result<()> {
        let mut file = self.files.pop().context("no file yet")?;
        add_many(&mut file.bytes, rest)?;
        self.files.push(file)?;
        Ok(())
    }

    /// The words of the run, which are moved out.
    pub fn words(&mut self, alloc: Global) -> Result<Vec<String>, AllocError> {
        if let Some(words) = self.words.take() {
            return Ok(words);
        }
        let program = String::from_str(alloc, "vxrun")?;
        let file = String::from_str(alloc, "p.json")?;
        Ok(vec![in alloc; program, file]?)
    }

    /// The host of the run. The files and what fails are moved into it.
    pub fn host(&mut self, alloc: Global) -> MemoryHost {
        let files = mem::replace(&mut self.files, Vec::new(alloc));
        let read_fails = mem::replace(&mut self.read_fails, Vec::new(alloc));
        let out = self.out.sink(alloc);
        let err = self.err.sink(alloc);
        MemoryHost::new(alloc, files, read_fails, out, err, Vec::new(alloc))
    }
}
