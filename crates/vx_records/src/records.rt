//! Numbered records of one length.
ghost use Rattle.std.specs.Prelude.{◌≡◌, ◌+◌, ◌^◌, ◌<◌, ◌≤◌, true, [], is_some, IfOk, IfSome, OnErr, length};
ghost use Rattle.vx_raw.specs.Region.{written};
ghost use Rattle.vx_records.specs.Record.{record_in, record_at, fresh, with_record, without_record, IsLive, AddsRecord, chunk_bytes};

use crate::frames::Frames;
use crate::heads::{
    HEAD, fill, flags, is_live, is_matched, link, link_of, mark, number_of, push, release,
};
use std::alloc::{AllocError, Global};
use std::marker::Model;

/// Numbered records of one length. The numbers of those that are erased are used again.
#[derive(Drop)]
pub struct Records {
    frames: Frames,
    free: u32,
}

impl Model for Records {
    ghost use Rattle.vx_records.specs.Record.{RecordsModel};
    ghost use Rattle.vx_records.specs.Head.{records_of, IsListed};

    ghost Value = { RecordsModel };

    ghost view = { λ r. records_of r.frames };

    ghost invariant = { λ r. IsListed r.frames r.free };
}

impl Records {
    /// No records, each to be of so many bytes, at most 4,088.
    pub fn new(alloc: Global, len: u32) -> Records
        requires { len + 8 ≤ 4096 }
        ensures { result ≡ record { len = len; records = [] } }
    {
        Records {
            frames: Frames::new(alloc, HEAD + len),
            free: 0,
        }
    }

    /// Adds a record with these bytes, and answers its number: one that is free, or the next where none is. A chunk
    /// is added where there is no room for the next. More than 16 gibibytes are not held: past that the answer is
    /// want of memory.
    pub fn add(&mut self, body: &[u8]) -> Result<u32, AllocError>
        requires { length body.now ≡ self.old.len }
        ensures ok { IfOk result (λ number. AddsRecord self.old self.new number (fresh body.now)) }
        ensures there { IfOk result (λ number. IsLive self.new number) }
        ensures err { OnErr result (self.new ≡ self.old) }
    {
        if self.free == 0 {
            return push(&mut self.frames, body);
        }
        let number = self.free - 1;
        self.free = link(&self.frames, number);
        fill(&mut self.frames, number, body);
        Ok(number)
    }

    /// Frees the number of a record.
    pub fn erase(&mut self, number: u32)
        requires { IsLive self.old number }
        ensures { self.new ≡ without_record self.old number }
    {
        release(&mut self.frames, number, self.free);
        self.free = number + 1;
    }

    /// Frees all numbers and chunks.
    pub fn clear(&mut self)
        ensures { self.new ≡ record { len = self.old.len; records = [] } }
    {
        self.frames.clear();
        self.free = 0;
    }

    /// The bytes of a record.
    #[inline]
    pub fn body(&self, number: u32) -> &[u8]
        requires { IsLive self.now number }
        ensures is { result.now ≡ (record_at self.now number).body }
        ensures len { length result.now ≡ self.now.len }
    {
        let _ = &self.free;
        self.frames.bytes(number, HEAD, self.frames.size() - HEAD)
    }

    /// Puts these bytes over those of a record.
    #[inline]
    pub fn write(&mut self, number: u32, at: u32, from: &[u8])
        requires live { IsLive self.old number }
        requires inside { at + length from.now ≤ self.old.len }
        ensures set { self.new ≡ with_record self.old number (record (record_at self.old number) { body = written (record_at self.old number).body at from.now }) }
        ensures there { IsLive self.new number }
    {
        let _ = &self.free;
        self.frames.put(number, HEAD + at, from);
    }

    /// The number that a record leads to.
    #[inline]
    pub fn next(&self, number: u32) -> Option<u32>
        requires { IsLive self.now number }
        ensures is { result ≡ (record_at self.now number).next }
        ensures fits { IfSome result (λ next. next + 1 < 2 ^ 32) }
    {
        let _ = &self.free;
        number_of(link(&self.frames, number))
    }

    /// Lets a record lead to this number, or to none.
    #[inline]
    pub fn set_next(&mut self, number: u32, next: Option<u32>)
        requires live { IsLive self.old number }
        requires fits { IfSome next (λ next. next + 1 < 2 ^ 32) }
        ensures set { self.new ≡ with_record self.old number (record (record_at self.old number) { next = next }) }
        ensures there { IsLive self.new number }
    {
        let _ = &self.free;
        self.frames.put(number, 0, &link_of(next).to_le_bytes());
    }

    /// Whether a record is matched.
    #[inline]
    pub fn matched(&self, number: u32) -> bool
        requires { IsLive self.now number }
        ensures { result ≡ (record_at self.now number).matched }
    {
        let _ = &self.free;
        is_matched(flags(&self.frames, number))
    }

    /// Marks a record as matched.
    #[inline]
    pub fn set_matched(&mut self, number: u32)
        requires { IsLive self.old number }
        ensures set { self.new ≡ with_record self.old number (record (record_at self.old number) { matched = true }) }
        ensures there { IsLive self.new number }
    {
        let _ = &self.free;
        mark(&mut self.frames, number);
    }

    /// Whether a record has this number.
    #[inline]
    pub fn is_live(&self, number: u32) -> bool
        ensures { result ≡ is_some (record_in self.now number) }
    {
        let _ = &self.free;
        if number >= self.frames.count() {
            return false;
        }
        is_live(flags(&self.frames, number))
    }

    /// How many numbers there are, free ones too.
    #[inline]
    pub fn numbers(&self) -> u32
        ensures is { result ≡ length self.now.records }
        ensures fits { result + 1 < 2 ^ 32 }
    {
        let _ = &self.free;
        self.frames.count()
    }

    /// How many bytes the chunks have together.
    pub fn held(&self) -> u64
        ensures { result ≡ chunk_bytes self.now.len (length self.now.records) }
    {
        let _ = &self.free;
        self.frames.held()
    }
}
