//! Places of one length in a region, by number.
ghost use Rattle.std.specs.Prelude.{◌≡◌, ◌+◌, ◌*◌, ◌^◌, ◌<◌, ◌≤◌, [], IfOk, OnOk, OnErr, length, take, drop, if◌then◌else◌};
ghost use Rattle.std.specs.Int.{div_ceil};
ghost use Rattle.vx_raw.specs.Region.{bytes_held, after_grow};
ghost use Rattle.vx_records.specs.Frame.{frame_at, per_chunk, place_of, with_bytes, AddsFrame};

use std::alloc::{AllocError, Global};
use std::marker::Model;
use vx_raw::{Place, Region};

/// How many bytes a chunk has.
const CHUNK: u32 = 4096;

/// How many bytes a region holds at most.
const MOST: u64 = 1 << 34;

/// So many bytes for each number.
#[derive(Drop)]
pub(crate) struct Frames {
    alloc: Global,
    region: Region,
    size: u32,
    per: u32,
    count: u32,
}

impl Model for Frames {
    ghost use Rattle.vx_records.specs.Frame.{FramesModel, seen_in, AreFrames};

    ghost Value = { FramesModel };

    ghost view = { λ f. seen_in f.size f.region f.count };

    ghost invariant = { λ f. AreFrames f.size f.per f.region f.count };
}

impl Frames {
    /// No frames, each to be of so many bytes.
    pub(crate) fn new(alloc: Global, size: u32) -> Frames
        requires least { 8 ≤ size }
        requires most { size ≤ 4096 }
        ensures { result ≡ record { size = size; frames = [] } }
    {
        Frames {
            alloc,
            region: Region::new(alloc),
            size,
            per: CHUNK / size,
            count: 0,
        }
    }

    /// How many bytes each frame has.
    #[inline]
    pub(crate) fn size(&self) -> u32
        ensures is { result ≡ self.now.size }
        ensures least { 8 ≤ result }
        ensures most { result ≤ 4096 }
    {
        self.size
    }

    /// How many frames there are.
    #[inline]
    pub(crate) fn count(&self) -> u32
        ensures is { result ≡ length self.now.frames }
        ensures most { result ≤ 2 ^ 31 }
    {
        self.count
    }

    /// How many bytes the chunks have together.
    pub(crate) fn held(&self) -> u64
        ensures { result ≡ 4096 * div_ceil (length self.now.frames) (per_chunk self.now.size) }
    {
        self.region.held()
    }

    /// Frees all chunks.
    pub(crate) fn clear(&mut self)
        ensures { self.new ≡ record { size = self.old.size; frames = [] } }
    {
        self.region = Region::new(self.alloc);
        self.count = 0;
    }

    /// Adds a frame, and a chunk where the last one is full, and answers its number. More than 16 gibibytes
    /// are not held.
    pub(crate) fn add(&mut self) -> Result<u32, AllocError>
        ensures number { IfOk result (λ number. number ≡ length self.old.frames) }
        ensures ok { IfOk result (λ _. AddsFrame self.old self.new) }
        ensures few { IfOk result (λ number. number < 2 ^ 31) }
        ensures err { OnErr result (self.new ≡ self.old) }
    {
        let number = self.count;
        let full = u64::from(number / self.per) * u64::from(CHUNK) == self.region.held();
        grow_where(&mut self.region, full)?;
        self.count += 1;
        Ok(number)
    }

    /// Lends so many bytes of a frame.
    #[inline]
    pub(crate) fn bytes(&self, number: u32, at: u32, len: u32) -> &[u8]
        requires there { number < length self.now.frames }
        requires inside { at + len ≤ self.now.size }
        ensures is { result.now ≡ take len (drop at (frame_at self.now number)) }
        ensures len { length result.now ≡ len }
    {
        let from = place(self.size, self.per, number);
        let start = Place {
            chunk: from.chunk,
            at: from.at + u64::from(at),
        };
        self.region.bytes(start, u64::from(len))
    }

    /// Puts these bytes over those of a frame.
    #[inline]
    pub(crate) fn put(&mut self, number: u32, at: u32, from: &[u8])
        requires there { number < length self.old.frames }
        requires inside { at + length from.now ≤ self.old.size }
        ensures { self.new ≡ with_bytes self.old number at from.now }
    {
        let to = place(self.size, self.per, number);
        let start = Place {
            chunk: to.chunk,
            at: to.at + u64::from(at),
        };
        self.region.write(start, from);
    }
}

/// Where a frame begins.
#[inline]
fn place(size: u32, per: u32, number: u32) -> Place
    requires some { 0 < per }
    requires per_is { per ≡ per_chunk size }
    ensures { result ≡ place_of size number }
{
    Place {
        chunk: number / per,
        at: u64::from(number % per) * u64::from(size),
    }
}

/// Adds a chunk of zeros where the last one is full. More than 16 gibibytes are not held.
fn grow_where(region: &mut Region, full: bool) -> Result<(), AllocError>
    requires held { bytes_held region.old ≡ 4096 * length region.old }
    requires few { length region.old ≤ 2 ^ 22 }
    ensures ok { OnOk result (region.new ≡ (if full then after_grow region.old 4096 else region.old)) }
    ensures few { OnOk result (length region.new ≤ 2 ^ 22) }
    ensures err { OnErr result (region.new ≡ region.old) }
{
    if !full {
        return Ok(());
    }
    if region.held() > MOST - u64::from(CHUNK) {
        return Err(AllocError);
    }
    region.grow(u64::from(CHUNK))?;
    Ok(())
}
