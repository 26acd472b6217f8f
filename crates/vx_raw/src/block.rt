//! A block of bytes behind a raw pointer. The functions here are the only ones that hold one.
//!
//! `allocate` takes a block from the allocator, `clear` makes its bytes zeros, `Bytes` lends them as a
//! slice, and `deallocate` gives the block back. Who may do so is a value: `Room` and `Bytes` own the
//! memory before and after it is written, and `Deed` is the right to give it back. None of the three
//! takes space or can be copied, and each is used up by the call that takes it.
ghost use Rattle.std.specs.Prelude.{◌≡◌, ℕ, ◌^◌, ◌<◌, List, length, replicate, IfOk, ⊤};
ghost use Rattle.std.specs.Borrow.{sem};
ghost use base.Fml.{ftrue};
ghost use denote.RawPtr.{Ptr};
ghost use Rattle.vx_raw.specs.Ownership.{bytes_type, room_own, bytes_own, bytes_lent};

use std::alloc::{AllocError, Allocator};
use std::marker::{Model, PhantomData, Send, Sync};
use std::slice;

/// Where a block begins. It owns nothing.
pub(crate) struct Start {
    at: *mut u8,
}

impl Clone for Start {
    ghost is_clone = { λ x y. y ≡ x };

    ghost is_infallible = { λ _. ⊤ };

    fn clone(&self) -> Result<Start, AllocError> {
        Ok(*self)
    }
}

impl Copy for Start {}

unsafe impl Send for Start {}

unsafe impl Sync for Start {}

/// The owner of memory that nothing was written to yet.
pub(crate) struct Room {
    ghost at: { Ptr },
    ghost len: { ℕ },
}

impl Model for Room {
    ghost also_owns = { λ r. room_own r.at r.len };
}

/// The owner of the bytes.
pub(crate) struct Bytes {
    ghost at: { Ptr },
    ghost bytes: { List ℕ },
}

impl Model for Bytes {
    ghost also_owns = { λ b. bytes_own b.at b.bytes };

    ghost also_shares = { λ b _ κ. bytes_lent b.at b.bytes κ };
}

unsafe impl Send for Bytes {}

unsafe impl Sync for Bytes {}

/// The right to give the block of `len` bytes at `at` back to `alloc`.
pub(crate) struct Deed<A: Allocator> {
    of: PhantomData<*const A>,
    ghost at: { Ptr },
    ghost len: { ℕ },
    ghost alloc: { A },
}

impl<A: Allocator> Model for Deed<A> {
    ghost also_owns = { λ d. A.dealloc_token d.alloc (bytes_type d.len) d.at };

    ghost also_shares = { λ _ _ _. ftrue };
}

unsafe impl<A: Allocator + Send> Send for Deed<A> {}

// A `&` to it holds nothing.
unsafe impl<A: Allocator> Sync for Deed<A> {}

/// A block that was taken, in which nothing was written yet.
pub(crate) struct Taken<A: Allocator> {
    pub(crate) start: Start,
    pub(crate) room: Room,
    pub(crate) deed: Deed<A>,
}

/// Takes a block of `len` bytes.
pub(crate) fn allocate<A: Allocator>(alloc: &A, len: usize) -> Result<Taken<A>, AllocError>
    requires { len < 2 ^ 63 }
    ensures { IfOk result (λ t. (t.room.at ≡ t.start.at) × (t.room.len ≡ len) × (t.deed.at ≡ t.start.at) × (t.deed.len ≡ len) × (t.deed.alloc ≡ alloc.now)) }
{
    match alloc.allocate(len, 1) {
        Ok(at) => Ok(Taken {
            start: Start { at },
            room: Room {},
            deed: Deed { of: PhantomData },
        }),
        Err(error) => Err(error),
    }
}

/// Makes each of the block's `len` bytes a zero.
pub(crate) fn clear(start: Start, len: usize, room: Room) -> Bytes
    requires { (room.at ≡ start.at) × (room.len ≡ len) }
    ensures { (result.at ≡ start.at) × (result.bytes ≡ replicate len 0) }
{
    let Room {} = room;
    let at = start.at;
    let mut done = 0;
    while done < len {
        unsafe {
            *at.add(done) = 0;
        }
        done += 1;
    }
    Bytes {}
}

/// Gives the block back.
pub(crate) fn deallocate<A: Allocator>(
    alloc: &A,
    start: Start,
    len: usize,
    bytes: Bytes,
    deed: Deed<A>,
)
    requires { (bytes.at ≡ start.at) × (length bytes.bytes ≡ len) × (deed.at ≡ start.at) × (deed.len ≡ len) × (deed.alloc ≡ alloc.now) }
{
    let Bytes {} = bytes;
    let Deed { of: _ } = deed;
    unsafe {
        alloc.deallocate(start.at, len, 1);
    }
}

impl Bytes {
    ghost use Rattle.vx_raw.specs.Lends.{lends_bytes};

    /// Lends the block's `len` bytes.
    #[inline]
    pub(crate) fn lend(&self, start: Start, len: usize) -> &[u8]
        requires { (start.at ≡ self.now.at) × (length self.now.bytes ≡ len) }
        ensures { result.now ≡ self.now.bytes }
    {
        unsafe { slice::from_raw_parts(start.at, len) }
    }

    /// Lends the block's `len` bytes to be written.
    #[inline]
    pub(crate) fn lend_mut(&mut self, start: Start, len: usize) -> &mut [u8]
        requires { (start.at ≡ self.old.at) × (length self.old.bytes ≡ len) }
        ensures* writes_back { sem 𝓛 (lends_bytes self.entry result) }
        ensures is { result.now ≡ self.old.bytes }
    {
        unsafe { slice::from_raw_parts_mut(start.at, len) }
    }
}
