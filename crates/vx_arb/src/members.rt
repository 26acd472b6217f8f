//! What the arbitrator asks of a query.
ghost use Rattle.std.specs.Prelude.{◌≡◌, ◌+◌, ◌-◌, ◌^◌, ◌<◌, ◌≤◌, true, false, IfSome};
ghost use Rattle.vx_arb.specs.Members.{IsWithin, IsLackOf, OnShort, lack_of, is_end};

use crate::AbortNote;
use vx_account::Names;
use vx_pool::Share;

/// A step that can't be made: the leaf's reservation would lift the root's reserved amount past the
/// capacity, by `need` bytes.
#[derive(Clone, Copy, Debug, PartialEq, Eq)]
pub struct Lack {
    /// The leaf of the pool tree in which room is wanted.
    pub leaf: u32,
    pub need: u64,
    pub capacity: u64,
    pub reserved: u64,
    pub would: u64,
}

/// What a step was.
#[derive(Clone, Copy, Debug, PartialEq, Eq)]
pub enum Move {
    Moved,
    /// The member has ended, in this step or before it.
    Ended,
    Short(Lack),
}

/// A query, as far as its capacity is concerned.
///
/// The ghost members are the numbers that it stands for at a moment, and for each call a relation
/// between the member before it and after it, which says all that the member promises of the call.
pub trait Member<L: Names> {
    ghost use Rattle.std.specs.Prelude.{ℕ, Bool, Option};
    ghost use Rattle.vx_arb.specs.declared.members.Lack.{Lack};
    ghost use Rattle.vx_arb.specs.declared.members.Move.{Move};
    ghost use Rattle.vx_arb.specs.declared.entries.AbortNote.{AbortNote};

    ghost job_is: { Self → ℕ };

    ghost capacity_is: { Self → ℕ };

    ghost reserved_is: { Self → ℕ };

    ghost unused_is: { Self → ℕ };

    ghost reclaimable_is: { Self → ℕ };

    ghost ended_is: { Self → Bool };

    /// What a step under a hint would lack.
    ghost lack_is: { Self → ℕ → Option Lack };

    // Member before, what the call was given, what it answered, member after.
    ghost steps: { Self → ℕ → Move → Self → Type 0 };

    ghost reclaims: { Self → ℕ → ℕ → Self → Type 0 };

    ghost raises: { Self → ℕ → Self → Type 0 };

    ghost lowers: { Self → ℕ → Self → Type 0 };

    ghost aborts: { Self → AbortNote → Self → Type 0 };

    ghost wants: { Self → Self → Type 0 };

    fn job(&self) -> u32
        ensures is { result ≡ job_is self.now }
        ensures rule { IsWithin (capacity_is self.now) (reserved_is self.now) (unused_is self.now) };

    fn capacity(&self) -> u64
        ensures is { result ≡ capacity_is self.now }
        ensures rule { IsWithin (capacity_is self.now) (reserved_is self.now) (unused_is self.now) };

    /// The root's reserved amount.
    fn reserved(&self) -> u64
        ensures is { result ≡ reserved_is self.now }
        ensures rule { IsWithin (capacity_is self.now) (reserved_is self.now) (unused_is self.now) };

    /// The capacity that isn't reserved.
    fn unused(&self) -> u64
        ensures is { result ≡ unused_is self.now }
        ensures rule { IsWithin (capacity_is self.now) (reserved_is self.now) (unused_is self.now) };

    /// The bytes that a reclaim could still free.
    fn reclaimable(&self) -> u64
        ensures { result ≡ reclaimable_is self.now };

    fn ended(&self) -> bool
        ensures { result ≡ ended_is self.now };

    /// What the step that a hint picks would lack.
    fn lack(&self, hint: u32) -> Option<Lack>
        ensures is { result ≡ lack_is self.now hint }
        ensures numbers { IfSome result (IsLackOf (capacity_is self.now) (reserved_is self.now)) };

    /// Makes the one step that a hint picks.
    fn step(&mut self, hint: u32) -> Move
        ensures step { steps self.old hint result self.new }

        // Short comes exactly where a lack is, with its numbers, and then nothing has changed.
        ensures lack { lack_of result ≡ lack_is self.old hint }
        ensures short { OnShort result (self.new ≡ self.old) }
        ensures ended { is_end result ≡ ended_is self.new }

        // One that had ended before stays as it was.
        ensures over { ended_is self.old ≡ true → self.new ≡ self.old }

        ensures job { job_is self.new ≡ job_is self.old }
        ensures capacity { capacity_is self.new ≡ capacity_is self.old }
        ensures rule { IsWithin (capacity_is self.new) (reserved_is self.new) (unused_is self.new) };

    /// Gives back reserved memory until `want` bytes are free or nothing can be reclaimed, and answers by
    /// how much the reserved amount fell.
    fn reclaim(&mut self, want: u64) -> u64
        ensures reclaim { reclaims self.old want result self.new }
        ensures freed { reserved_is self.new + result ≡ reserved_is self.old }

        // Unless it has ended, what was wanted is free or nothing is left to reclaim, and where nothing
        // was freed nothing has changed.
        ensures enough { ended_is self.new ≡ false → result < want → reclaimable_is self.new ≡ 0 }
        ensures nothing { ended_is self.new ≡ false → result ≡ 0 → self.new ≡ self.old }

        // A reclaim may end it, but it doesn't go on after its end.
        ensures over { ended_is self.old ≡ true → ended_is self.new ≡ true }

        ensures job { job_is self.new ≡ job_is self.old }
        ensures capacity { capacity_is self.new ≡ capacity_is self.old }
        ensures rule { IsWithin (capacity_is self.new) (reserved_is self.new) (unused_is self.new) };

    /// Adds a share to the capacity.
    fn raise(&mut self, share: Share<L>)
        requires { capacity_is self.old + share ≤ 2 ^ 33 }
        ensures raise { raises self.old share self.new }
        ensures job { job_is self.new ≡ job_is self.old }
        ensures capacity { capacity_is self.new ≡ capacity_is self.old + share }
        ensures reserved { reserved_is self.new ≡ reserved_is self.old }
        ensures ended { ended_is self.new ≡ ended_is self.old }
        ensures rule { IsWithin (capacity_is self.new) (reserved_is self.new) (unused_is self.new) };

    /// Takes a share of `bytes` out of the capacity.
    fn lower(&mut self, bytes: u64) -> Share<L>
        requires { bytes ≤ unused_is self.old }
        ensures lower { lowers self.old bytes self.new }
        ensures share { result ≡ bytes }
        ensures job { job_is self.new ≡ job_is self.old }
        ensures capacity { capacity_is self.new ≡ capacity_is self.old - bytes }
        ensures reserved { reserved_is self.new ≡ reserved_is self.old }
        ensures ended { ended_is self.new ≡ ended_is self.old }
        ensures rule { IsWithin (capacity_is self.new) (reserved_is self.new) (unused_is self.new) };

    /// Ends the member for want of capacity, and answers its whole capacity.
    fn abort(&mut self, note: AbortNote) -> Share<L>
        requires going { ended_is self.old ≡ false }
        requires own { note.job ≡ job_is self.old }
        ensures abort { aborts self.old note self.new }
        ensures share { result ≡ capacity_is self.old }
        ensures job { job_is self.new ≡ job_is self.old }
        ensures capacity { capacity_is self.new ≡ 0 }
        ensures ended { ended_is self.new ≡ true }
        ensures rule { IsWithin (capacity_is self.new) (reserved_is self.new) (unused_is self.new) };

    /// Ends the member for want of memory. Its capacity stays.
    fn want(&mut self)
        requires { ended_is self.old ≡ false }
        ensures want { wants self.old self.new }
        ensures job { job_is self.new ≡ job_is self.old }
        ensures capacity { capacity_is self.new ≡ capacity_is self.old }
        ensures reserved { reserved_is self.new ≡ 0 }
        ensures ended { ended_is self.new ≡ true }
        ensures rule { IsWithin (capacity_is self.new) (reserved_is self.new) (unused_is self.new) };
}
