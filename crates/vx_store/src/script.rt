//! Calls that are to fail, counted as they come.
ghost use Rattle.std.specs.Prelude.{◌≡◌, ◌≤◌, true, false, cond};
ghost use Rattle.vx_base.specs.Calls.{none_to_fail};
ghost use Rattle.vx_store.specs.Script.{counted, is_to_fail};

/// The calls of an object in memory: the numbers of those that fail, how many were made, and how many failed.
///
/// Calls are numbered from 0. Both counts stay at the last `u64`.
#[derive(Drop)]
pub struct Script {
    pub fails: Vec<u64>,
    pub calls: u64,
    pub faults: u64,
}

impl Script {
    pub fn new(fails: Vec<u64>) -> Script
        ensures { result ≡ record { fails = fails; calls = 0; faults = 0 } }
    {
        Script {
            fails,
            calls: 0,
            faults: 0,
        }
    }

    /// Counts a call, and its fault if it is one of those that fail.
    #[tactic(auto, using(crate::proofs::Scripts::none_is_later, crate::proofs::Scripts::next_is_fine))]
    pub fn next_fails(&mut self) -> bool
        ensures is { result ≡ is_to_fail self.old.fails.items self.old.calls }
        ensures fails { self.new.fails ≡ self.old.fails }
        ensures calls { self.new.calls ≡ counted self.old.calls }
        ensures faults { self.new.faults ≡ cond result (counted self.old.faults) self.old.faults }
        ensures grows { self.old.faults ≤ self.new.faults }

        // What has no call that is still to fail doesn't fail, and has none afterwards.
        ensures fine { none_to_fail self.old.fails.items self.old.calls ≡ true → result ≡ false }
        ensures later { none_to_fail self.old.fails.items self.old.calls ≡ true → none_to_fail self.new.fails.items self.new.calls ≡ true }
    {
        let fails_now = is_listed(&self.fails, self.calls);
        self.calls = self.calls.saturating_add(1);
        if fails_now {
            self.note_fault();
        }
        fails_now
    }

    /// Counts a fault.
    pub fn note_fault(&mut self)
        ensures after { self.new ≡ record self.old { faults = counted self.old.faults } }
        ensures grows { self.old.faults ≤ self.new.faults }
    {
        self.faults = self.faults.saturating_add(1);
    }
}

fn is_listed(fails: &[u64], call: u64) -> bool
    ensures { result ≡ is_to_fail fails.now call }
{
    fails.contains(&call)
}
