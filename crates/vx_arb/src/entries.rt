//! What the log says: one entry for each change of a job's capacity.
ghost use Rattle.std.specs.Prelude.{◌≡◌};

use std::marker::Model;

/// Why no request of the job could be met: the job's own max, or the total of all.
#[derive(Clone, Copy, Debug, PartialEq, Eq)]
pub enum NoteCause {
    Total,
    Own,
}

/// What an aborted job is told, and what the log keeps of it. Amounts are bytes.
#[derive(Clone, Copy, Debug, PartialEq, Eq)]
pub struct AbortNote {
    pub request: u64,
    /// The job whose request it was.
    pub by: u32,
    /// The job that was aborted.
    pub job: u32,
    pub cause: NoteCause,
    pub need: u64,
    pub free: u64,
    /// How many looks the request had taken.
    pub looks: u32,
}

/// What a request saw of a job: the capacity that it doesn't use, and what it could still reclaim.
#[derive(Clone, Copy, Debug, PartialEq, Eq)]
pub struct Look {
    pub job: u32,
    pub unused: u64,
    pub reclaimable: u64,
}

/// The looks that an abort rested on. Contracts see the list.
#[derive(Debug, Drop)]
pub struct Looks {
    looks: Vec<Look>,
}

impl Model for Looks {
    ghost use Rattle.std.specs.Prelude.{List};
    ghost use Rattle.vx_arb.specs.declared.entries.Look.{Look};

    ghost Value = { List Look };

    ghost view = { λ looks. looks.looks.items };
}

impl Looks {
    /// Keeps the looks of a list without taking memory.
    pub fn from_vec(looks: Vec<Look>) -> Self
        ensures { result ≡ looks.items }
    {
        Looks { looks }
    }

    pub fn as_slice(&self) -> &[Look]
        ensures { result.now ≡ self.now }
    {
        &self.looks
    }
}

/// One change of a job's capacity, in bytes.
#[derive(Debug, Drop)]
pub enum Entry {
    Grant {
        job: u32,
        amount: u64,
    },
    Shrink {
        job: u32,
        amount: u64,
    },
    Reclaim {
        job: u32,
        amount: u64,
    },
    Abort {
        note: AbortNote,
        amount: u64,
        looks: Looks,
    },
    Retire {
        job: u32,
        amount: u64,
    },
}
