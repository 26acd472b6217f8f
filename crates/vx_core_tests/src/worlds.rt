//! Worlds of two members, which ask for what their scripts say.
ghost use Rattle.std.specs.Prelude.{◌≡◌, ◌^◌, nat_le, IsTrue, IfOk};
ghost use Rattle.std.specs.List.{list_all};

use std::alloc::{AllocError, Global};
use std::marker::Brand;
use vx_arb::{Arb, Entry};
use vx_pool::Share;
use vx_world::{ApplyError, Event, PlainMember, World};

pub const TOTAL: u64 = 65_536;

const UNIT: u64 = 4096;

pub type Plain = PlainMember<Brand>;

/// The member of a job, with a script of numbers that a leaf may be asked for.
fn plain(alloc: Global, job: u32, script: &[u64], soft: bool) -> Result<Plain, AllocError>
    requires { IsTrue (list_all (λ bytes. nat_le bytes (2 ^ 33)) script.now) }
    ensures job { IfOk result (λ member. member.job ≡ job) }
    ensures bare { IfOk result (λ member. member.pools.capacity ≡ 0) }
{
    PlainMember::new(alloc, job, UNIT, script, soft)
}

/// A world of the members of jobs 0 and 1, with the total free.
fn pair(alloc: Global, first: Plain, second: Plain) -> Result<World<Brand, Plain>, AllocError>
    requires first { first.job ≡ 0 }
    requires second { second.job ≡ 1 }
    requires first_bare { first.pools.capacity ≡ 0 }
    requires second_bare { second.pools.capacity ≡ 0 }
{
    let arb = Arb::new(alloc, Share::whole(TOTAL))?;
    let mut members = Vec::new(alloc);
    members.reserve(2)?;
    members.push_reserved(first);
    members.push_reserved(second);
    Ok(World::new(arb, members))
}

/// Such a world by the scripts of its members, with no job admitted.
pub fn bare(
    alloc: Global,
    first: &[u64],
    soft: bool,
    second: &[u64],
) -> Result<World<Brand, Plain>, AllocError>
    requires first { IsTrue (list_all (λ bytes. nat_le bytes (2 ^ 33)) first.now) }
    requires second { IsTrue (list_all (λ bytes. nat_le bytes (2 ^ 33)) second.now) }
{
    let first = plain(alloc, 0, first, soft)?;
    let second = plain(alloc, 1, second, false)?;
    pair(alloc, first, second)
}

/// The same, with both admitted with the total as their max.
pub fn world(
    alloc: Global,
    first: &[u64],
    soft: bool,
    second: &[u64],
) -> Result<World<Brand, Plain>, ApplyError>
    requires first { IsTrue (list_all (λ bytes. nat_le bytes (2 ^ 33)) first.now) }
    requires second { IsTrue (list_all (λ bytes. nat_le bytes (2 ^ 33)) second.now) }
{
    let mut world = bare(alloc, first, soft, second)?;
    let admissions = [
        Event::Admit { job: 0, max: TOTAL },
        Event::Admit { job: 1, max: TOTAL },
    ];
    let mut replies = Vec::new(alloc);
    world.apply_all(&admissions, &mut replies)?;
    Ok(world)
}

/// Which change an entry is, of which job, by how much.
pub fn told(entry: &Entry) -> (&'static str, u32, u64) {
    match entry {
        Entry::Grant { job, amount } => ("grant", *job, *amount),
        Entry::Shrink { job, amount } => ("shrink", *job, *amount),
        Entry::Reclaim { job, amount } => ("reclaim", *job, *amount),
        Entry::Abort { note, amount, .. } => ("abort", note.job, *amount),
        Entry::Retire { job, amount } => ("retire", *job, *amount),
    }
}
