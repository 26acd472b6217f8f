//! A world: an arbitrator, its members, and at most one request.
ghost use Rattle.std.specs.Prelude.{◌≡◌, ◌≤◌, ◌↔◌, ◌⊎◌, ◌==◌, ℕ, None, [], false, ◌&&◌, ◌+◌, ◌-◌, length, vec_len, slice_get, IsSomeAnd, IsTrue, IfOk, IfErr, OnOk, OnErr, sum_by, count_by};
ghost use Rattle.vx_world.specs.Scenes.{IsWorld};
ghost use Rattle.vx_world.specs.Steps.{Step, Ran, MayWant, is_lawful};

use crate::asking::{can_abort, can_grant, can_reclaim, can_shrink, is_asking};
use crate::seats::{all_fit, is_going, is_leaving, is_running, is_there, is_waiting, seat_in};
use crate::{ApplyError, Event, Reply};
use std::marker::Model;
use vx_account::Names;
use vx_arb::{Arb, Member, Request};

/// The core as one value.
#[derive(Drop)]
pub struct World<L: Names, M: Member<L> + Drop> {
    arb: Arb<L>,
    members: Vec<M>,
    request: Option<Request>,
}

impl<L: Names, M: Member<L> + Drop> Model for World<L, M> {
    ghost use Rattle.vx_world.specs.Scenes.{Scene};

    ghost Value = { Scene M };

    ghost use Rattle.vx_world.specs.Scenes.{IsWorld};
    ghost use Rattle.vx_world.specs.WorldFields.{scene_of};

    ghost view = { scene_of };

    ghost invariant = { λ world. IsWorld M.Member (scene_of world) };
}

impl<L: Names, M: Member<L> + Drop> World<L, M> {
    /// A world in which no job is live yet.
    pub fn new(arb: Arb<L>, members: Vec<M>) -> Self
        requires quiet { arb.standing ≡ None }
        requires none { arb.live ≡ [] }
        requires apart { (job : ℕ) → count_by (λ member. M.job_is member == job) members.items ≤ 1 }
        requires bare { sum_by M.capacity_is members.items ≡ 0 }
        ensures scene { result ≡ record { books = arb; members = members.items; request = None } }
        ensures rule { IsWorld M.Member result }
    {
        let _total = arb.total();
        all_fit(&members);
        World {
            arb,
            members,
            request: None,
        }
    }

    /// Whether an event may be made.
    pub fn may_make(&self, event: Event) -> bool
        ensures is { result ≡ is_lawful M.Member self.now event }
        ensures rule { IsWorld M.Member self.now }
    {
        match event {
            Event::Admit { job, max: _ } => {
                is_waiting(&self.arb, &self.members, job) && self.request.is_none()
            }
            Event::Batch { job, hint: _ } => is_there(&self.members, job),
            Event::Begin { job, hint: _ } => {
                is_running(&self.arb, &self.members, job) && self.request.is_none()
            }
            Event::Shrink { job } => {
                is_running(&self.arb, &self.members, job) && can_shrink(&self.request, job)
            }
            Event::Reclaim { job } => {
                is_running(&self.arb, &self.members, job) && can_reclaim(&self.arb, &self.request)
            }
            Event::Look { job } => {
                is_running(&self.arb, &self.members, job) && self.request.is_some()
            }
            Event::Grant => can_grant(&self.arb, &self.members, &self.request),
            Event::Abort { job } => {
                is_going(&self.members, job) && can_abort(&self.arb, &self.request, job)
            }
            Event::Drop => self.request.is_some(),
            Event::Want { job } => is_going(&self.members, job),
            Event::Retire { job } => {
                is_leaving(&self.arb, &self.members, job) && !is_asking(&self.request, job)
            }
        }
    }

    /// Makes an event where it is lawful, and answers its reply.
    pub fn apply(&mut self, event: Event) -> Result<Reply, ApplyError>
        ensures step { IfOk result (λ reply. Step M.Member self.old event reply self.new) }

        // Refused exactly where it isn't lawful; want of memory is of a lawful admission or begin alone. After
        // any error nothing has changed.
        ensures refused { (result ≡ Err ApplyError.Refused) ↔ (is_lawful M.Member self.old event ≡ false) }
        ensures memory { result ≡ Err ApplyError.NoMemory → MayWant M.Member self.old event }
        ensures err { OnErr result (self.new ≡ self.old) }
        ensures rule { IsWorld M.Member self.new }
    {
        if !self.may_make(event) {
            return Err(ApplyError::Refused);
        }
        match event {
            Event::Admit { job, max } => self.admit(job, max),
            Event::Batch { job, hint } => Ok(self.batch(job, hint)),
            Event::Begin { job, hint } => self.begin(job, hint),
            Event::Shrink { job } => Ok(self.shrink(job)),
            Event::Reclaim { job } => Ok(self.reclaim(job)),
            Event::Look { job } => Ok(self.look(job)),
            Event::Grant => Ok(self.grant()),
            Event::Abort { job } => Ok(self.abort(job)),
            Event::Drop => Ok(self.drop_request()),
            Event::Want { job } => Ok(self.want(job)),
            Event::Retire { job } => Ok(self.retire(job)),
        }
    }

    /// Makes events in order, and stops at the first that isn't made. As many stand as replies were added.
    pub fn apply_all(
        &mut self,
        events: &[Event],
        replies: &mut Vec<Reply>,
    ) -> Result<(), ApplyError>
        ensures run { Ran M.Member self.old events.now replies.old.items replies.new.items self.new }
        ensures all { OnOk result (vec_len replies.new ≡ vec_len replies.old + length events.now) }

        // Refused comes only at an event that isn't lawful in the world that those before it left.
        ensures refused { result ≡ Err ApplyError.Refused → IsSomeAnd
            (slice_get events.now (vec_len replies.new - vec_len replies.old))
            (λ event. is_lawful M.Member self.new event ≡ false) }

        // Want of memory comes before any event, or at one that may want it there.
        ensures memory { result ≡ Err ApplyError.NoMemory →
            (vec_len replies.new ≡ vec_len replies.old) ⊎ IsSomeAnd
            (slice_get events.now (vec_len replies.new - vec_len replies.old)) (MayWant M.Member self.new) }
        ensures rule { IsWorld M.Member self.new }
    {
        let _arb = self.arb();
        replies.reserve(events.len())?;
        for event in events {
            let reply = self.apply(*event)?;
            replies.push_reserved(reply);
        }
        Ok(())
    }

    /// The arbitrator, with its log.
    pub fn arb(&self) -> &Arb<L>
        ensures is { result.now ≡ self.now.books }
        ensures rule { IsWorld M.Member self.now }
    {
        &self.arb
    }

    fn admit(&mut self, job: u32, max: u64) -> Result<Reply, ApplyError>
        requires { IsTrue (is_lawful M.Member self.old (Event.Admit job max)) }
        ensures step { IfOk result (λ reply. Step M.Member self.old (Event.Admit job max) reply self.new) }
        ensures err { OnErr result (self.new ≡ self.old) }
        ensures memory { IfErr result (λ error. error ≡ ApplyError.NoMemory) }
        ensures rule { IsWorld M.Member self.new }
    {
        self.arb.admit(job, max)?;
        Ok(Reply::Admitted)
    }

    fn begin(&mut self, job: u32, hint: u32) -> Result<Reply, ApplyError>
        requires { IsTrue (is_lawful M.Member self.old (Event.Begin job hint)) }
        ensures step { IfOk result (λ reply. Step M.Member self.old (Event.Begin job hint) reply self.new) }
        ensures err { OnErr result (self.new ≡ self.old) }
        ensures memory { IfErr result (λ error. error ≡ ApplyError.NoMemory) }
        ensures rule { IsWorld M.Member self.new }
    {
        let place = seat_in(&self.members, job);
        match self.arb.begin_request(&self.members[place], hint)? {
            None => Ok(Reply::NotLacking),
            Some(request) => {
                self.request = Some(request);
                Ok(Reply::Begun)
            }
        }
    }

    fn batch(&mut self, job: u32, hint: u32) -> Reply
        requires { IsTrue (is_lawful M.Member self.old (Event.Batch job hint)) }
        ensures step { Step M.Member self.old (Event.Batch job hint) result self.new }
        ensures rule { IsWorld M.Member self.new }
    {
        let place = seat_in(&self.members, job);
        Reply::Stepped(self.members[place].step(hint))
    }

    fn shrink(&mut self, job: u32) -> Reply
        requires { IsTrue (is_lawful M.Member self.old (Event.Shrink job)) }
        ensures step { Step M.Member self.old (Event.Shrink job) result self.new }
        ensures rule { IsWorld M.Member self.new }
    {
        let place = seat_in(&self.members, job);
        let mut request = self.request.take().unwrap();
        let freed = self.arb.shrink(&mut request, &mut self.members[place]);
        self.request = Some(request);
        Reply::Freed(freed)
    }

    fn reclaim(&mut self, job: u32) -> Reply
        requires { IsTrue (is_lawful M.Member self.old (Event.Reclaim job)) }
        ensures step { Step M.Member self.old (Event.Reclaim job) result self.new }
        ensures rule { IsWorld M.Member self.new }
    {
        let place = seat_in(&self.members, job);
        let mut request = self.request.take().unwrap();
        let freed = self.arb.reclaim(&mut request, &mut self.members[place]);
        self.request = Some(request);
        Reply::Freed(freed)
    }

    fn look(&mut self, job: u32) -> Reply
        requires { IsTrue (is_lawful M.Member self.old (Event.Look job)) }
        ensures step { Step M.Member self.old (Event.Look job) result self.new }
        ensures rule { IsWorld M.Member self.new }
    {
        let place = seat_in(&self.members, job);
        let mut request = self.request.take().unwrap();
        self.arb.look(&mut request, &self.members[place]);
        self.request = Some(request);
        Reply::Looked
    }

    fn grant(&mut self) -> Reply
        requires { IsTrue (is_lawful M.Member self.old Event.Grant) }
        ensures step { Step M.Member self.old Event.Grant result self.new }
        ensures rule { IsWorld M.Member self.new }
    {
        let request = self.request.take().unwrap();
        let place = seat_in(&self.members, request.job());
        let granted = self.arb.grant(request, &mut self.members[place]);
        prove!(granted.is_ok());
        Reply::Granted
    }

    fn abort(&mut self, job: u32) -> Reply
        requires { IsTrue (is_lawful M.Member self.old (Event.Abort job)) }
        ensures step { Step M.Member self.old (Event.Abort job) result self.new }
        ensures rule { IsWorld M.Member self.new }
    {
        let place = seat_in(&self.members, job);
        let request = self.request.take().unwrap();
        Reply::Aborted(self.arb.abort(request, &mut self.members[place]))
    }

    fn drop_request(&mut self) -> Reply
        requires { IsTrue (is_lawful M.Member self.old Event.Drop) }
        ensures step { Step M.Member self.old Event.Drop result self.new }
        ensures rule { IsWorld M.Member self.new }
    {
        let request = self.request.take().unwrap();
        self.arb.drop_request(request);
        Reply::Dropped
    }

    fn want(&mut self, job: u32) -> Reply
        requires { IsTrue (is_lawful M.Member self.old (Event.Want job)) }
        ensures step { Step M.Member self.old (Event.Want job) result self.new }
        ensures rule { IsWorld M.Member self.new }
    {
        let place = seat_in(&self.members, job);
        self.members[place].want();
        Reply::Wanted
    }

    fn retire(&mut self, job: u32) -> Reply
        requires { IsTrue (is_lawful M.Member self.old (Event.Retire job)) }
        ensures step { Step M.Member self.old (Event.Retire job) result self.new }
        ensures rule { IsWorld M.Member self.new }
    {
        let place = seat_in(&self.members, job);
        let member = &mut self.members[place];
        let share = member.lower(member.capacity());
        self.arb.retire(job, share);
        Reply::Retired
    }
}
