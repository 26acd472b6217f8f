//! The arbitrator.
ghost use Rattle.std.specs.Prelude.{◌≡◌, ◌≢◌, ◌+◌, ◌-◌, ◌<◌, ◌≤◌, ◌↔◌, true, false, Some, None, length, IsTrue, IsErr, IsSomeAnd, IfSome, IfNone, IfOk, IfErr, OnOk, OnErr, option_map};
ghost use Rattle.vx_arb.specs.Books.{IsBooks, Asked, Stands, IsReclaimed, new_books, after_admit, after_begin, request_for, is_met, share_of, moved_of, wanted_of, with_given, after_taking, after_shrink, after_reclaim, shrink_entry, reclaim_entry, with_taken, after_move, after_look, after_grant, is_unmet, is_unmet_total, cause_of, note_for, after_abort, after_retire, is_requester};
ghost use Rattle.vx_arb.specs.Rows.{is_live, capacity_at, max_at, max_in, IsTied};
ghost use Rattle.vx_arb.specs.Members.{IsWithin};
ghost use Rattle.vx_arb.specs.Unmet.{IsJust};
ghost use Rattle.vx_arb.specs.Keeping.{Takes, MayTake};

use crate::requests::{Lacking, Request};
use crate::rows::{
    capacity_in, has_largest, holds_job, max_for, max_where_live, set_capacity, take_out,
    with_one_less,
};
use crate::sights::{all_emptied, none_unused, nothing_left};
use crate::{AbortNote, Admitted, Entry, Live, Look, Member, NoteCause, Standing};
use std::alloc::{AllocError, Global};
use std::marker::Model;
use vx_account::Names;
use vx_pool::Share;

// No more jobs are live than this: looks are counted in 32 bits.
const MOST_JOBS: usize = 4_294_967_295;

/// What hands out one capacity among jobs. Contracts see it as its books.
#[derive(Drop)]
pub struct Arb<L> {
    total: u64,
    free: Share<L>,
    log: Vec<Entry>,
    live: Vec<Live>,
    admitted: Vec<Admitted>,
    requests: u64,
    standing: Option<Standing>,
    // For how many more entries the log has room.
    spare: u64,
    alloc: Global,
}

impl<L> Model for Arb<L> {
    ghost use Rattle.vx_arb.specs.Books.{Books};

    ghost Value = { Books };

    ghost use Rattle.std.specs.Prelude.{vec_capacity};
    ghost use Rattle.vx_arb.specs.Fields.{books_of};
    ghost use Rattle.vx_arb.specs.Keeping.{IsKept};

    ghost view = { books_of };

    ghost invariant = { λ arb. IsKept (books_of arb) (vec_capacity arb.log) };
}

// Of a shrink an entry is written where something was moved.
fn entry_of_shrink(job: u32, moved: u64) -> Option<Entry>
    ensures { result ≡ shrink_entry job moved }
{
    if moved == 0 {
        return None;
    }
    Some(Entry::Shrink { job, amount: moved })
}

// Of a reclaim an entry is written where something was freed.
fn entry_of_reclaim(job: u32, freed: u64, moved: u64) -> Option<Entry>
    ensures { result ≡ reclaim_entry job freed moved }
{
    if freed == 0 {
        return entry_of_shrink(job, moved);
    }
    Some(Entry::Reclaim { job, amount: moved })
}

impl<L: Names> Arb<L> {
    /// An arbitrator of a whole share, with no job.
    pub fn new(alloc: Global, whole: Share<L>) -> Result<Self, AllocError>
        ensures books { IfOk result (λ arb. arb ≡ new_books whole) }
        ensures rule { IfOk result IsBooks }
    {
        Ok(Arb {
            total: whole.amount(),
            free: whole,
            log: Vec::new(alloc),
            live: Vec::new(alloc),
            admitted: Vec::new(alloc),
            requests: 0,
            standing: None,
            spare: 0,
            alloc,
        })
    }

    /// Makes a job live, with no capacity yet, and takes room for the entry that will retire it.
    pub fn admit(&mut self, job: u32, max: u64) -> Result<(), AllocError>
        requires new { is_live self.old.live job ≡ false }
        requires quiet { self.old.standing ≡ None }
        ensures ok { OnOk result (self.new ≡ after_admit self.old job max) }
        ensures err { OnErr result (self.new ≡ self.old) }
        ensures rule { IsBooks self.new }
    {
        if self.live.len() >= MOST_JOBS {
            return Err(AllocError);
        }
        self.log.reserve(self.spare as usize + 1)?;
        self.live.reserve(1)?;
        self.admitted.reserve(1)?;
        self.spare += 1;
        self.admitted.push_reserved(Admitted {
            job,
            max,
            at: self.log.len() as u64,
        });
        self.live.push_reserved(Live {
            job,
            max,
            capacity: 0,
        });
        Ok(())
    }

    /// Begins a request for what a member lacks under a hint, and takes room for all its looks and
    /// entries. None comes exactly where it lacks nothing. The request may make three shrinks and reclaims
    /// for each live job.
    pub fn begin_request<M: Member<L>>(
        &mut self,
        member: &M,
        hint: u32,
    ) -> Result<Option<Request>, AllocError>
        requires tied { IsTied self.old.live (M.job_is member.now) (M.capacity_is member.now) }
        requires quiet { self.old.standing ≡ None }
        ensures request { IfOk result (λ request. request ≡
            option_map (request_for self.old (M.job_is member.now)) (M.lack_is member.now hint)) }
        ensures books { OnOk result (self.new ≡
            after_begin self.old (M.job_is member.now) (M.lack_is member.now hint)) }
        ensures stands { IfOk result (λ request. IfSome request (Stands self.new)) }
        ensures err { OnErr result (self.new ≡ self.old) }
        ensures rule { IsBooks self.new }
    {
        let live = self.live.len();
        let Some(lack) = member.lack(hint) else {
            return Ok(None);
        };
        let standing = Standing {
            number: self.requests.saturating_add(1),
            job: member.job(),
            need: lack.need,
            would: lack.would,
            left: 3 * live as u64,
        };
        let request = Request::begin(self.alloc, standing, live)?;
        let entries = 4 * live + 1;
        self.log.reserve(entries)?;
        self.spare = self.spare.max(entries as u64);
        self.requests = standing.number;
        self.standing = Some(standing);
        Ok(Some(request))
    }

    /// Moves unused capacity of another job to what is free, as much as the request still needs, and
    /// answers how much.
    pub fn shrink<M: Member<L>>(&mut self, request: &mut Request, member: &mut M) -> u64
        requires stands { Stands self.old request.old }
        requires left { 0 < request.old.left }
        requires tied { IsTied self.old.live (M.job_is member.old) (M.capacity_is member.old) }
        requires other { M.job_is member.old ≢ request.old.job }
        ensures moved { result ≡ share_of self.old request.old (M.unused_is member.old) }
        ensures books { self.new ≡ after_shrink self.old (M.job_is member.old) result }
        ensures request { request.new ≡ after_move request.old }
        ensures member { M.lowers member.old result member.new }
        ensures stands { Stands self.new request.new }
        ensures job { M.job_is member.new ≡ M.job_is member.old }
        ensures ended { M.ended_is member.new ≡ M.ended_is member.old }
        ensures tied { IsTied self.new.live (M.job_is member.new) (M.capacity_is member.new) }
        ensures within { IsWithin (M.capacity_is member.new) (M.reserved_is member.new) (M.unused_is member.new) }
        ensures rule { IsBooks self.new }
    {
        let job = member.job();
        let moved = member.unused().min(self.missing(request));
        let share = member.lower(moved);
        self.take_back(job, share, entry_of_shrink(job, moved));
        request.spend();
        moved
    }

    /// Makes a member reclaim what the request wants, and answers how much it freed. From another member
    /// than the requester what it doesn't use is then moved to what is free, as much as is still needed.
    pub fn reclaim<M: Member<L>>(&mut self, request: &mut Request, member: &mut M) -> u64
        requires stands { Stands self.old request.old }
        requires left { 0 < request.old.left }
        requires unmet { is_met self.old request.old ≡ false }
        requires tied { IsTied self.old.live (M.job_is member.old) (M.capacity_is member.old) }
        ensures books { self.new ≡ after_reclaim self.old (M.job_is member.old) result
            (moved_of self.old request.old (M.job_is member.old) (M.unused_is member.old + result)) }
        ensures request { request.new ≡ after_move request.old }
        ensures member { IsReclaimed M.reclaims M.lowers member.old (wanted_of self.old request.old) result
            (moved_of self.old request.old (M.job_is member.old) (M.unused_is member.old + result)) member.new }
        ensures stands { Stands self.new request.new }
        ensures job { M.job_is member.new ≡ M.job_is member.old }
        ensures ended { M.ended_is member.old ≡ true → M.ended_is member.new ≡ true }
        ensures tied { IsTied self.new.live (M.job_is member.new) (M.capacity_is member.new) }
        ensures within { IsWithin (M.capacity_is member.new) (M.reserved_is member.new) (M.unused_is member.new) }
        ensures rule { IsBooks self.new }
    {
        let job = member.job();
        let freed = member.reclaim(self.wanted(request));
        let moved = self.moved(request, job, member.unused());
        let share = member.lower(moved);
        self.take_back(job, share, entry_of_reclaim(job, freed, moved));
        request.spend();
        freed
    }

    /// Looks at a member: what it doesn't use, and what it could still reclaim.
    pub fn look<M: Member<L>>(&mut self, request: &mut Request, member: &M)
        requires stands { Stands self.old request.old }
        requires live { IsTrue (is_live self.old.live (M.job_is member.now)) }
        ensures books { self.new ≡ self.old }
        ensures request { request.new ≡ after_look request.old (record {
          job = M.job_is member.now;
          unused = M.unused_is member.now;
          reclaimable = M.reclaimable_is member.now;
        }) }
        ensures stands { Stands self.new request.new }
        ensures rule { IsBooks self.new }
    {
        let _books = &self.total;
        request.put(Look {
            job: member.job(),
            unused: member.unused(),
            reclaimable: member.reclaimable(),
        });
    }

    /// Gives the requester what it needs, and ends the request.
    pub fn grant<M: Member<L>>(&mut self, request: Request, member: &mut M) -> Result<(), Lacking>
        requires stands { Stands self.old request }
        requires tied { IsTied self.old.live (M.job_is member.old) (M.capacity_is member.old) }
        requires requester { M.job_is member.old ≡ request.job }
        requires within { request.would ≤ max_in self.old.live request.job }
        ensures books { OnOk result (self.new ≡ after_grant self.old request) }
        ensures member { OnOk result (M.raises member.old request.need member.new) }

        // Refused exactly where more is needed than is free, and then nothing has changed.
        ensures lacking { IsErr result ↔ (self.old.free < request.need) }
        ensures numbers { IfErr result (λ lacking. lacking ≡
            record { need = request.need; free = self.old.free; request = request }) }
        ensures err { OnErr result (self.new ≡ self.old) }
        ensures kept { OnErr result (member.new ≡ member.old) }

        ensures job { M.job_is member.new ≡ M.job_is member.old }
        ensures ended { M.ended_is member.new ≡ M.ended_is member.old }
        ensures tied { IsTied self.new.live (M.job_is member.new) (M.capacity_is member.new) }
        ensures within { OnOk result (IsWithin (M.capacity_is member.new) (M.reserved_is member.new) (M.unused_is member.new)) }
        ensures rule { IsBooks self.new }
    {
        let need = request.need();
        let free = self.free.amount();
        if need > free {
            return Err(Lacking {
                need,
                free,
                request,
            });
        }
        let share = self.hand_out(request.job(), need);
        member.raise(share);
        Ok(())
    }

    /// Aborts the member that the request can't be met without, takes its whole capacity, and ends the
    /// request.
    pub fn abort<M: Member<L>>(&mut self, request: Request, victim: &mut M) -> AbortNote
        requires stands { Stands self.old request }
        requires tied { IsTied self.old.live (M.job_is victim.old) (M.capacity_is victim.old) }
        requires going { M.ended_is victim.old ≡ false }
        requires unmet { IsTrue (is_unmet self.old request (M.job_is victim.old)) }
        ensures note { result ≡ note_for self.old request (M.job_is victim.old) }
        ensures books { self.new ≡ after_abort self.old request (M.job_is victim.old) }
        ensures member { M.aborts victim.old result victim.new }
        ensures job { M.job_is victim.new ≡ M.job_is victim.old }
        ensures ended { M.ended_is victim.new ≡ true }
        ensures tied { IsTied self.new.live (M.job_is victim.new) (M.capacity_is victim.new) }
        ensures within { IsWithin (M.capacity_is victim.new) (M.reserved_is victim.new) (M.unused_is victim.new) }
        ensures rule { IsBooks self.new }
    {
        let job = victim.job();
        let note = AbortNote {
            request: request.number(),
            by: request.job(),
            job,
            cause: self.cause(&request),
            need: request.need(),
            free: self.free.amount(),
            looks: request.looks().len() as u32,
        };
        let share = victim.abort(note);
        let entry = Entry::Abort {
            note,
            amount: share.amount(),
            looks: request.into_looks(),
        };
        self.write_back(job, share, entry, None);
        note
    }

    /// Ends a request without a grant.
    pub fn drop_request(&mut self, request: Request)
        requires { Stands self.old request }
        ensures books { self.new ≡ record self.old { standing = None } }
        ensures rule { IsBooks self.new }
    {
        self.standing = None;
    }

    /// Ends a job's life, and takes its capacity back.
    pub fn retire(&mut self, job: u32, share: Share<L>)
        requires live { IsTrue (is_live self.old.live job) }
        requires whole { share ≡ capacity_at self.old.live job }
        requires quiet { is_requester self.old.standing job ≡ false }
        ensures books { self.new ≡ after_retire self.old job }
        ensures stands { (request : Asked) → Stands self.old request → Stands self.new request }
        ensures rule { IsBooks self.new }
    {
        let amount = share.amount();
        self.free.join(share);
        take_out(&mut self.live, job);
        self.spare -= 1;
        self.log.push_reserved(Entry::Retire { job, amount });
    }

    /// Hands out the log and what is free.
    pub fn finish(self) -> (Vec<Entry>, Share<L>)
        requires { self.standing ≡ None }
        ensures log { result.0.items ≡ self.log }
        ensures free { result.1 ≡ self.free }
    {
        (self.log, self.free)
    }

    /// Whether a request can be granted: its job's max allows what the job would have, and that is free.
    pub fn is_met(&self, request: &Request) -> bool
        ensures is { result ≡ is_met self.now request.now }
        ensures rule { IsBooks self.now }
    {
        if request.would() > max_for(&self.live, request.job()) {
            return false;
        }
        request.need() <= self.free.amount()
    }

    /// Whether a request may abort a job: no smaller way is left.
    pub fn may_abort(&self, request: &Request, job: u32) -> bool
        ensures is { result ≡ is_unmet self.now request.now job }
        ensures rule { IsBooks self.now }
    {
        if request.would() > max_for(&self.live, request.job()) {
            return job == request.job() && nothing_left(request.looks(), job);
        }
        self.lacks_of_total(request, job)
    }

    /// The whole capacity.
    pub fn total(&self) -> u64
        ensures is { result ≡ self.now.total }
        ensures rule { IsBooks self.now }
    {
        self.total
    }

    /// The capacity that no job has.
    pub fn free(&self) -> u64
        ensures is { result ≡ self.now.free }
        ensures rule { IsBooks self.now }
    {
        self.free.amount()
    }

    /// The entries so far.
    pub fn log(&self) -> &[Entry]
        ensures is { result.now ≡ self.now.log }
        ensures rule { IsBooks self.now }
    {
        &self.log
    }

    pub fn live(&self) -> &[Live]
        ensures is { result.now ≡ self.now.live }
        ensures rule { IsBooks self.now }
    {
        &self.live
    }

    pub fn is_live(&self, job: u32) -> bool
        ensures is { result ≡ is_live self.now.live job }
        ensures rule { IsBooks self.now }
    {
        holds_job(&self.live, job)
    }

    /// The greatest capacity in bytes that a live job may have.
    pub fn max_of(&self, job: u32) -> Option<u64>
        ensures is { result ≡ max_at self.now.live job }
        ensures rule { IsBooks self.now }
    {
        max_where_live(&self.live, job)
    }

    /// All admissions in order, also of jobs that have retired.
    pub fn admitted(&self) -> &[Admitted]
        ensures is { result.now ≡ self.now.admitted }
        ensures rule { IsBooks self.now }
    {
        &self.admitted
    }

    /// How many requests were begun.
    pub fn requests(&self) -> u64
        ensures is { result ≡ self.now.requests }
        ensures rule { IsBooks self.now }
    {
        self.requests
    }

    pub fn standing(&self) -> Option<Standing>
        ensures is { result ≡ self.now.standing }
        ensures rule { IsBooks self.now }
    {
        self.standing
    }

    /// For how many more entries the log has room.
    pub fn spare(&self) -> u64
        ensures is { result ≡ self.now.spare }
        ensures rule { IsBooks self.now }
    {
        self.spare
    }

    // Whether a request within its job's max may abort a job.
    fn lacks_of_total(&self, request: &Request, job: u32) -> bool
        ensures { result ≡ is_unmet_total self.now request.now job }
    {
        let looks = request.looks();
        if request.need() <= self.free.amount() {
            return false;
        }
        if !all_emptied(&self.live, looks) {
            return false;
        }
        if !none_unused(looks, request.job()) {
            return false;
        }
        holds_job(&self.live, job) && has_largest(&self.live, job)
    }

    // What isn't free of what a request needs.
    fn missing(&self, request: &Request) -> u64
        ensures { result ≡ request.now.need - self.now.free }
    {
        request.need().saturating_sub(self.free.amount())
    }

    // How much a request wants a member to reclaim.
    fn wanted(&self, request: &Request) -> u64
        ensures { result ≡ wanted_of self.now request.now }
    {
        let most = max_for(&self.live, request.job());
        if request.would() > most {
            return request.would() - most;
        }
        self.missing(request)
    }

    // How much a job gives for a request once it was reclaimed from.
    fn moved(&self, request: &Request, job: u32, unused: u64) -> u64
        ensures { result ≡ moved_of self.now request.now job unused }
    {
        if job == request.job() {
            return 0;
        }
        unused.min(self.missing(request))
    }

    fn cause(&self, request: &Request) -> NoteCause
        ensures { result ≡ cause_of self.now request.now }
    {
        if request.would() > max_for(&self.live, request.job()) {
            return NoteCause::Own;
        }
        NoteCause::Total
    }

    // Gives a job what is free of an amount, and ends the request.
    fn hand_out(&mut self, job: u32, amount: u64) -> Share<L>
        requires there { IsTrue (is_live self.old.live job) }
        requires free { amount ≤ self.old.free }
        requires within { capacity_at self.old.live job + amount ≤ max_in self.old.live job }
        requires seat { length self.old.live < self.old.spare }
        ensures share { result ≡ amount }
        ensures books { self.new ≡ with_given self.old job amount }
        ensures rule { IsBooks self.new }
    {
        let share = self.free.split(amount);
        let capacity = capacity_in(&self.live, job) + amount;
        set_capacity(&mut self.live, job, capacity);
        self.spare -= 1;
        self.standing = None;
        self.log.push_reserved(Entry::Grant { job, amount });
        share
    }

    // Ends a shrink or a reclaim: takes the share in, and writes the entry if there is one.
    fn take_back(&mut self, job: u32, back: Share<L>, entry: Option<Entry>)
        requires going { IsSomeAnd self.old.standing (λ standing. 0 < standing.left) }
        requires there { IsTrue (is_live self.old.live job) }
        requires had { back ≤ capacity_at self.old.live job }
        requires other { is_requester self.old.standing job ≡ true → back ≡ 0 }
        requires none { IfNone entry (back ≡ 0) }
        requires entry { IfSome entry (Takes job back) }
        requires just { IfSome entry (IsJust self.old.total self.old.admitted self.old.log) }
        ensures books { self.new ≡ after_taking self.old job back entry }
        ensures rule { IsBooks self.new }
    {
        let standing = with_one_less(self.standing);
        match entry {
            Some(entry) => self.write_back(job, back, entry, standing),
            None => {
                self.free.join(back);
                self.standing = standing;
            }
        }
    }

    // Takes a job's share in, writes the entry that says so, and leaves this request standing.
    fn write_back(&mut self, job: u32, back: Share<L>, entry: Entry, standing: Option<Standing>)
        requires { MayTake self.old job back entry standing }
        ensures books { self.new ≡ record (with_taken self.old job back entry) { standing = standing } }
        ensures rule { IsBooks self.new }
    {
        let capacity = capacity_in(&self.live, job) - back.amount();
        set_capacity(&mut self.live, job, capacity);
        self.free.join(back);
        self.spare -= 1;
        self.standing = standing;
        self.log.push_reserved(entry);
    }
}
