//! Where the member of a job stands, and what is said of a job by its row and its member.
ghost use Rattle.std.specs.Prelude.{◌≡◌, ◌==◌, ◌&&◌, ◌<◌, true, false, not, Some, IsSome, All, length, position};
ghost use Rattle.std.specs.Option.{option_map_or};
ghost use Rattle.vx_arb.specs.Rows.{is_live};
ghost use Rattle.vx_world.specs.Scenes.{Fits, member_of};

use vx_account::Names;
use vx_arb::{Arb, Member};

// Asks each member for its capacity: the call says that no more is reserved.
pub fn all_fit<L: Names, M: Member<L> + Drop>(members: &[M])
    ensures { All (Fits M.Member) members.now }
{
    for member in members {
        member.capacity();
    }
}

// Where the member of a job stands.
pub fn seat_of<L: Names, M: Member<L> + Drop>(members: &[M], job: u32) -> Option<usize>
    ensures { result ≡ position (λ member. M.job_is member == job) members.now }
{
    for (place, member) in members.iter().enumerate() {
        if member.job() == job {
            return Some(place);
        }
    }
    None
}

// Where the member of a job stands that is there.
pub fn seat_in<L: Names, M: Member<L> + Drop>(members: &[M], job: u32) -> usize
    requires { IsSome (member_of M.Member members.now job) }
    ensures place { Some result ≡ position (λ member. M.job_is member == job) members.now }
    ensures within { result < length members.now }
{
    seat_of(members, job).unwrap()
}

// Whether the member of a job is there.
pub fn is_there<L: Names, M: Member<L> + Drop>(members: &[M], job: u32) -> bool
    ensures { result ≡ option_map_or (λ member. true) (member_of M.Member members.now job) false }
{
    seat_of(members, job).is_some()
}

// Whether the member of a job is there and has not ended.
pub fn is_going<L: Names, M: Member<L> + Drop>(members: &[M], job: u32) -> bool
    ensures { result ≡ option_map_or (λ member. not (M.ended_is member)) (member_of M.Member members.now job) false }
{
    match seat_of(members, job) {
        Some(place) => !members[place].ended(),
        None => false,
    }
}

// Whether the member of a job is there and has nothing reserved.
pub fn is_idle<L: Names, M: Member<L> + Drop>(members: &[M], job: u32) -> bool
    ensures { result ≡ option_map_or (λ member. M.reserved_is member == 0) (member_of M.Member members.now job) false }
{
    match seat_of(members, job) {
        Some(place) => members[place].reserved() == 0,
        None => false,
    }
}

// Whether a job is live and its member there.
pub fn is_running<L: Names, M: Member<L> + Drop>(arb: &Arb<L>, members: &[M], job: u32) -> bool
    ensures { result ≡ option_map_or (λ member. is_live arb.now.live job) (member_of M.Member members.now job) false }
{
    if !arb.is_live(job) {
        return false;
    }
    is_there(members, job)
}

// Whether the member of a job is there and the job not live.
pub fn is_waiting<L: Names, M: Member<L> + Drop>(arb: &Arb<L>, members: &[M], job: u32) -> bool
    ensures { result ≡ option_map_or (λ member. not (is_live arb.now.live job)) (member_of M.Member members.now job) false }
{
    if arb.is_live(job) {
        return false;
    }
    is_there(members, job)
}

// Whether a job is live and its member has nothing reserved.
pub fn is_leaving<L: Names, M: Member<L> + Drop>(arb: &Arb<L>, members: &[M], job: u32) -> bool
    ensures { result ≡ option_map_or (λ member. is_live arb.now.live job && (M.reserved_is member == 0)) (member_of M.Member members.now job) false }
{
    if !arb.is_live(job) {
        return false;
    }
    is_idle(members, job)
}
