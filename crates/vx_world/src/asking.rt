//! What the request that stands may do.
ghost use Rattle.std.specs.Prelude.{◌≡◌, ◌==◌, ◌&&◌, false};
ghost use Rattle.std.specs.Option.{option_map_or};
ghost use Rattle.vx_arb.specs.Books.{is_met, is_unmet};
ghost use Rattle.vx_arb.specs.Rows.{is_live};
ghost use Rattle.vx_world.specs.Scenes.{member_of};
ghost use Rattle.vx_world.specs.Steps.{on_request, may_shrink, may_reclaim};

use crate::seats::is_running;
use vx_account::Names;
use vx_arb::{Arb, Member, Request};

// Whether a request may shrink a job.
fn shrinks(request: &Request, job: u32) -> bool
    ensures { result ≡ may_shrink job request.now }
{
    if request.left() == 0 {
        return false;
    }
    job != request.job()
}

// Whether a request may still make a member reclaim.
fn reclaims<L: Names>(arb: &Arb<L>, request: &Request) -> bool
    ensures { result ≡ may_reclaim arb.now request.now }
{
    if request.left() == 0 {
        return false;
    }
    !arb.is_met(request)
}

// Whether a request can be granted.
fn grants<L: Names, M: Member<L> + Drop>(arb: &Arb<L>, members: &[M], request: &Request) -> bool
    ensures { result ≡ (is_met arb.now request.now
        && option_map_or (λ member. is_live arb.now.live request.now.job) (member_of M.Member members.now request.now.job) false) }
{
    if !arb.is_met(request) {
        return false;
    }
    is_running(arb, members, request.job())
}

pub fn can_shrink(request: &Option<Request>, job: u32) -> bool
    ensures { result ≡ on_request request.now (may_shrink job) }
{
    match request {
        Some(request) => shrinks(request, job),
        None => false,
    }
}

pub fn can_reclaim<L: Names>(arb: &Arb<L>, request: &Option<Request>) -> bool
    ensures { result ≡ on_request request.now (may_reclaim arb.now) }
{
    match request {
        Some(request) => reclaims(arb, request),
        None => false,
    }
}

pub fn can_grant<L: Names, M: Member<L> + Drop>(
    arb: &Arb<L>,
    members: &[M],
    request: &Option<Request>,
) -> bool
    ensures { result ≡ on_request request.now (λ request. is_met arb.now request
        && option_map_or (λ member. is_live arb.now.live request.job) (member_of M.Member members.now request.job) false) }
{
    match request {
        Some(request) => grants(arb, members, request),
        None => false,
    }
}

pub fn can_abort<L: Names>(arb: &Arb<L>, request: &Option<Request>, job: u32) -> bool
    ensures { result ≡ on_request request.now (λ request. is_unmet arb.now request job) }
{
    match request {
        Some(request) => arb.may_abort(request, job),
        None => false,
    }
}

// Whether the request that stands is of a job.
pub fn is_asking(request: &Option<Request>, job: u32) -> bool
    ensures { result ≡ on_request request.now (λ request. request.job == job) }
{
    match request {
        Some(request) => request.job() == job,
        None => false,
    }
}
