//! Requests that are served by an outlet, one after another.
ghost use Rattle.std.specs.Prelude.{◌≡◌, min, length, take, drop};
ghost use Rattle.outlets.specs.Meaning.{Step};
ghost use Rattle.outlets.specs.Balance.{Run, Balanced, Continues};

use crate::outlet::Outlet;
use crate::request::{Reply, Request};

/// Makes the call that `request` asks for, and says what came of it.
fn call<O: Outlet>(outlet: &mut O, request: Request) -> Reply
    ensures { Step O.Outlet.meaning outlet.old request result outlet.new }
{
    match request {
        Request::Offer(m) => Reply::to_offer(outlet.offer(m)),
        Request::Take => Reply::to_take(outlet.take()),
    }
}

/// Makes the call that `request` asks for, and says what came of it. Whatever was asked of the outlet before, with this
/// request and its reply at the end it is balanced: for each message, as many waited at first and were accepted as were
/// taken and wait now.
pub fn answer<O: Outlet>(outlet: &mut O, request: Request) -> Reply
    ensures step { Step O.Outlet.meaning outlet.old request result outlet.new }
    ensures history { Continues O.Outlet.meaning outlet.old request result outlet.new }
{
    call(outlet, request)
}

/// Makes the calls that `requests` ask for, in turn, as far as there is room for their replies; says how many, and
/// writes what came of each. The replies behind them stay as they were. For each message, as many waited before and
/// were accepted as were taken and wait afterwards.
pub fn serve<O: Outlet>(outlet: &mut O, requests: &[Request], replies: &mut [Reply]) -> usize
    ensures count { result ≡ min (length requests.now) (length replies.old) }
    ensures rest { drop result replies.new ≡ drop result replies.old }
    ensures run { Run O.Outlet.meaning outlet.old (take result requests.now) (take result replies.new) outlet.new }
    ensures balance { Balanced O.Outlet.meaning.waits outlet.old (take result requests.now) (take result replies.new) outlet.new }
{
    let n = requests.len().min(replies.len());
    // by number, since a proof does not see what is written through `iter_mut().zip(..)`
    for i in 0..n {
        replies[i] = answer(outlet, requests[i]);
    }
    n
}
