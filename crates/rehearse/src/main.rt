//! Plays a script from the standard input, a call on each line, and writes a line for each call. It makes loads, writes and takes, and asks
//! after lanes and rows; every other call is told as a line that says no call.
#![tactic(auto)]

ghost use Rattle.std.specs.Prelude.{◌≡◌};
ghost use Rattle.std.specs.Fn.{FnReturnsAt};
ghost use Rattle.script.specs.Calls.{said};
ghost use Rattle.rehearse.specs.Made.{made, Exact};

use script::Call;
use std::io;

/// Whether the call is made here.
fn is_made(call: &Call) -> bool
    ensures { result ≡ made (said call.now) }
{
    matches!(
        call,
        Call::Load(_) | Call::Write(_) | Call::Take | Call::Lane(_) | Call::Row(_)
    )
}

/// Plays the script. The closure says which calls are made: exactly those that are made here.
fn rehearse<F: Fn(&Call) -> bool>(rt: &HostRuntime, is_made: F) -> io::Result<()>
    requires callable { F.IsAlwaysCallable is_made }
    requires exact { Exact (λ call is. FnReturnsAt F.Fn is_made call is) }
{
    player::rehearse_some::<F>(rt, is_made)
}

fn main(rt: HostRuntime) -> io::Result<()> {
    rehearse(&rt, is_made)
}
