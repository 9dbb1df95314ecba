//! Calls that wait for their turn, of which the newest are kept.
ghost use Rattle.std.specs.Prelude.{◌≡◌, [], ◌∷◌, ◌++◌, length, drop, if◌then◌else◌, nat_lt};
ghost use Rattle.first_in.specs.Items.{items, room};
ghost use Rattle.first_in_uses.specs.Waiting.{pushed_out, newest};

use first_in::FirstIn;

/// A call of a lane.
#[derive(Clone, Copy)]
pub struct Call {
    /// The lane that calls.
    pub lane: u8,
    /// When it called.
    pub tick: u64,
}

/// Hands out the oldest call, where every slot holds one.
fn make_room(list: &mut FirstIn<'_, Call>) -> Option<Call>
    ensures answer { result ≡ pushed_out (room list.old) (items list.old) }
    ensures items { items list.new ≡ (if nat_lt (length (items list.old)) (room list.old) then items list.old else drop 1 (items list.old)) }
    ensures room { room list.new ≡ room list.old }
{
    if list.len() < list.capacity() {
        return None;
    }
    list.pop()
}

/// Lets `call` wait behind the others, and hands out the oldest where there is no room for all: as many of the newest
/// wait as there are slots.
pub fn wait(list: &mut FirstIn<'_, Call>, call: Call) -> Option<Call>
    ensures answer { result ≡ pushed_out (room list.old) (items list.old) }
    ensures items { items list.new ≡ newest (room list.old) (items list.old ++ call ∷ []) }
    ensures room { room list.new ≡ room list.old }
{
    let out = make_room(list);
    let _ = list.push(call);
    out
}
