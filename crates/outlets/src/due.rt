//! The outlet that hands out first what is due first.
ghost use Rattle.std.specs.Prelude.{◌≡◌, ◌+◌, ◌<◌, ◌≤◌, min, [], length, nat_le, slice_index_or, slice_set};
ghost use Rattle.std.specs.List.{IsFirstBest};
ghost use Rattle.outlets.specs.Due.{before, messages, places, waiting, meaning, sums_up, Earliest};
ghost use Rattle.outlets.specs.Meaning.{Step};
ghost use Rattle.outlets.specs.Messages.{blank};
ghost use Rattle.outlets.specs.Replies.{took};

use crate::message::Message;
use crate::outlet::Outlet;
use crate::request::Request;

/// Messages that wait in the caller's slots; the one that is due first is taken first.
// A count beside slots, and no heap of the library's: the memory is the caller's, and nothing is allocated.
#[derive(Drop)]
pub struct EarliestDue<'a> {
    slots: &'a mut [Message],
    len: usize,
}

/// Whether `a` goes before `b`: by when it is due, then by its lane, then by its event.
fn sooner(a: Message, b: Message) -> bool
    ensures { result ≡ before a b }
{
    // asked first, since tuples of three take longer to compare where they begin alike, and a take compares all that wait
    if a.due == b.due && a.lane == b.lane {
        a.event < b.event
    } else {
        (a.due, a.lane) < (b.due, b.lane)
    }
}

impl<'a> EarliestDue<'a> {
    /// An outlet over `slots`, in which nothing waits.
    pub fn new(slots: &'a mut [Message]) -> Self
        ensures nothing { messages result ≡ [] }
        ensures capacity { places result ≡ length slots.old }
    {
        EarliestDue { slots, len: 0 }
    }

    /// How many messages wait. A `len` past the slots is read as their number, so that no invariant is needed.
    fn len(&self) -> usize
        ensures { result ≡ min self.now.len (places self.now) }
    {
        self.len.min(self.slots.len())
    }

    /// Whether every slot holds a message.
    fn is_full(&self) -> bool
        ensures { result ≡ nat_le (places self.now) self.now.len }
    {
        self.slots.len() <= self.len
    }

    /// Lets `m` wait in the next slot.
    fn put(&mut self, m: Message)
        requires { self.old.len < places self.old }
        ensures slots { self.new.slots.now ≡ slice_set self.old.slots.now self.old.len m }
        ensures len { self.new.len ≡ self.old.len + 1 }
    {
        self.slots[self.len] = m;
        self.len += 1;
    }

    /// The first slot, of the first `len`, of a message that none in them goes before.
    fn soonest(&self, len: usize) -> usize
        requires some { 0 < len }
        requires within { len ≤ places self.now }
        ensures { IsFirstBest before self.now.slots.now len result }
    {
        let mut best = 0;
        // by number, since a slot is sought and not a message
        for i in 1..len {
            if sooner(self.slots[i], self.slots[best]) {
                best = i;
            }
        }
        best
    }

    /// Hands out the message in slot `at`, and moves the one in slot `last`, behind which none waits, to that slot.
    fn remove(&mut self, at: usize, last: usize) -> Message
        requires at_in { at < places self.old }
        requires last_in { last < places self.old }
        ensures answer { result ≡ slice_index_or self.old.slots.now at blank }
        ensures slots { self.new.slots.now ≡ slice_set self.old.slots.now at (slice_index_or self.old.slots.now last blank) }
        ensures len { self.new.len ≡ last }
    {
        let m = self.slots[at];
        self.slots[at] = self.slots[last];
        self.len = last;
        m
    }
}

/// Messages leave in the order in which they are due.
impl Outlet for EarliestDue<'_> {
    ghost meaning = { meaning };

    ghost sums = { sums_up };

    /// Lets `m` wait, if there is room.
    fn offer(&mut self, m: Message) -> bool {
        if self.is_full() {
            return false;
        }
        self.put(m);
        true
    }

    /// Hands out the message that is due first.
    fn take(&mut self) -> Option<Message>
        ensures step { Step meaning self.old Request.Take (took result) self.new }
        ensures earliest { Earliest (waiting self.old) result }
    {
        let len = self.len();
        if len == 0 {
            return None;
        }
        let at = self.soonest(len);
        Some(self.remove(at, len - 1))
    }
}
