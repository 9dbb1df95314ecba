//! The outlet that hands out first what came in first.
ghost use Rattle.std.specs.Prelude.{◌≡◌, [], ◌∷◌, ◌++◌, length, drop, if◌then◌else◌, nat_lt};
ghost use Rattle.first_in.specs.Items.{oldest};
ghost use Rattle.outlets.specs.Arrival.{messages, places, meaning, sums_up};
ghost use Rattle.outlets.specs.Meaning.{Step};
ghost use Rattle.outlets.specs.Replies.{offered, took};

use crate::message::Message;
use crate::outlet::Outlet;
use crate::request::Request;
use first_in::FirstIn;

/// Messages that wait in the caller's slots; the one that came in first is taken first.
#[derive(Drop)]
pub struct FirstInOutlet<'a> {
    list: FirstIn<'a, Message>,
}

impl<'a> FirstInOutlet<'a> {
    /// An outlet over `slots`, in which nothing waits.
    pub fn new(slots: &'a mut [Message]) -> Self
        ensures nothing { messages result ≡ [] }
        ensures capacity { places result ≡ length slots.old }
    {
        FirstInOutlet {
            list: FirstIn::new(slots),
        }
    }

    /// Lets `m` wait behind the others, if there is room.
    fn push(&mut self, m: Message) -> bool
        ensures answer { result ≡ nat_lt (length (messages self.old)) (places self.old) }
        ensures messages { messages self.new ≡ (if result then messages self.old ++ m ∷ [] else messages self.old) }
        ensures capacity { places self.new ≡ places self.old }
    {
        self.list.push(m)
    }

    /// Hands out the message that waits longest.
    fn pop(&mut self) -> Option<Message>
        ensures answer { result ≡ oldest (messages self.old) }
        ensures messages { messages self.new ≡ drop 1 (messages self.old) }
        ensures capacity { places self.new ≡ places self.old }
    {
        self.list.pop()
    }
}

/// Messages leave in the order in which they came.
impl Outlet for FirstInOutlet<'_> {
    ghost meaning = { meaning };

    ghost sums = { sums_up };

    /// Lets `m` wait behind all others.
    fn offer(&mut self, m: Message) -> bool
        ensures step { Step meaning self.old (Request.Offer m) (offered result) self.new }
        ensures messages { messages self.new ≡ (if result then messages self.old ++ m ∷ [] else messages self.old) }
    {
        self.push(m)
    }

    /// Hands out the message that waits longest.
    fn take(&mut self) -> Option<Message>
        ensures step { Step meaning self.old Request.Take (took result) self.new }
        ensures answer { result ≡ oldest (messages self.old) }
        ensures messages { messages self.new ≡ drop 1 (messages self.old) }
    {
        self.pop()
    }
}
