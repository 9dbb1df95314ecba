//! What every outlet means: how often each message waits, before and after a call.
ghost use Rattle.outlets.specs.Meaning.{InAll, Meaning, Step};
ghost use Rattle.outlets.specs.Replies.{offered, took};

use crate::message::Message;
use crate::request::Request;

/// A place where messages wait between those who offer and those who take.
pub trait Outlet {
    /// How often each message waits, how many wait in all, and how many can wait at once. The last never changes.
    ghost meaning: { Meaning Self };

    /// That the numbers of the single messages add up to the number of all.
    ghost sums: { (o : Self) → InAll (meaning.waits o) (meaning.total o) };

    /// Lets `m` wait and answers true, or answers false where as many wait as can.
    fn offer(&mut self, m: Message) -> bool
        ensures { Step meaning self.old (Request.Offer m) (offered result) self.new };

    /// Hands out a message that waits, or nothing where none does.
    fn take(&mut self) -> Option<Message>
        ensures { Step meaning self.old Request.Take (took result) self.new };
}
