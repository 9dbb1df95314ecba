//! What is asked of an outlet, and what comes of it.
ghost use Rattle.std.specs.Prelude.{◌≡◌};
ghost use Rattle.outlets.specs.Replies.{offered, took};

use crate::message::Message;

/// What is asked of an outlet.
#[derive(Clone, Copy)]
pub enum Request {
    /// To hand out a message.
    Take,
    /// To let a message wait.
    Offer(Message),
}

/// What came of a request.
// One type for both requests, so that the replies to a list of requests are a list; a `Result<Option<Message>, _>` would
// give an offer and a take the same `Ok(None)`.
#[derive(Clone, Copy)]
pub enum Reply {
    /// None waits that could be taken.
    Nothing,
    /// The message was taken.
    Took(Message),
    /// The message offered waits now.
    Accepted,
    /// There is no room for the message offered.
    Refused,
}

// Two constructors by name and no `From`: a `bool` does not say what is true.
impl Reply {
    /// What came of an offer, by what `offer` said.
    pub fn to_offer(accepted: bool) -> Reply
        ensures { result ≡ offered accepted }
    {
        if accepted {
            Reply::Accepted
        } else {
            Reply::Refused
        }
    }

    /// What came of a take, by what `take` gave.
    pub fn to_take(taken: Option<Message>) -> Reply
        ensures { result ≡ took taken }
    {
        match taken {
            Some(m) => Reply::Took(m),
            None => Reply::Nothing,
        }
    }
}
