//! Answers that tell whether a call was accepted, and why it was refused.
ghost use Rattle.std.specs.Prelude.{◌≡◌, false, is_ok, IfOk, MatchResult};
ghost use Rattle.player.specs.Memory.{chain_of};
ghost use Rattle.player.specs.Playing.{refused_plainly, refused_with, plain_told, judged_told};
ghost use Rattle.player.specs.Told.{told};

use crate::answer::Answer;
use crate::chain::chain_to;
use crate::refusal::Refusal;
use calls::Fault;
use reach::Line;
use script::Name;
use std::alloc::{AllocError, Global};

/// A refusal that has no chain.
pub fn refused_plainly(heap: Global, name: Name, fault: Fault) -> Answer
    ensures { told result ≡ refused_plainly name fault }
{
    Answer::Refused(name, Refusal::of(fault), Vec::new(heap))
}

/// The chain of a refusal for reach, from the memory; every other refusal has none.
fn chain_of(heap: Global, fault: Fault, memory: &[Line]) -> Result<Vec<Line>, AllocError>
    ensures { IfOk result (λ chain. chain.items ≡ chain_of fault memory.now) }
{
    match fault {
        Fault::Below(reach::Fault::Reach(place)) => chain_to(heap, memory, place),
        _ => Ok(Vec::new(heap)),
    }
}

/// A refusal with its chain, if it has one, from the memory.
pub fn refused_with(
    heap: Global,
    name: Name,
    fault: Fault,
    memory: &[Line],
) -> Result<Answer, AllocError>
    ensures { IfOk result (λ answer. told answer ≡ refused_with name fault memory.now) }
{
    let chain = chain_of(heap, fault, memory)?;
    Ok(Answer::Refused(name, Refusal::of(fault), chain))
}

/// The answer to a call that is not judged by reach.
pub fn plain(heap: Global, name: Name, answer: Result<(), Fault>) -> Answer
    ensures { told result ≡ plain_told name answer }
{
    match answer {
        Ok(()) => Answer::Accepted(name),
        Err(fault) => refused_plainly(heap, name, fault),
    }
}

/// The answer to a call that is judged by reach. Only for a refusal there may be too little memory.
pub fn judged(
    heap: Global,
    name: Name,
    answer: Result<(), Fault>,
    memory: &[Line],
) -> Result<Answer, AllocError>
    ensures { MatchResult result (λ it. told it ≡ judged_told name answer memory.now) (λ _. is_ok answer ≡ false) }
{
    match answer {
        Ok(()) => Ok(Answer::Accepted(name)),
        Err(fault) => refused_with(heap, name, fault, memory),
    }
}
