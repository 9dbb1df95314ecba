//! The calls of a script, as its lines give them.
ghost use Rattle.std.specs.Prelude.{◌≡◌, IfOk, Some, None, MatchOption, ◌≢◌};
ghost use Rattle.words.specs.Format.{when, mapped};
ghost use Rattle.script.specs.Calls.{said, remark, alone, only_in, words_in, argument_in, below_in, start_in, command_in, call_of, call_in, load as load_said};
ghost use Rattle.script.specs.Parts.{parts_of};

use crate::name::{Name, name_of};
use crate::number::{decimal, hexadecimal, long_decimal};
use crate::parts::Parts;
use std::alloc::{AllocError, Global};
use words::PLACES;

/// How many lanes there are.
const LANES: u32 = 8;

/// A script may ask for less memory than this, counted in messages or lines.
pub const LIMIT: u32 = 65537;

/// A call.
#[derive(Drop)]
pub enum Call {
    /// Gives the chain memory so many lines.
    Memory(u32),
    /// Loads the image of these words.
    Load(Vec<u32>),
    /// Writes the image of what is held into a memory of so many words.
    Write(u32),
    /// Lets a lane run from a place and a tick on.
    Start { lane: u32, place: u32, tick: u64 },
    /// Stops a lane where it is.
    Hold(u32),
    /// Lets a held lane run on.
    Resume(u32),
    /// Makes a lane idle.
    Abort(u32),
    /// Gives an order or a pass, as a word, to a block.
    Command { block: u32, word: u32 },
    /// Asks for a permit to remove the pattern.
    Check(u32),
    /// Removes the pattern of the permit in hand.
    Remove,
    /// Gives the permit in hand back.
    Release,
    /// Makes one step of a lane.
    Step(u32),
    /// Takes a message from the outlet.
    Take,
    /// Asks what the lane with the number is doing.
    Lane(u32),
    /// Asks whether lanes can come to the place.
    Reach(u16),
    /// Asks what waits in the rows of the block at the place.
    Row(u32),
}

/// Whether the line is no call, but empty or a remark.
pub fn is_remark(line: &[u8]) -> bool
    ensures { result ≡ remark (parts_of line.now) }
{
    match Parts::of(line).next() {
        None | Some([b'#', ..]) => true,
        _ => false,
    }
}

fn load(heap: Global, parts: Parts) -> Result<Option<Call>, AllocError>
    ensures { IfOk result (λ o. mapped said o ≡ mapped load_said (words_in (parts_of parts.entry.rest.now))) }
{
    let mut words = Vec::new(heap);
    for part in parts {
        let Some(word) = hexadecimal(part) else {
            return Ok(None);
        };
        words.push(word)?;
    }
    Ok(Some(Call::Load(words)))
}

/// The one part that is left.
fn only<'a>(mut parts: Parts<'a>) -> Option<&'a [u8]>
    ensures { MatchOption result (only_in (parts_of parts.entry.rest.now) ≡ None) (λ part. only_in (parts_of parts.entry.rest.now) ≡ Some part.now) }
{
    let part = parts.next()?;
    match parts.next() {
        None => Some(part),
        Some(_) => None,
    }
}

/// The one part that is left, as a number.
fn argument(parts: Parts) -> Option<u32>
    ensures { result ≡ argument_in 32 (parts_of parts.entry.rest.now) }
{
    decimal(only(parts)?)
}

/// The one part that is left, as a number below the limit.
pub fn below(parts: Parts, limit: u32) -> Option<u32>
    ensures { result ≡ below_in limit (parts_of parts.entry.rest.now) }
{
    let number = argument(parts)?;
    if number < limit { Some(number) } else { None }
}

/// The one part that is left, as a place.
fn place(parts: Parts) -> Option<u16>
    ensures { result ≡ below_in 512 (parts_of parts.entry.rest.now) }
{
    u16::try_from(below(parts, PLACES)?).ok()
}

/// The call, where no part is left.
fn bare(mut parts: Parts, call: Call) -> Option<Call>
    ensures { mapped said result ≡ when (alone (parts_of parts.entry.rest.now)) (said call) }
{
    match parts.next() {
        None => Some(call),
        Some(_) => None,
    }
}

fn start(mut parts: Parts) -> Option<Call>
    ensures { mapped said result ≡ start_in (parts_of parts.entry.rest.now) }
{
    let lane = decimal(parts.next()?)?;
    let place = decimal(parts.next()?)?;
    let tick = long_decimal(only(parts)?)?;
    Some(Call::Start { lane, place, tick })
}

fn command(mut parts: Parts) -> Option<Call>
    ensures { mapped said result ≡ command_in (parts_of parts.entry.rest.now) }
{
    let block = decimal(parts.next()?)?;
    let word = hexadecimal(only(parts)?)?;
    Some(Call::Command { block, word })
}

/// The call with the name and the parts after it, for every name but `load`, which takes memory for its words.
fn short_call(name: Name, parts: Parts) -> Option<Call>
    requires { name ≢ Name.Load }
    ensures { mapped said result ≡ call_of name (parts_of parts.entry.rest.now) }
{
    match name {
        Name::Memory => Some(Call::Memory(below(parts, LIMIT)?)),
        Name::Load => unreachable(),
        Name::Write => Some(Call::Write(argument(parts)?)),
        Name::Start => start(parts),
        Name::Hold => Some(Call::Hold(argument(parts)?)),
        Name::Resume => Some(Call::Resume(argument(parts)?)),
        Name::Abort => Some(Call::Abort(argument(parts)?)),
        Name::Command => command(parts),
        Name::Check => Some(Call::Check(argument(parts)?)),
        Name::Remove => bare(parts, Call::Remove),
        Name::Release => bare(parts, Call::Release),
        Name::Step => Some(Call::Step(argument(parts)?)),
        Name::Take => bare(parts, Call::Take),
        Name::Lane => Some(Call::Lane(below(parts, LANES)?)),
        Name::Reach => Some(Call::Reach(place(parts)?)),
        Name::Row => Some(Call::Row(below(parts, PLACES)?)),
    }
}

/// The call with the name and the parts after it.
fn call_of(heap: Global, name: Name, parts: Parts) -> Result<Option<Call>, AllocError>
    ensures { IfOk result (λ o. mapped said o ≡ call_of name (parts_of parts.entry.rest.now)) }
{
    match name {
        Name::Load => load(heap, parts),
        _ => Ok(short_call(name, parts)),
    }
}

/// The call on a line, or nothing where the line gives none.
pub fn parse(heap: Global, line: &[u8]) -> Result<Option<Call>, AllocError>
    ensures { IfOk result (λ o. mapped said o ≡ call_in (parts_of line.now)) }
{
    let mut parts = Parts::of(line);
    let Some(part) = parts.next() else {
        return Ok(None);
    };
    match name_of(part) {
        None => Ok(None),
        Some(name) => call_of(heap, name, parts),
    }
}
