//! The answers to calls, and how each is written.
ghost use Rattle.std.specs.Fmt.{WritesOnOk};
ghost use Rattle.std.specs.Prelude.{◌++◌, codes};
ghost use Rattle.readout.specs.Lines.{refusal_text};
ghost use Rattle.script.specs.Names.{name_text};
ghost use Rattle.player.specs.Texts.{chain_text};
ghost use Rattle.player.specs.Told.{told, refused_text, text_of};

use crate::chain::write_chain;
use crate::refusal::Refusal;
use crate::texts::{RowText, StateText, StepText, TakenText};
use calls::Step;
use lanes::Lane;
use outlets::Message;
use reach::Line;
use script::Name;
use std::fmt;
use table::Rows;

/// The answer to a call.
#[derive(Drop)]
pub enum Answer {
    /// The chain memory has so many lines now.
    Memory(u32),
    /// An image of so many nodes was loaded.
    Loaded(usize),
    /// The image was written, as these words.
    Wrote(Vec<u32>),
    /// The call was accepted.
    Accepted(Name),
    /// A permit for the pattern was granted.
    Granted(u8),
    /// There is no permit in hand.
    NoPermit(Name),
    /// What a step came to.
    Stepped(Step),
    /// What was taken from the outlet.
    Taken(Option<Message>),
    /// The lane with the number.
    Lane(u32, Lane),
    /// The rows of the block at the place.
    Rows(u32, Rows),
    /// Lanes can come to the place, as the chain shows.
    InReach(Vec<Line>),
    /// Lanes cannot come to the place.
    OutOfReach,
    /// The call was refused; a refusal for reach has its chain.
    Refused(Name, Refusal, Vec<Line>),
}

/// Writes the words of an image.
fn write_words<W: fmt::Write>(f: &mut fmt::Formatter<W>, words: &[u32]) -> fmt::Result {
    let count = words.len();
    write!(f, "write WROTE {count} WORDS")?;
    for word in words {
        write!(f, " {word:08X}")?;
    }
    Ok(())
}

/// Writes a refusal and its chain.
fn write_refused<W: fmt::Write>(
    f: &mut fmt::Formatter<W>,
    name: Name,
    refusal: Refusal,
    chain: &[Line],
) -> fmt::Result
    ensures { WritesOnOk W.Write.write_str_gives f.old result (refused_text name refusal chain.now) f.new }
{
    write!(f, "{name} {refusal}")?;
    write_chain(f, chain)
}

/// Writes that a place is in reach, and the chain that shows it.
fn write_reached<W: fmt::Write>(f: &mut fmt::Formatter<W>, chain: &[Line]) -> fmt::Result
    ensures { WritesOnOk W.Write.write_str_gives f.old result (codes "reach IN" ++ chain_text chain.now) f.new }
{
    write!(f, "reach IN")?;
    write_chain(f, chain)
}

impl fmt::Display for Answer {
    ghost output = { λ answer. text_of (told answer) };

    fn fmt<W: fmt::Write>(&self, f: &mut fmt::Formatter<W>) -> fmt::Result {
        match self {
            Answer::Memory(lines) => write!(f, "memory {lines}"),
            Answer::Loaded(nodes) => write!(f, "load LOADED {nodes} NODES"),
            Answer::Wrote(words) => write_words(f, words.as_slice()),
            Answer::Accepted(name) => write!(f, "{name} ACCEPTED"),
            Answer::Granted(pattern) => write!(f, "check GRANTED {pattern}"),
            Answer::NoPermit(name) => write!(f, "{name} NO PERMIT"),
            Answer::Stepped(step) => {
                let step = StepText { step: *step };
                write!(f, "step {step}")
            }
            Answer::Taken(message) => {
                let taken = TakenText { message: *message };
                write!(f, "take {taken}")
            }
            Answer::Lane(number, lane) => {
                let state = StateText { state: lane.state };
                let sent = lane.sent;
                write!(f, "lane {number} {state} {sent}")
            }
            Answer::Rows(block, rows) => {
                let urgent = RowText { row: rows.urgent };
                let plain = RowText { row: rows.plain };
                write!(f, "row {block} URGENT{urgent} PLAIN{plain}")
            }
            Answer::InReach(chain) => write_reached(f, chain.as_slice()),
            Answer::OutOfReach => write!(f, "reach OUT"),
            Answer::Refused(name, refusal, chain) => {
                write_refused(f, *name, *refusal, chain.as_slice())
            }
        }
    }
}
