//! One word of an image, and the 32 bits that it is written as.
ghost use Rattle.std.specs.Prelude.{◌≡◌, ℕ, ◌+◌, ◌*◌, ◌/◌, ◌%◌, ◌^◌, ◌<◌, ◌≤◌};
ghost use Rattle.words.specs.Format.{read, place_by, exit_by, kind_by, head_in, repeats_in, order_in, pass_in, end_in, written, exit_number, entry_of, entry_as_word};
ghost use Rattle.words.specs.Laws.{ReadsBack, WritesBack};

use crate::fault::Fault;
use crate::node::{Entry, Exit, Order, Pass};

/// How many places a table has.
pub const PLACES: u32 = 512;

/// What stands in a word for the end of the programme.
const END: u32 = 4095;

/// The kinds of nodes, each by the number that a head names it by.
#[derive(Clone, Copy, PartialEq, Eq, Debug)]
pub enum Kind {
    /// A message.
    Message = 1,
    /// A block.
    Block = 2,
    /// A flow.
    Flow = 3,
}

/// What a word of an image says.
#[derive(Clone, Copy, PartialEq, Eq, Debug)]
pub enum Word {
    /// A node begins here.
    Head { kind: Kind, pattern: u8, place: u16 },
    /// The next of the node.
    Next(Exit),
    /// The offset of a message or flow, or the period of a block.
    Time(u32),
    /// The event of a message.
    Event(u32),
    /// An alternative of a block.
    Alternative(Exit),
    /// The target of a flow.
    Target(u16),
    /// An order.
    Order(Order),
    /// A pass.
    Pass(Pass),
    /// The image ends here, after so many nodes.
    End(u16),
}

/// An order or a pass as the word that gives it.
impl From<Entry> for Word {
    ghost from_gives = { λ entry r. r ≡ entry_as_word entry };

    fn from(entry: Entry) -> Word {
        match entry {
            Entry::Order(order) => Word::Order(order),
            Entry::Pass(pass) => Word::Pass(pass),
        }
    }
}

/// The `size` bits of `w` from bit `low` up.
fn field(w: u32, low: u32, size: u32) -> u32
    requires within { low + size ≤ 32 }
    requires some { 0 < size }
    requires few { size < 32 }
    ensures { result ≡ w / 2 ^ low % 2 ^ size }
{
    w >> low & (1 << size) - 1
}

/// The place with the number, if there is one.
fn place_by(number: u32) -> Option<u16>
    ensures { result ≡ place_by number }
{
    if number < PLACES {
        Some(number as u16)
    } else {
        None
    }
}

/// The place with the number, or the end, if the number stands for either.
fn exit_by(number: u32) -> Option<Exit>
    ensures { result ≡ exit_by number }
{
    if number == END {
        return Some(Exit::End);
    }
    place_by(number).map(Exit::Place)
}

// an option and no `TryFrom`, whose error nobody would read
fn kind_by(number: u32) -> Option<Kind>
    ensures { result ≡ kind_by number }
{
    match number {
        1 => Some(Kind::Message),
        2 => Some(Kind::Block),
        3 => Some(Kind::Flow),
        _ => None,
    }
}

fn head_in(w: u32) -> Option<Word>
    ensures { result ≡ head_in w }
{
    let kind = kind_by(field(w, 24, 4))?;
    let place = place_by(field(w, 0, 16))?;
    Some(Word::Head {
        kind,
        pattern: field(w, 16, 8) as u8,
        place,
    })
}

fn repeats_in(w: u32) -> Option<u8>
    ensures { result ≡ repeats_in w }
{
    let repeats = field(w, 20, 8) as u8;
    if repeats > 0 { Some(repeats) } else { None }
}

fn order_in(w: u32) -> Option<Word>
    ensures { result ≡ order_in w }
{
    let repeats = repeats_in(w)?;
    let destination = exit_by(field(w, 0, 18))?;
    Some(Word::Order(Order {
        repeats,
        lasting: field(w, 19, 1) == 1,
        urgent: field(w, 18, 1) == 1,
        destination,
    }))
}

fn pass_in(w: u32) -> Option<Word>
    ensures { result ≡ pass_in w }
{
    let repeats = repeats_in(w)?;
    if field(w, 19, 1) == 0 && field(w, 0, 18) == 0 {
        Some(Word::Pass(Pass {
            repeats,
            urgent: field(w, 18, 1) == 1,
        }))
    } else {
        None
    }
}

fn end_in(w: u32) -> Option<Word>
    ensures { result ≡ end_in w }
{
    let count = field(w, 0, 28);
    if count < 4096 {
        Some(Word::End(count as u16))
    } else {
        None
    }
}

fn word_in(w: u32) -> Option<Word>
    ensures { result ≡ read w }
{
    match w >> 28 {
        1 => head_in(w),
        2 => Some(Word::Next(exit_by(field(w, 0, 28))?)),
        3 => Some(Word::Time(field(w, 0, 28))),
        4 => Some(Word::Event(field(w, 0, 28))),
        5 => Some(Word::Alternative(exit_by(field(w, 0, 28))?)),
        6 => Some(Word::Target(place_by(field(w, 0, 28))?)),
        7 => order_in(w),
        8 => pass_in(w),
        15 => end_in(w),
        _ => None,
    }
}

/// What `w` says, or nothing where it is no word of the format.
/// What is read is written back as `w`, for every `w`.
pub fn decode(w: u32) -> Option<Word>
    ensures value { result ≡ read w }
    ensures writes_back { WritesBack }
{
    word_in(w)
}

fn exit_number(exit: Exit) -> u32
    ensures value { result ≡ exit_number exit }
    ensures bound { result < 2 ^ 12 }
{
    match exit {
        Exit::End => END,
        Exit::Place(place) => field(place as u32, 0, 12),
    }
}

fn bits_of(word: Word) -> u32
    ensures { result ≡ written word }
{
    match word {
        Word::Head {
            kind,
            pattern,
            place,
        } => {
            (1 << 28)
                + ((kind as u32) << 24)
                + ((pattern as u32) << 16)
                + field(place as u32, 0, 12)
        }
        Word::Next(exit) => (2 << 28) + exit_number(exit),
        Word::Time(time) => (3 << 28) + field(time, 0, 28),
        Word::Event(event) => (4 << 28) + field(event, 0, 28),
        Word::Alternative(exit) => (5 << 28) + exit_number(exit),
        Word::Target(place) => (6 << 28) + field(place as u32, 0, 12),
        Word::Order(order) => {
            (7 << 28)
                + ((order.repeats as u32) << 20)
                + ((order.lasting as u32) << 19)
                + ((order.urgent as u32) << 18)
                + exit_number(order.destination)
        }
        Word::Pass(pass) => (8 << 28)
            + ((pass.repeats as u32) << 20)
            + ((pass.urgent as u32) << 18),
        Word::End(count) => (15 << 28) + field(count as u32, 0, 12),
    }
}

/// The 32 bits of a word. Each field is cut to its bits.
/// Allowed fields are read back as they were, for every word.
pub fn encode(word: Word) -> u32
    ensures value { result ≡ written word }
    ensures reads_back { ReadsBack }
{
    bits_of(word)
}

/// The order or pass that a word given alone says. What is wrong with the word is told at position 0.
// No `TryFrom<Word>`, whose error would say less than the fault.
pub fn entry(w: u32) -> Result<Entry, Fault>
    ensures { result ≡ entry_of w }
{
    match word_in(w) {
        Some(Word::Order(order)) => Ok(Entry::Order(order)),
        Some(Word::Pass(pass)) => Ok(Entry::Pass(pass)),
        _ => Err(Fault::BadWord(0)),
    }
}

/// The word that an order or a pass is given by.
pub fn entry_word(entry: Entry) -> u32
    ensures { result ≡ written (entry_as_word entry) }
{
    bits_of(Word::from(entry))
}
