//! The reader of an image: it walks over the words in the caller's memory and keeps its position for faults.
ghost use Rattle.std.specs.Prelude.{◌≡◌, ℕ, ◌+◌, ◌-◌, ◌^◌, ◌<◌, ◌≤◌, Bool, true, false, length, drop, if◌then◌else◌, is_some, IfOk, IfSome};
ghost use Rattle.image.specs.Reading.{place_of, exit_of, time_of, period_of, event_of, target_of, order_of, alternative_of, alternative_in, fresh, message_of, queued_of, flow_of, block_of, alternatives_of, rest_of, cut_of, body_of, body_size, end_of, node_of, part_size, above, read_image};
ghost use Rattle.image.specs.Laws.{Accepts, Refuses, WritesBack};

use crate::places::Image;
use crate::sizes::size;
use words::{Alternatives, Body, Exit, Fault, Kind, Node, Order, Word, decode};

/// A node and the place that its head names.
#[derive(Clone, Copy)]
struct Placed {
    place: u16,
    node: Node,
}

/// Where the reader stands in the words of an image, and what it has passed.
#[derive(Drop)]
struct Reader<'a> {
    words: &'a [u32],
    position: usize,
    // The least place that the next head may name: one above the last.
    floor: u16,
    // How many nodes were passed.
    count: usize,
    ghost inside: { position ≤ length words.now },
    ghost counted: { count ≤ floor },
    ghost low: { floor ≤ 512 },
}

// A function for each part of a node, since which variant is wanted cannot be a parameter.

/// The exit that `w` says where a next is wanted.
fn exit_of(w: u32) -> Option<Exit>
    ensures { result ≡ exit_of w }
{
    match decode(w) {
        Some(Word::Next(exit)) => Some(exit),
        _ => None,
    }
}

/// The place that `w` says where a next is wanted that is not the end.
fn place_of(w: u32) -> Option<u16>
    ensures { result ≡ place_of w }
{
    match exit_of(w) {
        Some(Exit::Place(place)) => Some(place),
        _ => None,
    }
}

/// The number of ticks that `w` says where a time is wanted.
fn time_of(w: u32) -> Option<u32>
    ensures { result ≡ time_of w }
{
    match decode(w) {
        Some(Word::Time(time)) => Some(time),
        _ => None,
    }
}

/// The period that `w` says, which is one tick at least.
fn period_of(w: u32) -> Option<u32>
    ensures { result ≡ period_of w }
{
    time_of(w).filter(|time| *time > 0)
}

/// The event that `w` says where one is wanted.
fn event_of(w: u32) -> Option<u32>
    ensures { result ≡ event_of w }
{
    match decode(w) {
        Some(Word::Event(event)) => Some(event),
        _ => None,
    }
}

/// The target that `w` says where one is wanted.
fn target_of(w: u32) -> Option<u16>
    ensures { result ≡ target_of w }
{
    match decode(w) {
        Some(Word::Target(target)) => Some(target),
        _ => None,
    }
}

/// The order that `w` says where one is wanted.
fn order_of(w: u32) -> Option<Order>
    ensures { result ≡ order_of w }
{
    match decode(w) {
        Some(Word::Order(order)) => Some(order),
        _ => None,
    }
}

/// The alternative that `w` says, if it says one.
fn alternative_of(w: u32) -> Option<Exit>
    ensures { result ≡ alternative_of w }
{
    match decode(w) {
        Some(Word::Alternative(exit)) => Some(exit),
        _ => None,
    }
}

/// The alternative that is word `i` of `words`, if there is one.
fn alternative_in(words: &[u32], i: usize) -> Option<Exit>
    ensures { result ≡ alternative_in words.now i }
{
    words.get(i).and_then(|word| alternative_of(*word))
}

/// The alternative that is word `i` of `words`, if there is one; it must be none of the known exits.
fn fresh(words: &[u32], i: usize, known: &[Exit], at: usize) -> Result<Option<Exit>, Fault>
    ensures { result ≡ fresh known.now at (alternative_in words.now i) }
{
    match alternative_in(words, i) {
        Some(x) if known.contains(&x) => Err(Fault::BadWord(at)),
        found => Ok(found),
    }
}

/// Up to three alternatives at the front of `words`, all different from each other and from the next.
fn alternatives(words: &[u32], at: usize, next: Exit) -> Result<Alternatives, Fault>
    requires { at + length words.now < 2 ^ 64 }
    ensures { result ≡ alternatives_of words.now at next }
{
    let Some(x) = fresh(words, 0, &[next], at)? else {
        return Ok(Alternatives::None);
    };
    let Some(y) = fresh(words, 1, &[next, x], at + 1)? else {
        return Ok(Alternatives::One(x));
    };
    match fresh(words, 2, &[next, x, y], at + 1 + 1)? {
        None => Ok(Alternatives::Two(x, y)),
        Some(z) => Ok(Alternatives::Three(x, y, z)),
    }
}

/// A message: its next, its offset and, at the front of the rest, its event.
fn message(next: u32, time: u32, rest: &[u32], at: usize) -> Result<Body, Fault>
    requires { at + 2 + length rest.now < 2 ^ 64 }
    ensures { result ≡ message_of next time rest.now at }
{
    let next = place_of(next).ok_or(Fault::BadWord(at))?;
    let offset = time_of(time).ok_or(Fault::BadWord(at + 1))?;
    let [event, ..] = rest else {
        return Err(Fault::Ragged(at + 1 + 1));
    };
    let event = event_of(*event).ok_or(Fault::BadWord(at + 1 + 1))?;
    Ok(Body::Message {
        next,
        offset,
        event,
    })
}

/// A block: its next, its period and, at the front of the rest, its alternatives.
fn block(next: u32, time: u32, rest: &[u32], at: usize) -> Result<Body, Fault>
    requires { at + 2 + length rest.now < 2 ^ 64 }
    ensures { result ≡ block_of next time rest.now at }
{
    let next = exit_of(next).ok_or(Fault::BadWord(at))?;
    let period = period_of(time).ok_or(Fault::BadWord(at + 1))?;
    let alternatives = alternatives(rest, at + 1 + 1, next)?;
    Ok(Body::Block {
        next,
        period,
        alternatives,
    })
}

/// The target and the order of a flow, at the front of `words`.
fn queued(words: &[u32], at: usize) -> Result<(u16, Order), Fault>
    requires { at + length words.now < 2 ^ 64 }
    ensures { result ≡ queued_of words.now at }
{
    match words {
        [target, order, ..] => {
            let target = target_of(*target).ok_or(Fault::BadWord(at))?;
            let order = order_of(*order).ok_or(Fault::BadWord(at + 1))?;
            Ok((target, order))
        }
        [target] => {
            target_of(*target).ok_or(Fault::BadWord(at))?;
            Err(Fault::Ragged(at + 1))
        }
        [] => Err(Fault::Ragged(at)),
    }
}

/// A flow: its next, its offset and, at the front of the rest, its target and its order.
fn flow(next: u32, time: u32, rest: &[u32], at: usize) -> Result<Body, Fault>
    requires { at + 2 + length rest.now < 2 ^ 64 }
    ensures { result ≡ flow_of next time rest.now at }
{
    let next = place_of(next).ok_or(Fault::BadWord(at))?;
    let offset = time_of(time).ok_or(Fault::BadWord(at + 1))?;
    let (target, order) = queued(rest, at + 1 + 1)?;
    Ok(Body::Flow {
        next,
        offset,
        target,
        order,
    })
}

/// A node whose last word is its next: what is wrong with the next comes first.
fn cut(kind: Kind, next: u32, at: usize) -> Result<Body, Fault>
    requires { at + 1 < 2 ^ 64 }
    ensures { result ≡ cut_of kind next at }
{
    match kind {
        Kind::Message | Kind::Flow => {
            place_of(next).ok_or(Fault::BadWord(at))?;
        }
        Kind::Block => {
            exit_of(next).ok_or(Fault::BadWord(at))?;
        }
    }
    Err(Fault::Ragged(at + 1))
}

/// The words after a head: the next, the time and the rest, which the kind decides.
#[tactic(auto, using(std::proofs::lemmas::List::take_rest))]
fn body(kind: Kind, words: &[u32], at: usize) -> Result<Body, Fault>
    requires { at + length words.now < 2 ^ 64 }
    ensures { result ≡ body_of kind words.now at }
{
    match words {
        [next, time, rest @ ..] => match kind {
            Kind::Message => message(*next, *time, rest, at),
            Kind::Block => block(*next, *time, rest, at),
            Kind::Flow => flow(*next, *time, rest, at),
        },
        [next] => cut(kind, *next, at),
        [] => Err(Fault::Ragged(at)),
    }
}

impl<'a> Reader<'a> {
    fn new(words: &'a [u32]) -> Reader<'a>
        ensures words { result.words.now ≡ words.now }
        ensures position { result.position ≡ 0 }
        ensures floor { result.floor ≡ 0 }
        ensures count { result.count ≡ 0 }
    {
        Reader {
            words,
            position: 0,
            floor: 0,
            count: 0,
        }
    }

    /// The end word here, with its number of nodes: nothing may follow it.
    fn end(&self, nodes: u16, after: &[u32]) -> Result<Option<Placed>, Fault>
        requires { self.now.position + 1 < 2 ^ 64 }
        ensures { result ≡ end_of (length after.now) self.now.position self.now.count nodes }
    {
        if nodes as usize != self.count {
            return Err(Fault::Ragged(self.position));
        }
        if !after.is_empty() {
            return Err(Fault::Ragged(self.position + 1));
        }
        Ok(None)
    }

    /// The node here, or nothing at the end word.
    #[tactic(auto, using(std::proofs::lemmas::List::take_rest))]
    fn part(&self) -> Result<Option<Placed>, Fault>
        ensures value { result ≡ node_of (drop self.now.position self.now.words.now) self.now.position self.now.floor self.now.count }
        ensures within { IfOk result (λ o. self.now.position + part_size o ≤ length self.now.words.now) }
        ensures placed { IfOk result (above self.now.floor) }
    {
        let at = self.position;
        let [first, after @ ..] = &self.words[at..] else {
            return Err(Fault::Ragged(at));
        };
        match decode(*first) {
            Some(
                Word::Head {
                    kind,
                    pattern,
                    place,
                },
            ) => {
                if place < self.floor {
                    return Err(Fault::NotRising(at));
                }
                let body = body(kind, after, at + 1)?;
                Ok(Some(Placed {
                    place,
                    node: Node { pattern, body },
                }))
            }
            Some(Word::End(nodes)) => self.end(nodes, after),
            _ => Err(Fault::BadWord(at)),
        }
    }

    /// The node here, which is passed, or nothing at the end word.
    fn node(&mut self) -> Result<Option<Placed>, Fault>
        ensures value { result ≡ node_of (drop self.old.position self.old.words.now) self.old.position self.old.floor self.old.count }
        ensures same { self.new.words ≡ self.old.words }
        ensures position { IfOk result (λ o. IfSome o (λ p. self.new.position ≡ self.old.position + part_size (Some p))) }
        ensures floor { IfOk result (λ o. IfSome o (λ p. self.new.floor ≡ p.place + 1)) }
        ensures count { IfOk result (λ o. self.new.count ≡ (if is_some o then self.old.count + 1 else self.old.count)) }
        ensures placed { IfOk result (above self.old.floor) }
    {
        let part = self.part()?;
        if let Some(placed) = part {
            self.position += size(placed.node);
            self.floor = placed.place + 1;
            self.count += 1;
        }
        Ok(part)
    }
}

/// The nodes of an image, each at its place.
#[tactic(auto, unfolding(crate::specs::Reading::read_image))]
fn read_nodes(words: &[u32]) -> Result<Image, Fault>
    ensures { result ≡ read_image words.now }
{
    let mut reader = Reader::new(words);
    let mut places = [None; 512];
    while let Some(placed) = reader.node()? {
        places[placed.place as usize] = Some(placed.node);
    }
    Ok(Image {
        places,
        nodes: reader.count,
    })
}

/// Reads an image: what it gives for each place, or the first position at which something is wrong.
pub fn read(words: &[u32]) -> Result<Image, Fault>
    ensures value { result ≡ read_image words.now }
    ensures accepts { Accepts words.now result }
    ensures refuses { Refuses words.now result }
    ensures writes_back { WritesBack words.now result }
{
    read_nodes(words)
}
