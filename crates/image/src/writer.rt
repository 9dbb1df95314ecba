//! The writer of an image: all nodes in rising places, and the end word with their number.
ghost use Rattle.std.specs.Prelude.{◌≡◌, ℕ, ◌+◌, ◌*◌, ◌^◌, ◌<◌, ◌≤◌, length, slice_set, sum_by, count_by, is_some};
ghost use Rattle.words.specs.Format.{written};
ghost use Rattle.image.specs.Nodes.{kind_of, alternative_words, body_words, nodes_words};
ghost use Rattle.image.specs.Reading.{body_size, alternatives_size};
ghost use Rattle.image.specs.Writing.{puts, slot_words, slot_size, write_answer, write_leaves};
ghost use Rattle.image.specs.Laws.{ReadsBack};

use crate::places::TooShort;
use crate::sizes::size;
use words::{Alternatives, Body, Exit, Kind, Node, Word, encode};

fn kind_of(body: Body) -> Kind
    ensures { result ≡ kind_of body }
{
    match body {
        Body::Message { .. } => Kind::Message,
        Body::Block { .. } => Kind::Block,
        Body::Flow { .. } => Kind::Flow,
    }
}

/// How many words the node of a place has, with its head.
fn slot_size(slot: Option<Node>) -> usize
    ensures value { result ≡ slot_size slot }
    ensures bound { result ≤ 6 }
{
    slot.map_or(0, size)
}

/// How many words the nodes of all places have.
#[tactic(auto, using(crate::proofs::Puts::sizes_short))]
fn needed(places: &[Option<Node>; 512]) -> usize
    ensures value { result ≡ sum_by slot_size places.now }
    ensures bound { result ≤ 3072 }
{
    places.iter().map(|slot| slot_size(*slot)).sum()
}

/// How many places have a node.
fn live(places: &[Option<Node>; 512]) -> usize
    ensures value { result ≡ count_by is_some places.now }
    ensures bound { result ≤ 512 }
{
    places.iter().filter(|slot| slot.is_some()).count()
}

/// Where the writer stands in the caller's memory.
// The clauses `named` say that a writer goes on lending the words that it was made over: by them the caller knows what
// the words hold in the end.
#[derive(Drop)]
struct Writer<'a> {
    words: &'a mut [u32],
    position: usize,
}

impl<'a> Writer<'a> {
    /// Writes a word.
    fn put(&mut self, word: Word)
        requires { self.old.position < length self.old.words.now }
        ensures position { self.new.position ≡ self.old.position + 1 }
        ensures words { self.new.words.now ≡ slice_set self.old.words.now self.old.position (written word) }
        ensures named { self.new.words.ghost_name ≡ self.old.words.ghost_name }
    {
        self.words[self.position] = encode(word);
        self.position += 1;
    }

    fn put_alternatives(&mut self, alternatives: Alternatives)
        requires { self.old.position + alternatives_size alternatives ≤ length self.old.words.now }
        ensures position { self.new.position ≡ self.old.position + alternatives_size alternatives }
        ensures words { self.new.words.now ≡ puts self.old.words.now self.old.position (alternative_words alternatives) }
        ensures named { self.new.words.ghost_name ≡ self.old.words.ghost_name }
    {
        match alternatives {
            Alternatives::None => {}
            Alternatives::One(x) => self.put(Word::Alternative(x)),
            Alternatives::Two(x, y) => {
                self.put(Word::Alternative(x));
                self.put(Word::Alternative(y));
            }
            Alternatives::Three(x, y, z) => {
                self.put(Word::Alternative(x));
                self.put(Word::Alternative(y));
                self.put(Word::Alternative(z));
            }
        }
    }

    fn put_body(&mut self, body: Body)
        requires { self.old.position + body_size body ≤ length self.old.words.now }
        ensures position { self.new.position ≡ self.old.position + body_size body }
        ensures words { self.new.words.now ≡ puts self.old.words.now self.old.position (body_words body) }
        ensures named { self.new.words.ghost_name ≡ self.old.words.ghost_name }
    {
        match body {
            Body::Message {
                next,
                offset,
                event,
            } => {
                self.put(Word::Next(Exit::Place(next)));
                self.put(Word::Time(offset));
                self.put(Word::Event(event));
            }
            Body::Block {
                next,
                period,
                alternatives,
            } => {
                self.put(Word::Next(next));
                self.put(Word::Time(period));
                self.put_alternatives(alternatives);
            }
            Body::Flow {
                next,
                offset,
                target,
                order,
            } => {
                self.put(Word::Next(Exit::Place(next)));
                self.put(Word::Time(offset));
                self.put(Word::Target(target));
                self.put(Word::Order(order));
            }
        }
    }

    /// Writes the node of a place, if it has one.
    fn put_slot(&mut self, place: u16, slot: Option<Node>)
        requires { self.old.position + length (slot_words place slot) ≤ length self.old.words.now }
        ensures position { self.new.position ≡ self.old.position + length (slot_words place slot) }
        ensures words { self.new.words.now ≡ puts self.old.words.now self.old.position (slot_words place slot) }
        ensures named { self.new.words.ghost_name ≡ self.old.words.ghost_name }
    {
        if let Some(node) = slot {
            self.put(Word::Head {
                kind: kind_of(node.body),
                pattern: node.pattern,
                place,
            });
            self.put_body(node.body);
        }
    }

    /// Writes the nodes of all places, each with its head.
    #[tactic(auto, using(crate::proofs::Puts::size_more, crate::proofs::Puts::puts_more, crate::proofs::Puts::puts_long))]
    fn put_nodes(&mut self, places: &[Option<Node>; 512])
        requires { self.old.position + length (nodes_words 0 places.now) ≤ length self.old.words.now }
        ensures position { self.new.position ≡ self.old.position + length (nodes_words 0 places.now) }
        ensures words { self.new.words.now ≡ puts self.old.words.now self.old.position (nodes_words 0 places.now) }
        ensures named { self.new.words.ghost_name ≡ self.old.words.ghost_name }
    {
        // the position is the place, and is written
        for (place, slot) in places.iter().enumerate() {
            self.put_slot(place as u16, *slot);
        }
    }
}

#[tactic(auto, using(crate::proofs::Puts::nodes_long, crate::proofs::Puts::image_long, crate::proofs::Puts::puts_long))]
fn write_image(places: &[Option<Node>; 512], words: &mut [u32]) -> Result<usize, TooShort>
    ensures value { result ≡ write_answer places.now (length words.old) }
    ensures after { words.new ≡ write_leaves places.now words.old }
{
    let needed = needed(places) + 1;
    if words.len() < needed {
        return Err(TooShort { needed });
    }
    let mut writer = Writer { words, position: 0 };
    writer.put_nodes(places);
    writer.put(Word::End(live(places) as u16));
    Ok(writer.position)
}

/// Writes all nodes in rising places as an image to the front of `words`, and tells how many words that are.
/// Where `words` has too few, nothing is written, and the number needed is told. Words past the image keep what they held.
#[tactic(auto, using(crate::proofs::Round::written_back))]
pub fn write(places: &[Option<Node>; 512], words: &mut [u32]) -> Result<usize, TooShort>
    ensures value { result ≡ write_answer places.now (length words.old) }
    ensures after { words.new ≡ write_leaves places.now words.old }
    ensures reads_back { ReadsBack places.now result words.new }
{
    write_image(places, words)
}
