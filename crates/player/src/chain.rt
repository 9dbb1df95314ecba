//! Chains of grounds in a memory, and how they are written.
ghost use Rattle.std.specs.Prelude.{◌≡◌, ◌==◌, ◌<◌, ◌≤◌, List, ◌++◌, length, take, position, IfOk, IfSome, Some};
ghost use Rattle.std.specs.Fmt.{WritesOnOk};
ghost use Rattle.reach.specs.declared.line.Line.{Line};
ghost use Rattle.reach.specs.Chains.{Ends};
ghost use Rattle.reach.specs.Scenes.{Scene};
ghost use Rattle.player.specs.Memory.{until};
ghost use Rattle.player.specs.Texts.{letter_text, ground_text, chain_text};

use reach::{Letter, Line};
use std::alloc::{AllocError, Global};
use std::fmt;

fn letter_text(letter: Letter) -> &'static str
    ensures { result.now ≡ letter_text letter }
{
    match letter {
        Letter::Lane => "L",
        Letter::Next => "N",
        Letter::Queue => "Q",
        Letter::Flow => "F",
    }
}

/// A line of a chain.
#[derive(Clone, Copy)]
pub struct GroundText {
    pub line: Line,
}

impl fmt::Display for GroundText {
    ghost output = { λ s. Some (ground_text s.line) };

    fn fmt<W: fmt::Write>(&self, f: &mut fmt::Formatter<W>) -> fmt::Result {
        let place = self.line.place;
        let letter = letter_text(self.line.letter);
        let first = self.line.first;
        let second = self.line.second;
        write!(f, "{place} {letter} {first} {second}")
    }
}

/// Writes the lines of a chain, each on a line of its own.
pub fn write_chain<W: fmt::Write>(f: &mut fmt::Formatter<W>, chain: &[Line]) -> fmt::Result
    ensures { WritesOnOk W.Write.write_str_gives f.old result (chain_text chain.now) f.new }
{
    for one in chain {
        let ground = GroundText { line: *one };
        write!(f, "\n  {ground}")?;
    }
    Ok(())
}

/// Where the first line of the place stands in a memory.
fn line_of(memory: &[Line], place: u16) -> Option<usize>
    ensures value { result ≡ position (λ (l : Line). l.place == place) memory.now }
    ensures bound { IfSome result (λ i. i < length memory.now) }
{
    memory.iter().position(|line| line.place == place)
}

/// How many lines of a memory there are up to that of the place.
fn lines_until(memory: &[Line], place: u16) -> usize
    ensures value { take result memory.now ≡ until place memory.now }
    ensures bound { result ≤ length memory.now }
{
    match line_of(memory, place) {
        Some(i) => i + 1,
        None => memory.len(),
    }
}

/// The chain in a memory that ends on the place: the lines up to that of the place. Where a lawful chain that ends on the place
/// stands in the memory, from its first line on, that chain comes, whole and with nothing behind it.
pub fn chain_to(heap: Global, memory: &[Line], place: u16) -> Result<Vec<Line>, AllocError>
    ensures lines { IfOk result (λ chain. chain.items ≡ until place memory.now) }
    ensures whole { (s : Scene) (c rest : List Line) → Ends s c place → memory.now ≡ c ++ rest → IfOk result (λ chain. chain.items ≡ c) }
{
    let count = lines_until(memory, place);
    memory[0..count].iter().copied().collect(heap)
}
