//! What the last line of a chain needs.
ghost use Rattle.std.specs.Prelude.{◌≡◌, ◌≤◌, length};
ghost use Rattle.rules.specs.Chain.{Ends, Leads, lines_of};
ghost use Rattle.rules.specs.Found.{holds};
ghost use Rattle.rules.specs.Laws.{Needs, kept};
ghost use Rattle.rules.specs.Steps.{kept_line};

use super::book::Book;
use super::chain::{Chain, Line};
use super::places::Places;

/// The places that the last line of a chain needs, among them `place`, which it gives.
fn needs<B: Book>(lines: &[Line], book: &B, place: u16) -> Places
    ensures { Ends (B.size book.now) (B.rules book.now) lines.now place → Needs (B.rules book.now) lines.now place (holds result) }
{
    let mut needed = Places::none();
    needed.add(place);
    // a line is needed by later ones only, so these come first
    for line in lines.iter().rev() {
        needed.want(line.place, book.rule(line.rule));
    }
    needed
}

/// Puts a line at the end of a chain, where its place is needed.
fn keep(chain: &mut Chain, line: Line, needed: &Places)
    ensures { chain.new ≡ kept_line needed.now chain.old line }
{
    if needed.has(line.place) {
        chain.push(line);
    }
}

/// The lines whose place is needed.
fn keep_all(lines: &[Line], needed: &Places) -> Chain
    requires { length lines.now ≤ 512 }
    ensures { lines_of result ≡ kept (holds needed.now) lines.now }
{
    let mut chain = Chain::empty();
    for line in lines {
        keep(&mut chain, *line, needed);
    }
    chain
}

/// Of a chain that ends on `place` the lines that its last line needs, with that line.
pub fn narrow<B: Book>(lines: &[Line], book: &B, place: u16) -> Chain
    requires { length lines.now ≤ 512 }
    ensures { Ends (B.size book.now) (B.rules book.now) lines.now place → Leads (B.size book.now) (B.rules book.now) (lines_of result) place }
{
    let needed = needs(lines, book, place);
    keep_all(lines, &needed)
}
