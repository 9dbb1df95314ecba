//! Chains of rules, written as chains of grounds.
ghost use Rattle.std.specs.Prelude.{◌≡◌, map};
ghost use Rattle.reach.specs.Views.{scene_in};
ghost use Rattle.reach.specs.Verdicts.{with_chain};
ghost use Rattle.reach.specs.Book.{line_by, line_of};

use crate::line::{Letter, Line};
use crate::source::{Source, numbered};
use crate::view::View;

/// The line that says that a place is come to by a source.
fn line_by(view: &View, source: Source, place: u16) -> Line
    ensures { result ≡ line_by (scene_in view.now) source place }
{
    match source {
        Source::Lane(l) => Line {
            place,
            letter: Letter::Lane,
            first: l,
            second: 0,
        },
        Source::Next(at) => Line {
            place,
            letter: Letter::Next,
            first: at,
            second: 0,
        },
        Source::Flow(at) => Line {
            place,
            letter: Letter::Flow,
            first: at,
            second: view.target(at),
        },
        Source::Urgent(at, _) | Source::Plain(at, _) => Line {
            place,
            letter: Letter::Queue,
            first: at,
            second: 0,
        },
    }
}

fn line_of(view: &View, line: rules::Line) -> Line
    ensures { result ≡ line_of (scene_in view.now) line }
{
    line_by(view, numbered(line.rule), line.place)
}

/// Writes a chain of rules as a chain of grounds, from the first line of the memory on, as far as that goes. Later
/// lines keep what they held.
pub(crate) fn gather(view: &View, lines: &[rules::Line], chain: &mut [Line])
    ensures { chain.new ≡ with_chain chain.old (map (line_of (scene_in view.now)) lines.now) }
{
    let _ = first_in::gather(chain, lines, |line| line_of(view, line));
}
