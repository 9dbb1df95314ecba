//! Times one verdict on a full table whose chain of grounds is as long as can be.
#![tactic(auto)]

use lanes::LaneCall;
use reach::{Letter, Line, View, into_pattern};
use std::io;
use std::time::Instant;
use table::Table;
use words::{Alternatives, Body, Exit, Node};

/// The pattern of place 0, to which the way is longest.
const LAST: u8 = 2;

/// A block that leads to the place below it, so that the rules stand in the worst order.
fn rung(place: u16) -> Node {
    let next = if place == 0 {
        Exit::End
    } else {
        Exit::Place(place - 1)
    };
    Node {
        pattern: if place == 0 { LAST } else { 1 },
        body: Body::Block {
            next,
            period: 1,
            alternatives: Alternatives::None,
        },
    }
}

/// A full table with a lane at place 511, from which all 512 places are come to one after another.
fn long_way() -> Table {
    let mut nodes = [None; 512];
    for (place, node) in (0..512).zip(&mut nodes) {
        *node = Some(rung(place));
    }
    let mut table = Table::cleared();
    table.nodes = nodes;
    let _ = table.lanes.call(
        0,
        LaneCall::Start {
            place: 511,
            tick: 0,
        },
    );
    table
}

fn main(rt: HostRuntime) -> io::Result<()> {
    let table = long_way();
    let view = View::from(&table);
    let mut chain = [Line::BLANK; 512];
    let before = Instant::now(&rt)?;
    let told = into_pattern(&view, LAST, &mut chain);
    let spent = before.elapsed(&rt)?.as_micros();
    eprintln!(rt; "one verdict took {spent} microseconds")?;
    let last = chain[511];
    let letter = last.letter;
    let first = last.first;
    println!(rt; "told {told:?}, on line 512 {letter:?} from {first}")
}
