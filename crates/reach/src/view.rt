//! What decides where lanes can come to, seen as a book of rules.
ghost use Rattle.std.specs.Prelude.{◌≡◌, if◌then◌else◌, None};
ghost use Rattle.lanes.specs.Lanes.{lane_at};
ghost use Rattle.reach.specs.Views.{scene_in};
ghost use Rattle.reach.specs.Scenes.{scene_of, node_in, rows_in};
ghost use Rattle.reach.specs.Book.{state_place, is_block, waiting_place, target_of, flow_place, rule_by, reach_rule};

use crate::conclusion::{flow_place, is_block, next_place, state_place, target_of, waiting_place};
use crate::source::{RULES, Source, numbered};
use lanes::Lanes;
use rows::PlainRow;
use rules::{Book, Rule};
use structure::node_at;
use table::{Rows, Table, rows_in};
use words::Node;

/// Nodes, rows and lanes, side by side: those of a table, or with other lanes that are only tried.
#[derive(Clone, Copy)]
pub struct View<'a> {
    /// The node of each place, if it has one.
    pub nodes: &'a [Option<Node>; 512],
    /// The rows of each place.
    pub rows: &'a [Rows; 512],
    /// The lanes.
    pub lanes: &'a Lanes,
}

/// Where the lane with the number `l` is, if it runs or is held.
fn lane_place(lanes: Lanes, l: u16) -> Option<u16>
    ensures { result ≡ state_place (lane_at lanes l).state }
{
    state_place(lanes.lane(l as usize)?.state)
}

/// A table's own nodes, rows and lanes.
impl<'a> From<&'a Table> for View<'a> {
    ghost from_gives = { λ table view. scene_in view ≡ scene_of table.now };

    fn from(table: &'a Table) -> View<'a> {
        View {
            nodes: &table.nodes,
            rows: &table.rows,
            lanes: &table.lanes,
        }
    }
}

impl View<'_> {
    fn node(&self, place: u16) -> Option<Node>
        ensures { result ≡ node_in (scene_in self.now) place }
    {
        let nodes = self.nodes;
        node_at(nodes, place)
    }

    fn rows_of(&self, place: u16) -> Rows
        ensures { result ≡ rows_in (scene_in self.now) place }
    {
        let rows = self.rows;
        rows_in(rows, place as usize)
    }

    /// Where the entry `k` of a row leads, if the row's place has a block.
    fn queued(&self, place: u16, row: PlainRow, k: u16) -> Option<u16>
        ensures { result ≡ (if is_block (node_in (scene_in self.now) place) then waiting_place row k else None) }
    {
        if is_block(self.node(place)) {
            waiting_place(row, k)
        } else {
            None
        }
    }

    /// The target of the flow at a place; 0 where there is none.
    pub(crate) fn target(&self, place: u16) -> u16
        ensures { result ≡ target_of (node_in (scene_in self.now) place) }
    {
        target_of(self.node(place))
    }

    /// Where the flow at a place orders its target to, if that has a block.
    fn ordered(&self, place: u16) -> Option<u16>
        ensures { result ≡ (if is_block (node_in (scene_in self.now) (target_of (node_in (scene_in self.now) place))) then flow_place (node_in (scene_in self.now) place) else None) }
    {
        if is_block(self.node(self.target(place))) {
            flow_place(self.node(place))
        } else {
            None
        }
    }

    /// The place that a rule gives.
    fn given(&self, source: Source) -> Option<u16>
        ensures { result ≡ (rule_by (scene_in self.now) source).conclusion }
    {
        match source {
            Source::Lane(l) => lane_place(*self.lanes, l),
            Source::Next(place) => next_place(self.node(place)),
            Source::Flow(place) => self.ordered(place),
            Source::Urgent(place, k) => self.queued(place, self.rows_of(place).urgent, k),
            Source::Plain(place, k) => self.queued(place, self.rows_of(place).plain, k),
        }
    }

    /// The rule that speaks of a source.
    fn rule_of(&self, source: Source) -> Rule
        ensures { result ≡ rule_by (scene_in self.now) source }
    {
        let conclusion = self.given(source);
        match source {
            Source::Lane(_) => Rule {
                first: None,
                second: None,
                conclusion,
            },
            Source::Flow(place) => Rule {
                first: Some(place),
                second: Some(self.target(place)),
                conclusion,
            },
            Source::Next(place) | Source::Urgent(place, _) | Source::Plain(place, _) => Rule {
                first: Some(place),
                second: None,
                conclusion,
            },
        }
    }
}

impl Book for View<'_> {
    ghost size = { λ _. 5128 };

    ghost rules = { λ v. reach_rule (scene_in v) };

    fn count(&self) -> usize {
        RULES
    }

    fn rule(&self, i: usize) -> Rule {
        self.rule_of(numbered(i))
    }
}
