//! A player looks at lanes, rows and reach, and gives the chain memory its lines.
ghost use Rattle.std.specs.Prelude.{◌≡◌};
ghost use Rattle.table.specs.Changes.{rows_at};
ghost use Rattle.script.specs.Calls.{memory as memory_said, reach as reach_said};
ghost use Rattle.player.specs.Playing.{Played, lane_told, rows_told};
ghost use Rattle.player.specs.Stages.{stage_of};
ghost use Rattle.player.specs.Told.{told};

use crate::answer::Answer;
use crate::chain::chain_to;
use crate::player::Player;
use lanes::{Lane, LaneState};
use outlets::Outlet;
use reach::{Line, View, to_place};
use std::alloc::AllocError;

/// A lane that walks nowhere and has sent nothing.
const IDLE: Lane = Lane {
    state: LaneState::Idle,
    sent: 0,
};

impl<O: Outlet> Player<O> {
    /// Gives the chain memory so many lines.
    pub(crate) fn set_memory(&mut self, lines: u32) -> Result<Answer, AllocError>
        ensures { Played O.Outlet.meaning (stage_of self.old) (memory_said lines) result (stage_of self.new) }
    {
        self.memory = vec![in self.heap; Line::BLANK; lines as usize]?;
        Ok(Answer::Memory(lines))
    }

    /// The lane with the number. One above 7, which no script can name, would be told as idle.
    pub(crate) fn lane(&self, number: u32) -> Answer
        ensures { told result ≡ lane_told (stage_of self.now).table.lanes number }
    {
        let table = self.sequencer.table();
        let lane = table.lanes.lane(number as usize).unwrap_or(IDLE);
        Answer::Lane(number, lane)
    }

    /// The rows of the block. A place above 511, which no script can name, would be told as one where nothing waits.
    pub(crate) fn rows(&self, block: u32) -> Answer
        ensures { told result ≡ rows_told block (rows_at (stage_of self.now).table block) }
    {
        let rows = self.sequencer.table().rows_at(block as usize);
        Answer::Rows(block, rows)
    }

    /// Whether lanes can come to the place, with the chain that shows it.
    pub(crate) fn reach(&mut self, place: u16) -> Result<Answer, AllocError>
        ensures { Played O.Outlet.meaning (stage_of self.old) (reach_said place) result (stage_of self.new) }
    {
        let table = self.sequencer.table();
        let view = View::from(table);
        match to_place(&view, place, self.memory.as_mut_slice()) {
            None => Ok(Answer::OutOfReach),
            Some(place) => Ok(Answer::InReach(chain_to(self.heap, self.memory.as_slice(), place)?)),
        }
    }
}
