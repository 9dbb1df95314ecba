//! A player makes the calls of a script.
ghost use Rattle.std.specs.Prelude.{◌≡◌, true, None, IfOk};
ghost use Rattle.table.specs.Tables.{cleared};
ghost use Rattle.script.specs.Calls.{said};
ghost use Rattle.player.specs.Alone.{simple, PlaysAlone};
ghost use Rattle.player.specs.Playing.{Played};
ghost use Rattle.player.specs.Stages.{stage_of};
ghost use Rattle.player.specs.Told.{told};

use crate::answer::Answer;
use crate::player::Player;
use outlets::Outlet;
use reach::Line;
use script::Call;
use sequencer::Sequencer;
use std::alloc::{AllocError, Global};

impl<O: Outlet> Player<O> {
    /// A player with a cleared table.
    pub fn new(heap: Global, outlet: O, memory: Vec<Line>) -> Player<O>
        ensures { (result.sequencer.table ≡ cleared) × ((result.sequencer.outlet ≡ outlet) × (result.memory ≡ memory)) }
    {
        Player {
            heap,
            sequencer: Sequencer::new(outlet),
            memory,
            permit: None,
        }
    }

    /// Makes a call. While no check is open, a load is the table's own, and no simple call opens one; nor does such a call change the chain
    /// memory.
    pub fn play(&mut self, call: Call) -> Result<Answer, AllocError>
        ensures exact { Played O.Outlet.meaning (stage_of self.old) (said call) result (stage_of self.new) }
        ensures alone { (stage_of self.old).table.check ≡ None → IfOk result (λ answer. PlaysAlone (stage_of self.old).table (said call) (told answer) (stage_of self.new).table) }
        ensures simple { simple (said call) ≡ true → (stage_of self.old).table.check ≡ None → ((stage_of self.new).table.check ≡ None) × ((stage_of self.new).memory ≡ (stage_of self.old).memory) }
    {
        match call {
            Call::Memory(lines) => self.set_memory(lines),
            Call::Load(words) => Ok(self.load(words.as_slice())),
            Call::Write(room) => self.write(room as usize),
            Call::Start { lane, place, tick } => self.start(lane, place, tick),
            Call::Hold(lane) => Ok(self.hold(lane)),
            Call::Resume(lane) => Ok(self.resume(lane)),
            Call::Abort(lane) => Ok(self.abort(lane)),
            Call::Command { block, word } => self.command(block, word),
            Call::Check(pattern) => self.check(pattern),
            Call::Remove => Ok(self.remove()),
            Call::Release => Ok(self.release()),
            Call::Step(lane) => Ok(self.step(lane)),
            Call::Take => Ok(self.take()),
            Call::Lane(number) => Ok(self.lane(number)),
            Call::Reach(place) => self.reach(place),
            Call::Row(block) => Ok(self.rows(block)),
        }
    }
}
