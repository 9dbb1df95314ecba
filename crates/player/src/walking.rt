//! A player calls lanes and blocks, and takes messages.
ghost use Rattle.script.specs.Calls.{start as start_said, hold as hold_said, resume as resume_said, abort as abort_said, command as command_said, step as step_said, take as take_said};
ghost use Rattle.player.specs.Playing.{Plays, Played};
ghost use Rattle.player.specs.Stages.{stage_of};
ghost use Rattle.player.specs.Told.{told};

use crate::answer::Answer;
use crate::player::Player;
use crate::refusing::{judged, plain, refused_plainly};
use outlets::Outlet;
use script::Name;
use std::alloc::AllocError;

impl<O: Outlet> Player<O> {
    /// Lets a lane run from a place and a tick on.
    pub(crate) fn start(&mut self, lane: u32, place: u32, tick: u64) -> Result<Answer, AllocError>
        ensures { Played O.Outlet.meaning (stage_of self.old) (start_said lane place tick) result (stage_of self.new) }
    {
        let memory = self.memory.as_mut_slice();
        let answer = self.sequencer.start(lane, place, tick, memory);
        judged(self.heap, Name::Start, answer, self.memory.as_slice())
    }

    /// Stops a lane where it is.
    pub(crate) fn hold(&mut self, lane: u32) -> Answer
        ensures { Plays O.Outlet.meaning (stage_of self.old) (hold_said lane) (told result) (stage_of self.new) }
    {
        plain(self.heap, Name::Hold, self.sequencer.hold(lane))
    }

    /// Lets a held lane run on.
    pub(crate) fn resume(&mut self, lane: u32) -> Answer
        ensures { Plays O.Outlet.meaning (stage_of self.old) (resume_said lane) (told result) (stage_of self.new) }
    {
        plain(self.heap, Name::Resume, self.sequencer.resume(lane))
    }

    /// Makes a lane idle.
    pub(crate) fn abort(&mut self, lane: u32) -> Answer
        ensures { Plays O.Outlet.meaning (stage_of self.old) (abort_said lane) (told result) (stage_of self.new) }
    {
        plain(self.heap, Name::Abort, self.sequencer.abort(lane))
    }

    /// Gives an order or a pass, as a word, to a block.
    pub(crate) fn command(&mut self, block: u32, word: u32) -> Result<Answer, AllocError>
        ensures { Played O.Outlet.meaning (stage_of self.old) (command_said block word) result (stage_of self.new) }
    {
        let memory = self.memory.as_mut_slice();
        let answer = self.sequencer.command(block, word, memory);
        judged(self.heap, Name::Command, answer, self.memory.as_slice())
    }

    /// Makes one step of a lane.
    pub(crate) fn step(&mut self, lane: u32) -> Answer
        ensures { Plays O.Outlet.meaning (stage_of self.old) (step_said lane) (told result) (stage_of self.new) }
    {
        match self.sequencer.step(lane) {
            Ok(step) => Answer::Stepped(step),
            Err(fault) => refused_plainly(self.heap, Name::Step, fault),
        }
    }

    /// Takes a message from the outlet.
    pub(crate) fn take(&mut self) -> Answer
        ensures { Plays O.Outlet.meaning (stage_of self.old) take_said (told result) (stage_of self.new) }
    {
        Answer::Taken(self.sequencer.take())
    }
}
