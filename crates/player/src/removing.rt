//! A player removes patterns by permits.
ghost use Rattle.std.specs.Prelude.{◌≡◌};
ghost use Rattle.words.specs.Format.{mapped};
ghost use Rattle.script.specs.Calls.{check as check_said, remove as remove_said, release as release_said};
ghost use Rattle.player.specs.Playing.{Plays, Played, end_told};
ghost use Rattle.player.specs.Stages.{stage_of};
ghost use Rattle.player.specs.Told.{told};

use crate::answer::Answer;
use crate::player::Player;
use crate::refusing::refused_with;
use outlets::Outlet;
use script::Name;
use std::alloc::AllocError;

impl<O: Outlet> Player<O> {
    /// Asks for a permit to remove the pattern, and keeps it.
    pub(crate) fn check(&mut self, pattern: u32) -> Result<Answer, AllocError>
        ensures { Played O.Outlet.meaning (stage_of self.old) (check_said pattern) result (stage_of self.new) }
    {
        let memory = self.memory.as_mut_slice();
        match self.sequencer.check(pattern, memory) {
            Ok(permit) => {
                let granted = permit.pattern();
                self.permit = Some(permit);
                Ok(Answer::Granted(granted))
            }
            Err(fault) => refused_with(self.heap, Name::Check, fault, self.memory.as_slice()),
        }
    }

    // `remove` and `release` stand apart: a closure that makes the call would have to say again all that the call says.

    /// Removes the pattern of the permit in hand. It is that of the open check, so that it is not refused.
    pub(crate) fn remove(&mut self) -> Answer
        ensures { Plays O.Outlet.meaning (stage_of self.old) remove_said (told result) (stage_of self.new) }
    {
        match self.permit.take() {
            None => Answer::NoPermit(Name::Remove),
            Some(permit) => match self.sequencer.remove(permit) {
                Ok(()) => Answer::Accepted(Name::Remove),
                Err(_) => unreachable(),
            },
        }
    }

    /// Gives the permit in hand back. It is that of the open check, so that it is not refused.
    pub(crate) fn release(&mut self) -> Answer
        ensures { Plays O.Outlet.meaning (stage_of self.old) release_said (told result) (stage_of self.new) }
    {
        match self.permit.take() {
            None => Answer::NoPermit(Name::Release),
            Some(permit) => match self.sequencer.release(permit) {
                Ok(()) => Answer::Accepted(Name::Release),
                Err(_) => unreachable(),
            },
        }
    }
}

impl<O: Outlet + Drop> Player<O> {
    /// Ends the rehearsal: a permit still in hand is given back, and that is told.
    pub fn finish(self) -> Option<Answer>
        ensures { mapped told result ≡ end_told (stage_of self).table.check }
    {
        let Player {
            heap: _,
            mut sequencer,
            memory: _,
            permit,
        } = self;
        match permit {
            None => None,
            Some(permit) => match sequencer.release(permit) {
                Ok(()) => Some(Answer::Accepted(Name::Release)),
                Err(_) => unreachable(),
            },
        }
    }
}
