//! A player loads images and writes them.
ghost use Rattle.std.specs.Prelude.{◌≡◌, ◌≤◌, min, length, None, IfOk};
ghost use Rattle.image.specs.Nodes.{image_words};
ghost use Rattle.script.specs.Calls.{load as load_said};
ghost use Rattle.player.specs.Alone.{LoadsAlone};
ghost use Rattle.player.specs.Playing.{Plays, write_told};
ghost use Rattle.player.specs.Stages.{stage_of};
ghost use Rattle.player.specs.Told.{told};

use crate::answer::Answer;
use crate::player::Player;
use crate::refusing::refused_plainly;
use outlets::Outlet;
use script::Name;
use std::alloc::AllocError;
use words::Node;

/// How many words a node has at most.
const NODE_WORDS: usize = 6;

/// How many words of the room an image can fill: more memory than the largest one needs changes nothing.
fn useful(nodes: &[Option<Node>; 512], room: usize) -> usize
    ensures value { result ≡ min room 3073 }
    ensures few { length (image_words nodes.now) ≤ 3073 }
{
    room.min(NODE_WORDS * nodes.len() + 1)
}

impl<O: Outlet> Player<O> {
    /// Loads the image of the words. Where no check is open, that is the table's own load.
    pub(crate) fn load(&mut self, words: &[u32]) -> Answer
        ensures alone { (stage_of self.old).table.check ≡ None → LoadsAlone (stage_of self.old).table words.now (told result) (stage_of self.new).table }
        ensures exact { Plays O.Outlet.meaning (stage_of self.old) (load_said words.now) (told result) (stage_of self.new) }
    {
        match self.sequencer.load(words) {
            Ok(nodes) => Answer::Loaded(nodes),
            Err(fault) => refused_plainly(self.heap, Name::Load, fault),
        }
    }

    /// Writes the image of the table into a memory of so many words.
    pub(crate) fn write(&self, room: usize) -> Result<Answer, AllocError>
        ensures { IfOk result (λ answer. told answer ≡ write_told (stage_of self.now).table.nodes room) }
    {
        let size = useful(&self.sequencer.table().nodes, room);
        let mut words = vec![in self.heap; 0; size]?;
        match self.sequencer.write(words.as_mut_slice()) {
            Ok(count) => {
                words.truncate(count);
                Ok(Answer::Wrote(words))
            }
            Err(fault) => Ok(refused_plainly(self.heap, Name::Write, fault)),
        }
    }
}
