//! The player of a script: what it holds between calls.
ghost use Rattle.std.specs.Prelude.{◌≡◌, true};
ghost use Rattle.player.specs.Permits.{of_check};

use calls::Permit;
use reach::Line;
use sequencer::Sequencer;
use std::alloc::Global;

/// What is held: a sequencer, the lines of the chain memory, and the permit of the open check, if one is open; and where memory for
/// answers is asked for. A permit cannot be let go, so neither can a player: it is finished.
pub struct Player<O> {
    pub(crate) heap: Global,
    pub(crate) sequencer: Sequencer<O>,
    pub(crate) memory: Vec<Line>,
    pub(crate) permit: Option<Permit>,
    ghost held: { of_check permit sequencer.table.check ≡ true },
}
