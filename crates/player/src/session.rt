//! A session: a script that is played to its end.
ghost use Rattle.std.specs.Prelude.{◌≡◌, None, IfOk};
ghost use Rattle.std.specs.Fn.{FnReturnsAt};
ghost use Rattle.words.specs.Format.{mapped};
ghost use Rattle.script.specs.Calls.{call_in};
ghost use Rattle.script.specs.Parts.{line_text, parts_of};
ghost use Rattle.player.specs.Sessions.{Understood, OnlySimple, Begins, Quiet, LinePlayed};
ghost use Rattle.player.specs.Stages.{stage_of};
ghost use Rattle.player.specs.Told.{told};

use crate::answer::Answer;
use crate::player::Player;
use outlets::{EarliestDue, FirstInOutlet, Message, Outlet};
use reach::Line;
use script::{Call, Choice, Numbered, OutletKind, Script, chosen_by, parse};
use std::alloc::{AllocError, Global};
use std::io;
use std::io::{BufRead, BufReader};

/// How many lines the longest chain has.
const LINES: u32 = 512;

/// The outlet of a script that chooses none.
const PLAIN: Choice = Choice {
    kind: OutletKind::FirstIn,
    capacity: 16,
};

/// What memory for messages holds before one waits in it.
const VACANT: Message = Message {
    lane: 0,
    event: 0,
    due: 0,
};

/// The call on a line, if the line says one and it is understood.
fn understood<F: Fn(&Call) -> bool>(
    heap: Global,
    line: &Numbered,
    understands: &F,
) -> Result<Option<Call>, AllocError>
    requires { F.IsAlwaysCallable understands.now }
    ensures { IfOk result (λ o. Understood (λ call is. FnReturnsAt F.Fn understands.now call is) (call_in (parts_of (line_text line.now.bytes.items))) o) }
{
    let Some(call) = parse(heap, line.text())? else {
        return Ok(None);
    };
    if understands(&call) {
        Ok(Some(call))
    } else {
        Ok(None)
    }
}

// The runtime, the script, the lines and the closure go from function to function: as fields each method would ask the same of the closure.
// Each call names the closure's type `F`, so that no closure but the one that came can be handed on.

/// A player at the beginning of a session. Its chain memory has as many lines as the longest chain, if a line that asks for so many is
/// understood. Otherwise it has none, and no memory is taken for it.
fn begin<O: Outlet + Drop, F: Fn(&Call) -> bool>(
    heap: Global,
    outlet: O,
    understands: &F,
) -> Result<Player<O>, AllocError>
    requires { F.IsAlwaysCallable understands.now }
    ensures begins { IfOk result (λ player. Begins (λ call is. FnReturnsAt F.Fn understands.now call is) (stage_of player)) }
    ensures outlet { IfOk result (λ player. (stage_of player).outlet ≡ outlet) }
{
    let asked = Call::Memory(LINES);
    let lines = if understands(&asked) { LINES } else { 0 };
    let memory = vec![in heap; Line::BLANK; lines as usize]?;
    Ok(Player::new(heap, outlet, memory))
}

/// Plays the call on a line, and writes its answer.
fn play<O: Outlet, F: Fn(&Call) -> bool>(
    rt: &HostRuntime,
    player: &mut Player<O>,
    line: &Numbered,
    understands: &F,
) -> io::Result<()>
    requires callable { F.IsAlwaysCallable understands.now }
    requires quiet { Quiet (λ call is. FnReturnsAt F.Fn understands.now call is) (stage_of player.old) }
    ensures quiet { Quiet (λ call is. FnReturnsAt F.Fn understands.now call is) (stage_of player.new) }
    ensures line { IfOk result (λ _. LinePlayed O.Outlet.meaning (λ call is. FnReturnsAt F.Fn understands.now call is) (call_in (parts_of (line_text line.now.bytes.items))) (stage_of player.old) (stage_of player.new)) }
{
    match understood::<F>(rt.alloc(), line, understands)? {
        Some(call) => rt.println(player.play(call)?),
        None => {
            let number = line.number;
            println!(rt; "? {number}")
        }
    }
}

/// Plays a script from the beginning of a session on: its first call, if that did not choose the outlet, and then the rest.
fn play_all<R: BufRead, O: Outlet, F: Fn(&Call) -> bool>(
    rt: &HostRuntime,
    script: &mut Script<R>,
    first: Option<Numbered>,
    player: &mut Player<O>,
    understands: &F,
) -> io::Result<()>
    requires callable { F.IsAlwaysCallable understands.now }
    requires begun { Begins (λ call is. FnReturnsAt F.Fn understands.now call is) (stage_of player.old) }
    ensures quiet { Quiet (λ call is. FnReturnsAt F.Fn understands.now call is) (stage_of player.new) }
{
    if let Some(line) = first {
        play::<O, F>(rt, player, &line, understands)?;
    }
    // a reader of input has no end that a measure could count down to
    for _ in 0..u64::MAX {
        match script.call_line(rt.alloc())? {
            Some(line) => play::<O, F>(rt, player, &line, understands)?,
            None => return Ok(()),
        }
    }
    Ok(())
}

/// Writes what was told as the player was finished: nothing, where only simple calls are understood. Of the closure only the contract speaks.
fn end<F: Fn(&Call) -> bool>(
    rt: &HostRuntime,
    last: Option<Answer>,
    _understands: &F,
) -> io::Result<()>
    requires quiet { OnlySimple (λ call is. FnReturnsAt F.Fn _understands.now call is) → mapped told last ≡ None }
{
    match last {
        Some(answer) => rt.println(answer),
        None => Ok(()),
    }
}

/// Plays a script over an outlet. The player is finished also where the script could not be played to its end.
fn play_over<R: BufRead, O: Outlet + Drop, F: Fn(&Call) -> bool>(
    rt: &HostRuntime,
    script: &mut Script<R>,
    first: Option<Numbered>,
    outlet: O,
    understands: &F,
) -> io::Result<()>
    requires { F.IsAlwaysCallable understands.now }
{
    let mut player = begin::<O, F>(rt.alloc(), outlet, understands)?;
    let played = play_all::<R, O, F>(rt, script, first, &mut player, understands);
    let ended = end::<F>(rt, player.finish(), understands);
    played.and(ended)
}

/// Plays a script over the outlet that is chosen.
fn play_chosen<R: BufRead, F: Fn(&Call) -> bool>(
    rt: &HostRuntime,
    script: &mut Script<R>,
    first: Option<Numbered>,
    chosen: Choice,
    understands: &F,
) -> io::Result<()>
    requires { F.IsAlwaysCallable understands.now }
{
    let mut slots = vec![in rt.alloc(); VACANT; chosen.capacity as usize]?;
    let slots = slots.as_mut_slice();
    match chosen.kind {
        OutletKind::FirstIn => {
            play_over::<R, _, F>(rt, script, first, FirstInOutlet::new(slots), understands)
        }
        OutletKind::EarliestDue => {
            play_over::<R, _, F>(rt, script, first, EarliestDue::new(slots), understands)
        }
    }
}

/// Plays the script on the standard input, a call on each line, and writes a line for each call. A call that is not understood is told
/// as a line that says no call. The chain memory has 512 lines at first if the line `memory 512` is understood, and none otherwise.
pub fn rehearse_some<F: Fn(&Call) -> bool>(rt: &HostRuntime, understands: F) -> io::Result<()>
    requires { F.IsAlwaysCallable understands }
{
    let mut script = Script::new(BufReader::new(rt.alloc(), rt.stdin())?);
    let Some(first) = script.call_line(rt.alloc())? else {
        return Ok(());
    };
    match chosen_by(first.text()) {
        Some(chosen) => {
            rt.println(chosen)?;
            play_chosen::<_, F>(rt, &mut script, None, chosen, &understands)
        }
        None => play_chosen::<_, F>(rt, &mut script, Some(first), PLAIN, &understands),
    }
}

/// Plays the script on the standard input, a call on each line, and writes a line for each call.
pub fn rehearse(rt: &HostRuntime) -> io::Result<()> {
    rehearse_some(rt, |_| true)
}
