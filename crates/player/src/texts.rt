//! How lanes, waiting entries, steps and messages are written. Each text is a wrapper of its own, since its words stand in what is printed
//! and not where its type is declared.
ghost use Rattle.std.specs.Prelude.{take, Some};
ghost use Rattle.std.specs.Fmt.{WritesOnOk};
ghost use Rattle.rows.specs.Rows.{waiting};
ghost use Rattle.player.specs.Texts.{state_text, exit_text, entry_text, entries_text, step_text, taken_text};

use calls::Step;
use lanes::LaneState;
use outlets::Message;
use rows::PlainRow;
use std::fmt;
use words::{Entry, Exit};

/// What a lane is doing.
#[derive(Clone, Copy)]
pub struct StateText {
    pub state: LaneState,
}

impl fmt::Display for StateText {
    ghost output = { λ s. Some (state_text s.state) };

    fn fmt<W: fmt::Write>(&self, f: &mut fmt::Formatter<W>) -> fmt::Result {
        match self.state {
            LaneState::Idle => write!(f, "IDLE"),
            LaneState::Running { place, tick } => write!(f, "RUNNING {place} {tick}"),
            LaneState::Held { place, tick } => write!(f, "HELD {place} {tick}"),
        }
    }
}

/// Where an order leads.
#[derive(Clone, Copy)]
pub struct ExitText {
    pub exit: Exit,
}

impl fmt::Display for ExitText {
    ghost output = { λ s. Some (exit_text s.exit) };

    fn fmt<W: fmt::Write>(&self, f: &mut fmt::Formatter<W>) -> fmt::Result {
        match self.exit {
            Exit::End => write!(f, "END"),
            Exit::Place(place) => write!(f, "{place}"),
        }
    }
}

/// An entry of a row.
#[derive(Clone, Copy)]
pub struct EntryText {
    pub entry: Entry,
}

impl fmt::Display for EntryText {
    ghost output = { λ s. Some (entry_text s.entry) };

    fn fmt<W: fmt::Write>(&self, f: &mut fmt::Formatter<W>) -> fmt::Result {
        match self.entry {
            Entry::Pass(pass) => {
                let repeats = pass.repeats;
                write!(f, "pass:{repeats}")
            }
            Entry::Order(order) => {
                let repeats = order.repeats;
                let exit = ExitText {
                    exit: order.destination,
                };
                if order.lasting {
                    write!(f, "order:{repeats}:{exit}:lasting")
                } else {
                    write!(f, "order:{repeats}:{exit}")
                }
            }
        }
    }
}

/// Writes entries, each behind a blank.
fn write_entries<W: fmt::Write>(f: &mut fmt::Formatter<W>, entries: &[Entry]) -> fmt::Result
    ensures { WritesOnOk W.Write.write_str_gives f.old result (entries_text entries.now) f.new }
{
    for one in entries {
        let entry = EntryText { entry: *one };
        write!(f, " {entry}")?;
    }
    Ok(())
}

/// Writes the first entries, so many of them.
fn write_first<W: fmt::Write>(
    f: &mut fmt::Formatter<W>,
    entries: &[Entry],
    count: usize,
) -> fmt::Result
    ensures { WritesOnOk W.Write.write_str_gives f.old result (entries_text (take count entries.now)) f.new }
{
    write_entries(f, &entries[..count.min(entries.len())])
}

/// The entries that wait in a row, the oldest first.
#[derive(Clone, Copy)]
pub struct RowText {
    pub row: PlainRow,
}

impl fmt::Display for RowText {
    ghost output = { λ s. Some (entries_text (waiting s.row)) };

    fn fmt<W: fmt::Write>(&self, f: &mut fmt::Formatter<W>) -> fmt::Result {
        write_first(f, &self.row.entries, self.row.count as usize)
    }
}

/// What a step came to.
#[derive(Clone, Copy)]
pub struct StepText {
    pub step: Step,
}

impl fmt::Display for StepText {
    ghost output = { λ s. Some (step_text s.step) };

    fn fmt<W: fmt::Write>(&self, f: &mut fmt::Formatter<W>) -> fmt::Result {
        match self.step {
            Step::Idle => write!(f, "IDLE"),
            Step::Held => write!(f, "HELD"),
            Step::Range => write!(f, "RANGE"),
            Step::Sent => write!(f, "SENT"),
            Step::Waits => write!(f, "WAITS"),
            Step::Queued => write!(f, "QUEUED"),
            Step::Lost => write!(f, "LOST"),
            Step::Took(place) => write!(f, "TOOK {place}"),
            Step::Ended => write!(f, "ENDED"),
        }
    }
}

/// What was taken from an outlet.
#[derive(Clone, Copy)]
pub struct TakenText {
    pub message: Option<Message>,
}

impl fmt::Display for TakenText {
    ghost output = { λ t. Some (taken_text t.message) };

    fn fmt<W: fmt::Write>(&self, f: &mut fmt::Formatter<W>) -> fmt::Result {
        match self.message {
            None => write!(f, "NOTHING"),
            Some(message) => {
                let lane = message.lane;
                let event = message.event;
                let due = message.due;
                write!(f, "{lane} {event} {due}")
            }
        }
    }
}
