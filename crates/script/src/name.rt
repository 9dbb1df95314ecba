//! The names of the calls, as a script writes them and as answers repeat them.
ghost use Rattle.std.specs.Prelude.{◌≡◌, Some};
ghost use Rattle.script.specs.Names.{name_text, named, name_in};

use crate::parts::is_same;
use std::fmt;

/// The name of a call.
#[derive(Clone, Copy)]
pub enum Name {
    /// `memory`.
    Memory,
    /// `load`.
    Load,
    /// `write`.
    Write,
    /// `start`.
    Start,
    /// `hold`.
    Hold,
    /// `resume`.
    Resume,
    /// `abort`.
    Abort,
    /// `command`.
    Command,
    /// `check`.
    Check,
    /// `remove`.
    Remove,
    /// `release`.
    Release,
    /// `step`.
    Step,
    /// `take`.
    Take,
    /// `lane`.
    Lane,
    /// `reach`.
    Reach,
    /// `row`.
    Row,
}

/// All names.
// Searched by the text that `name_text` gives each, so that a name is read as it is written and the texts stand once.
const NAMES: [Name; 16] = [
    Name::Memory,
    Name::Load,
    Name::Write,
    Name::Start,
    Name::Hold,
    Name::Resume,
    Name::Abort,
    Name::Command,
    Name::Check,
    Name::Remove,
    Name::Release,
    Name::Step,
    Name::Take,
    Name::Lane,
    Name::Reach,
    Name::Row,
];

/// How a name is written.
fn name_text(name: Name) -> &'static str
    ensures { result.now ≡ name_text name }
{
    match name {
        Name::Memory => "memory",
        Name::Load => "load",
        Name::Write => "write",
        Name::Start => "start",
        Name::Hold => "hold",
        Name::Resume => "resume",
        Name::Abort => "abort",
        Name::Command => "command",
        Name::Check => "check",
        Name::Remove => "remove",
        Name::Release => "release",
        Name::Step => "step",
        Name::Take => "take",
        Name::Lane => "lane",
        Name::Reach => "reach",
        Name::Row => "row",
    }
}

/// The first of the names that is written so.
fn find(names: &[Name], part: &[u8]) -> Option<Name>
    ensures { result ≡ named names.now part.now }
{
    names
        .iter()
        .copied()
        .find(|name| is_same(part, name_text(*name).as_bytes()))
}

/// The name that is written so, if it is one.
pub fn name_of(part: &[u8]) -> Option<Name>
    ensures { result ≡ name_in part.now }
{
    find(&NAMES, part)
}

impl fmt::Display for Name {
    ghost output = { λ name. Some (name_text name) };

    fn fmt<W: fmt::Write>(&self, f: &mut fmt::Formatter<W>) -> fmt::Result {
        let text = name_text(*self);
        write!(f, "{text}")
    }
}
