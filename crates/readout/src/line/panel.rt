//! The line by which the panel tells how an image was judged.
ghost use Rattle.std.specs.Prelude.{◌≡◌};
ghost use Rattle.readout.specs.Lines.{held, loaded_line, refused_line, panel_line};

use super::Line;
use crate::layer::layer_text;
use arrayvec::ArrayString;
use itoa::Buffer;
use words::Reason;

impl Line {
    /// The line for an image of `nodes` nodes that was taken.
    pub fn loaded(nodes: usize) -> Line
        ensures { held result ≡ loaded_line nodes }
    {
        let mut text = ArrayString::new();
        text.push_str("LOADED ");
        text.push_str(Buffer::new().format(nodes));
        text.push_str(" NODES 8 LANES\n");
        Line { text }
    }

    /// The line for an image that was refused, with the fault's number, layer and place.
    pub fn refused<F: Reason>(fault: F) -> Line
        ensures { held result ≡ refused_line (F.number_of fault) (F.layer_of fault) (F.place_of fault) }
    {
        let mut text = ArrayString::new();
        text.push_str("REFUSED ");
        text.push_str(Buffer::new().format(fault.number()));
        text.push_str(" ");
        text.push_str(layer_text(fault.layer()));
        text.push_str(" ");
        text.push_str(Buffer::new().format(fault.place()));
        text.push_str("\n");
        Line { text }
    }

    /// The panel's line for an image: how many nodes it has, or what is wrong with it.
    pub fn judged<F: Reason>(answer: Result<usize, F>) -> Line
        ensures { held result ≡ panel_line F.number_of F.layer_of F.place_of answer }
    {
        match answer {
            Ok(nodes) => Line::loaded(nodes),
            Err(fault) => Line::refused(fault),
        }
    }
}
