//! How a layer is shown.
ghost use Rattle.std.specs.Prelude.{◌≡◌};
ghost use Rattle.readout.specs.Layers.{layer_name};

use words::Layer;

/// The name of a layer, as the panel shows it.
// A text and no `Display`: a line is put together of texts that fit it, and `write!` may fail.
pub fn layer_text(layer: Layer) -> &'static str
    ensures { result.now ≡ layer_name layer }
{
    match layer {
        Layer::Words => "WORDS",
        Layer::Table => "TABLE",
        Layer::Reach => "REACH",
        Layer::Call => "CALL",
    }
}
