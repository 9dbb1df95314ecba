//! What is told of a reason to refuse.
ghost use Rattle.std.specs.Prelude.{◌≡◌, ℕ};
ghost use Rattle.words.specs.declared.fault.Layer.{Layer};

use crate::fault::Layer;

/// Why something is refused, as the panel tells it: by a number, a layer and a place.
pub trait Reason: Copy {
    /// The number.
    ghost number_of: { Self → ℕ };

    /// The part of the console that found the reason.
    ghost layer_of: { Self → Layer };

    /// The place.
    ghost place_of: { Self → ℕ };

    /// The number that the panel shows for the reason.
    fn number(self) -> u8
        ensures { result ≡ number_of self };

    /// The layer that the panel shows for the reason.
    fn layer(self) -> Layer
        ensures { result ≡ layer_of self };

    /// The place that the panel shows for the reason: a position in an image, a place of the table,
    /// or what else the reason is about.
    fn place(self) -> usize
        ensures { result ≡ place_of self };
}
