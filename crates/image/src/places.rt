//! What an image describes.
use words::Node;

/// An image that has been read: what it gives for each of the 512 places, and how many nodes it has.
#[derive(Clone, Copy)]
pub struct Image {
    /// The node of each place, if it has one.
    pub places: [Option<Node>; 512],
    /// How many places have a node.
    pub nodes: usize,
}

/// The caller's memory has too few words for an image.
#[derive(Clone, Copy, PartialEq, Eq, Debug)]
pub struct TooShort {
    /// How many words the image needs.
    pub needed: usize,
}
