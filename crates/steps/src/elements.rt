//! Elements of a slice at any position.
ghost use Rattle.std.specs.Prelude.{◌≡◌, slice_set};

/// Writes an element; past the end nothing is written.
pub fn put<T: Copy>(items: &mut [T], at: usize, item: T)
    ensures { items.new ≡ slice_set items.old at item }
{
    // by `get_mut` the proof would not see what the slice holds once the element was lent
    if at < items.len() {
        items[at] = item;
    }
}
