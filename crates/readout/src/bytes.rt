//! Bytes packed into words of 32 bits, the high byte first.
ghost use Rattle.std.specs.Prelude.{◌≡◌, ℕ, ◌+◌, ◌-◌, ◌*◌, ◌/◌, ◌^◌, ◌<◌, ◌≤◌, min, ◌++◌, length, take, drop, slice_index};
ghost use Rattle.readout.specs.Bytes.{first_word, words_in, packed};

/// How many bytes make a word.
const BYTES: usize = 4;

/// The byte at `at`, or 0 past the end.
fn byte(bytes: &[u8], at: usize) -> u32
    ensures value { result ≡ slice_index bytes.now at }
    ensures bound { result < 2 ^ 8 }
{
    u32::from(bytes.get(at).copied().unwrap_or(0))
}

/// The word that the first four bytes make.
fn first_word(bytes: &[u8]) -> u32
    ensures { result ≡ first_word bytes.now }
{
    (byte(bytes, 0) << 24) + (byte(bytes, 1) << 16) + (byte(bytes, 2) << 8) + byte(bytes, 3)
}

/// Packs the bytes into words, the high byte first, and fills the last word up with zero bytes.
/// Writes as many words as there is room for, leaves the others as they were, and says how many it wrote.
pub fn pack(bytes: &[u8], words: &mut [u32]) -> usize
    ensures count { result ≡ min (words_in bytes.now) (length words.old) }
    ensures after { words.new ≡ take result (packed bytes.now) ++ drop result words.old }
{
    let count = bytes.len().div_ceil(BYTES).min(words.len());
    // by number, since a proof does not see what is written through `iter_mut().zip(..)`
    for (k, four) in bytes.chunks(BYTES).take(count).enumerate() {
        words[k] = first_word(four);
    }
    count
}
