//! Numbers as a script writes them.
ghost use Rattle.std.specs.Prelude.{◌≡◌, ◌+◌, ◌*◌, ◌≤◌};
ghost use Rattle.script.specs.Numbers.{digit_of, digit_in, fitting, number_in, decimal_in, hexadecimal_in};

/// How many digits a word has at most.
const WORD_DIGITS: usize = 8;

/// What a digit stands for, up to 15.
fn digit_of(byte: u8) -> Option<u64>
    ensures { result ≡ digit_of byte }
{
    match byte {
        b'0'..=b'9' => Some((byte - b'0') as u64),
        b'A'..=b'F' => Some((byte - b'A') as u64 + 10),
        b'a'..=b'f' => Some((byte - b'a') as u64 + 10),
        _ => None,
    }
}

/// What a digit to the base stands for.
fn digit(byte: u8, base: u64) -> Option<u64>
    ensures { result ≡ digit_in base byte }
{
    let digit = digit_of(byte)?;
    if digit < base { Some(digit) } else { None }
}

/// The value with one more digit, where that fits.
fn append(value: u64, digit: u64, base: u64) -> Option<u64>
    ensures { result ≡ fitting 64 (value * base + digit) }
{
    value.checked_mul(base)?.checked_add(digit)
}

/// The value of digits to the base, of which there is at least one, where it fits 64 bits.
fn number(word: &[u8], base: u64) -> Option<u64>
    requires { 1 ≤ base }
    ensures { result ≡ number_in 64 base word.now }
{
    if word.is_empty() {
        return None;
    }
    let mut value = 0;
    for b in word {
        value = append(value, digit(*b, base)?, base)?;
    }
    Some(value)
}

/// The value, where it fits 32 bits.
fn short(value: u64) -> Option<u32>
    ensures { result ≡ fitting 32 value }
{
    u32::try_from(value).ok()
}

/// The value of digits to the base, of which there is at least one, where it fits 32 bits.
fn short_number(word: &[u8], base: u64) -> Option<u32>
    requires { 1 ≤ base }
    ensures { result ≡ number_in 32 base word.now }
{
    short(number(word, base)?)
}

/// The value of decimal digits, of which there is at least one, where it fits 64 bits.
pub fn long_decimal(word: &[u8]) -> Option<u64>
    ensures { result ≡ decimal_in 64 word.now }
{
    number(word, 10)
}

/// The value of decimal digits, of which there is at least one, where it fits 32 bits.
pub fn decimal(word: &[u8]) -> Option<u32>
    ensures { result ≡ decimal_in 32 word.now }
{
    short_number(word, 10)
}

/// The word that one to eight hexadecimal digits say.
pub fn hexadecimal(word: &[u8]) -> Option<u32>
    ensures { result ≡ hexadecimal_in word.now }
{
    if word.len() <= WORD_DIGITS {
        short_number(word, 16)
    } else {
        None
    }
}
