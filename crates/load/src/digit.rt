//! Digits, and the bytes that they mean.
ghost use Rattle.std.specs.Prelude.{◌≡◌, ◌+◌, ◌*◌, ◌/◌, ◌<◌, ◌≤◌, true, length};
ghost use Rattle.load.specs.Digits.{is_digit, all_digits, value_of, decoded};

/// Whether a byte is a digit; small letters are none.
fn is_digit(byte: u8) -> bool
    ensures { result ≡ is_digit byte }
{
    // `|` does not branch
    matches!(byte, b'0'..=b'9') | matches!(byte, b'A'..=b'F')
}

/// Whether a line has nothing but digits.
pub(crate) fn all_digits(line: &[u8]) -> bool
    ensures { result ≡ all_digits line.now }
{
    let mut all = true;
    // every byte is looked at: a loop that could end early would take them one by one, this one takes sixteen at a time
    for byte in line {
        all = is_digit(*byte) & all;
    }
    all
}

/// The value of a digit, 0 to 15.
fn value(digit: u8) -> u8
    requires { is_digit digit ≡ true }
    ensures value { result ≡ value_of digit }
    ensures small { result < 16 }
{
    // by hand: `to_digit` is no plainer, as it answers an option of a wider number
    match digit {
        b'0'..=b'9' => digit - b'0',
        _ => digit - b'A' + 10,
    }
}

/// The byte of two digits, the high one first.
fn pair(high: u8, low: u8) -> u8
    requires high { is_digit high ≡ true }
    requires low { is_digit low ≡ true }
    ensures { result ≡ 16 * value_of high + value_of low }
{
    16 * value(high) + value(low)
}

/// Writes the bytes that these digits mean into the store, the first of them at this index.
pub(crate) fn decode_into(digits: &[u8], store: &mut [u8], at: usize)
    requires digits { all_digits digits.now ≡ true }
    requires room { at + length digits.now / 2 ≤ length store.old }
    ensures { store.new ≡ decoded digits.now at store.old }
{
    for (j, digits) in digits.chunks_exact(2).enumerate() {
        store[at + j] = pair(digits[0], digits[1]);
    }
}
