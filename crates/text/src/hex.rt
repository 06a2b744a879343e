// Bytes as hexadecimal digits: either case is read, lower case is written.
ghost use Rattle.std.specs.Prelude.{◌≡◌, ◌<◌};
ghost use Rattle.text.specs.Hex.{is_hex, hex_digits, filled, buffered};
ghost use Rattle.text.specs.Hex.{nibble as Hex·nibble, glyph as Hex·glyph};

// A digit's value. Not `char::to_digit`: it answers for a `char`, in 32 bits, and panics at a radix over 36.
fn nibble(b: u8) -> Option<u8>
    ensures { result ≡ Hex·nibble b }
{
    match b {
        b'0'..=b'9' => Some(b - b'0'),
        b'a'..=b'f' => Some(b - b'a' + 10),
        b'A'..=b'F' => Some(b - b'A' + 10),
        _ => None,
    }
}

// Apart from `is_hex`, where the search for its proof stops at a limit.
fn all_digits(word: &[u8]) -> bool
    ensures { result ≡ hex_digits word.now }
{
    word.iter().all(|b| nibble(*b).is_some())
}

pub(crate) fn is_hex(word: &[u8]) -> bool
    ensures { result ≡ is_hex word.now }
{
    word == b"-".as_slice() || word.len() % 2 == 0 && all_digits(word)
}

// The bytes of a HEX at the start of `out`, and how many. Where the word is none, or they do not
// fit, `out` stays as it is.
pub fn decode(word: &[u8], out: &mut [u8]) -> Option<usize>
    ensures value { result ≡ filled word.now out.old }
    ensures out_after { out.new ≡ buffered word.now out.old }
{
    let n = word.len() / 2;
    if !is_hex(word) || n > out.len() {
        return None;
    }
    // By index: in a loop over pairs the invariant has no name for the place in `out`.
    for i in 0..n {
        let high = nibble(word[2 * i]).unwrap_or(0);
        let low = nibble(word[2 * i + 1]).unwrap_or(0);
        out[i] = high * 16 + low;
    }
    Some(n)
}

// Not `char::from_digit`: it gives a `char`, perhaps none, and panics at a radix over 36.
pub(crate) fn glyph(d: u8) -> u8
    requires { d < 16 }
    ensures { result ≡ Hex·glyph d }
{
    if d < 10 { b'0' + d } else { b'a' + (d - 10) }
}
