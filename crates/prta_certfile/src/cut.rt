//! Where bytes are cut.

ghost use Rattle.std.specs.Prelude.{◌≡◌, ◌<◌, ◌∷◌, nat_eq, length, position, option_map, IfSome};
ghost use Rattle.prta_certfile.specs.Reading.{cut, words};
ghost use Rattle.prta_certfile.specs.Parts.{words_left};

// What stands before the first of the bytes that are this one, and what after it.
pub(crate) fn cut(bytes: &[u8], byte: u8) -> Option<(&[u8], &[u8])>
    ensures parts { option_map (λ parts. (parts.0.now, parts.1.now)) result ≡ cut byte bytes.now }
    ensures shorter { IfSome result (λ parts. length parts.1.now < length bytes.now) }
{
    match place_of(bytes, byte) {
        Some(end) => Some((&bytes[..end], &bytes[end + 1..])),
        None => None,
    }
}

// The place of the first byte that is this one.
fn place_of(bytes: &[u8], byte: u8) -> Option<usize>
    ensures { result ≡ position (λ b. nat_eq b byte) bytes.now }
{
    bytes.iter().position(|b| *b == byte)
}

// The first word, and what stands after the space behind it.
pub(crate) fn next_word(text: &[u8]) -> (&[u8], Option<&[u8]>)
    ensures words { words text.now ≡ result.0.now ∷ words_left result.1 }
    ensures shorter { IfSome result.1 (λ rest. length rest.now < length text.now) }
{
    match cut(text, b' ') {
        Some((word, rest)) => (word, Some(rest)),
        None => (text, None),
    }
}
