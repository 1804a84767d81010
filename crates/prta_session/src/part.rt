//! The parts of a text.

ghost use Rattle.std.specs.Prelude.{◌≡◌, ◌<◌, ◌∷◌, nat_eq, length, position, IfSome};
ghost use Rattle.prta_session.specs.Text.{parts, parts_left};

// What stands before the first of the bytes that are this one, and what after it, where there is one.
pub(crate) fn next_part(text: &[u8], byte: u8) -> (&[u8], Option<&[u8]>)
    ensures parts { parts byte text.now ≡ result.0.now ∷ parts_left byte result.1 }
    ensures shorter { IfSome result.1 (λ rest. length rest.now < length text.now) }
{
    match place_of(text, byte) {
        Some(end) => (&text[..end], Some(&text[end + 1..])),
        None => (text, None),
    }
}

// The place of the first byte that is this one.
fn place_of(text: &[u8], byte: u8) -> Option<usize>
    ensures { result ≡ position (λ b. nat_eq b byte) text.now }
{
    text.iter().position(|b| *b == byte)
}
