//! A table and a script in one text.
ghost use Rattle.std.specs.Prelude.{◌≡◌, ◌<◌, length, drop, IfSome};
ghost use Rattle.ec_script.specs.Halves.{Begins, Splits, divider_at, divider_in};

/// Splits a text into a table and its script: what stands before the first line `%%`, and what stands behind it. A text
/// without such a line is a table with an empty script.
pub fn split_script(text: &str) -> (&str, &str)
    ensures { Splits text.now result.0.now result.1.now }
{
    let bytes = text.as_bytes();
    for place in 0..bytes.len() {
        if let Some(count) = divider_at(bytes, place) {
            return (&text[..place], &text[place + count..]);
        }
    }
    (text, "")
}

/// How many bytes the line `%%` with its end has, if it begins at this place of a text.
#[tactic(auto, unfolding(crate::specs::Halves::divider_at))]
fn divider_at(text: &[u8], position: usize) -> Option<usize>
    requires { position < length text.now }
    ensures value { result ≡ divider_at text.now position }
    ensures begins { IfSome result (Begins (drop position text.now)) }
{
    if position == 0 || text[position - 1] == b'\n' {
        divider_in(&text[position..])
    } else {
        None
    }
}

/// How many bytes the line `%%` with its end has, if a text begins with it.
#[tactic(auto, using(crate::proofs::Halving::begins_if), unfolding(crate::specs::Halves::divider_in))]
fn divider_in(text: &[u8]) -> Option<usize>
    ensures value { result ≡ divider_in text.now }
    ensures begins { IfSome result (Begins text.now) }
{
    if text == b"%%".as_slice() {
        Some(2)
    } else if text.starts_with(b"%%\n") {
        Some(3)
    } else if text.starts_with(b"%%\r\n") {
        Some(4)
    } else {
        None
    }
}
