// Lines of a text, each with the line feed that ends it.
ghost use Rattle.std.specs.Prelude.{◌≡◌, ℕ, ◌≢◌, Option, MatchOption};
ghost use Rattle.net.specs.Sources.{pair_of};
ghost use Rattle.text.specs.Form.{InText, LinkInText, words_of_bars, words_of_link, line};

use crate::numbers::{number, two_numbers};

// The number of bars that a text's first line gives.
pub(crate) fn bars_line(bytes: &[u8]) -> Option<u32>
    ensures { MatchOption result ((n : ℕ) → InText n → bytes.now ≢ line (words_of_bars n)) (λ n. InText n × (bytes.now ≡ line (words_of_bars n))) }
{
    match bytes {
        [b'b', b'a', b'r', b's', b' ', digits @ .., b'\n'] => number(digits),
        _ => None,
    }
}

// The two numbers that the line of a link gives for the row: its bars, or 0 0 where it is out of service.
pub(crate) fn link_line(bytes: &[u8]) -> Option<(u32, u32)>
    ensures { MatchOption result ((link : Option (ℕ × ℕ)) → LinkInText link → bytes.now ≢ line (words_of_link link)) (λ p. LinkInText (pair_of p.0 p.1) × (bytes.now ≡ line (words_of_link (pair_of p.0 p.1)))) }
{
    match bytes {
        b"out\n" => Some((0, 0)),
        [b'l', b'i', b'n', b'k', b' ', ends @ .., b'\n'] => two_numbers(ends),
        _ => None,
    }
}
