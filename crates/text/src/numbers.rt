// Numbers of a text.
ghost use Rattle.std.specs.Prelude.{◌≡◌, ℕ, ◌≢◌, ◌∷◌, ◌++◌, decimal, MatchOption};
ghost use Rattle.text.specs.Form.{InText};
ghost use Rattle.text.specs.Cuts.{Free};

// The number that these digits write: 1 to 65535, without leading zeros.
#[tactic(auto, using(crate::proofs::Decimals::first_digit))]
pub(crate) fn number(digits: &[u8]) -> Option<u32>
    ensures { MatchOption result ((n : ℕ) → InText n → digits.now ≢ decimal n) (λ n. InText n × (digits.now ≡ decimal n)) }
{
    if !matches!(digits, [b'1'..=b'9', ..]) {
        return None;
    }
    str::from_utf8(digits)
        .ok()?
        .parse::<u16>()
        .ok()
        .map(u32::from)
}

// Two numbers with a single space between.
pub(crate) fn two_numbers(bytes: &[u8]) -> Option<(u32, u32)>
    ensures { MatchOption result ((a b : ℕ) → InText a → InText b → bytes.now ≢ decimal a ++ (32 ∷ decimal b)) (λ p. InText p.0 × InText p.1 × (bytes.now ≡ decimal p.0 ++ (32 ∷ decimal p.1))) }
{
    let (a, b) = split_once(bytes, b' ')?;
    Some((number(a)?, number(b)?))
}

// The bytes before the first that equals `byte`, and those after it; none where no byte does.
pub(crate) fn split_once(bytes: &[u8], byte: u8) -> Option<(&[u8], &[u8])>
    ensures { MatchOption result (Free byte bytes.now) (λ p. Free byte p.0.now × (bytes.now ≡ p.0.now ++ (byte ∷ p.1.now))) }
{
    let at = bytes.iter().position(|b| *b == byte)?;
    Some((&bytes[..at], &bytes[at + 1..]))
}
