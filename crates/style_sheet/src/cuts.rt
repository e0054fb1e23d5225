//! Texts cut at a separator.
ghost use Rattle.std.specs.Prelude.{◌≡◌, ◌≢◌, ◌<◌, ◌++◌, ◌∷◌, All, length, IfSome, MatchOption};

/// Returns what stands before the first separator, and what stands behind it: nothing where there is no separator.
pub(crate) fn cut(text: &[char], separator: char) -> (&[char], Option<&[char]>)
    ensures whole { MatchOption result.1 (text.now ≡ result.0.now)
        (λ behind. text.now ≡ result.0.now ++ separator ∷ behind.now) }
    ensures first { All (λ c. c ≢ separator) result.0.now }
    ensures shorter { IfSome result.1 (λ behind. length behind.now < length text.now) }
{
    match text.iter().position(|c| *c == separator) {
        Some(at) => (&text[..at], Some(&text[at + 1..])),
        None => (text, None),
    }
}
