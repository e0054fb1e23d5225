//! The lines of a text, cut off one by one.
ghost use Rattle.std.specs.Prelude.{◌≡◌, ◌<◌, ◌∷◌, [], Bool, IfSome, MatchOption, length};
ghost use Rattle.std.specs.List.{slice_split};

/// What texts are made of: a character, or a byte of one.
pub trait TextUnit: Copy {
    ghost ends_line: { Self → Bool };

    /// Tells whether this is a line feed.
    fn is_line_feed(self) -> bool
        ensures { result ≡ ends_line self };
}

impl TextUnit for char {
    ghost use Rattle.std.specs.Prelude.{◌==◌};

    ghost ends_line = { λ c. c == 10 };

    fn is_line_feed(self) -> bool {
        self == '\n'
    }
}

impl TextUnit for u8 {
    ghost use Rattle.std.specs.Prelude.{◌==◌};

    ghost ends_line = { λ b. b == 10 };

    fn is_line_feed(self) -> bool {
        self == b'\n'
    }
}

/// Returns the first line, without its line feed, and what follows it. `None` where there is no line feed.
#[tactic(auto, using(crate::proofs::LineCuts::cut_at_feed, crate::proofs::LineCuts::one_line))]
pub fn cut_line<T: TextUnit>(text: &[T]) -> Option<(&[T], &[T])>
    ensures lines { MatchOption result (slice_split T.ends_line text.now ≡ text.now ∷ [])
        (λ cut. slice_split T.ends_line text.now ≡ cut.0.now ∷ slice_split T.ends_line cut.1.now) }
    ensures shorter { IfSome result (λ cut. length cut.1.now < length text.now) }
{
    for (at, unit) in text.iter().enumerate() {
        if unit.is_line_feed() {
            return Some((&text[..at], &text[at + 1..]));
        }
    }
    None
}
