//! Numbers as they are written in settings.
ghost use Rattle.std.specs.Prelude.{◌≡◌, ◌<◌, ◌≤◌, ◌↔◌, length, slice_index, IsTrue};
ghost use Rattle.prompt_settings.specs.Number.{number_of};

/// Returns the number that is written as this text, where it is at most `most`: in decimal, without leading zeros. It
/// is read no further than to the digit that makes it too large.
pub fn read_number(text: &[char], most: u64) -> Option<u64>
    requires { most ≤ 1000000000000000000 }
    ensures { result ≡ number_of most text.now }
{
    if !may_begin_number(text) {
        return None;
    }
    let mut number = 0;
    for c in text {
        number = number * 10 + u64::from(c.to_digit(10)?);
        if number > most {
            return None;
        }
    }
    Some(number)
}

/// Tells whether there is a character, and a zero at the front stands alone.
fn may_begin_number(text: &[char]) -> bool
    ensures { IsTrue result
        ↔ ((0 < length text.now) × (slice_index text.now 0 ≡ 48 → length text.now ≡ 1)) }
{
    match text {
        [] => false,
        [first, ..] => *first != '0' || text.len() == 1,
    }
}
