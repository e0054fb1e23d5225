//! Equality of texts that are cut in two.
ghost use Rattle.std.specs.Prelude.{◌≡◌, ◌≤◌, ◌++◌, ◌↔◌, length, IsTrue};

/// Returns whether two slices, the second behind the first, are these characters.
pub fn is_joined(front: &[char], back: &[char], chars: &[char]) -> bool
    ensures { IsTrue result ↔ (front.now ++ back.now ≡ chars.now) }
{
    if chars.len() < front.len() {
        return false;
    }
    let (start, rest) = chars.split_at(front.len());
    are_equal(front, start) && are_equal(back, rest)
}

/// Returns whether two texts are equal, each of them two slices.
pub fn is_same(front: &[char], back: &[char], other_front: &[char], other_back: &[char]) -> bool
    ensures { IsTrue result ↔ (front.now ++ back.now ≡ other_front.now ++ other_back.now) }
{
    if front.len() <= other_front.len() {
        is_same_shorter(front, back, other_front, other_back)
    } else {
        is_same_shorter(other_front, other_back, front, back)
    }
}

fn is_same_shorter(front: &[char], back: &[char], other_front: &[char], other_back: &[char]) -> bool
    requires { length front.now ≤ length other_front.now }
    ensures { IsTrue result ↔ (front.now ++ back.now ≡ other_front.now ++ other_back.now) }
{
    let (start, rest) = other_front.split_at(front.len());
    are_equal(front, start) && is_joined(rest, other_back, back)
}

fn are_equal(one: &[char], other: &[char]) -> bool
    ensures { IsTrue result ↔ (one.now ≡ other.now) }
{
    one == other
}
