//! What two texts have in common at their ends, found by comparing them in blocks.
ghost use Rattle.std.specs.Prelude.{◌≡◌, ◌-◌, ◌≤◌, ◌↔◌, IsTrue, drop, length, take};

/// Returns how many characters two texts have in common at their start.
#[tactic(auto, using(crate::proofs::ChangeLemmas::front_more))]
pub fn common_front(one: &[char], other: &[char]) -> usize
    ensures within_one { result ≤ length one.now }
    ensures within_other { result ≤ length other.now }
    ensures same { take result one.now ≡ take result other.now }
{
    let mut low = 0;
    let mut high = one.len().min(other.len());
    while low < high {
        let middle = high - (high - low) / 2;
        if are_equal(&one[low..middle], &other[low..middle]) {
            low = middle;
        } else {
            high = middle - 1;
        }
    }
    low
}

/// Returns how many characters two texts have in common at their end.
#[tactic(auto, using(crate::proofs::ChangeLemmas::back_more))]
pub fn common_back(one: &[char], other: &[char]) -> usize
    ensures within_one { result ≤ length one.now }
    ensures within_other { result ≤ length other.now }
    ensures same { drop (length one.now - result) one.now ≡ drop (length other.now - result) other.now }
{
    let mut low = 0;
    let mut high = one.len().min(other.len());
    while low < high {
        let middle = high - (high - low) / 2;
        let part = &one[one.len() - middle..one.len() - low];
        if are_equal(part, &other[other.len() - middle..other.len() - low]) {
            low = middle;
        } else {
            high = middle - 1;
        }
    }
    low
}

fn are_equal(one: &[char], other: &[char]) -> bool
    ensures { IsTrue result ↔ (one.now ≡ other.now) }
{
    one == other
}
