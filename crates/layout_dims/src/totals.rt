//! What the children of a split ask for together.
ghost use Rattle.std.specs.Prelude.{◌≡◌};
ghost use Rattle.layout_dims.specs.Numbers.{sum_of, largest_of};

use crate::Dimension;
use crate::dimension::LARGEST_SIZE;

/// Returns what children that stand one after another along the split ask for together.
pub fn sum(parts: &[Dimension]) -> Dimension
    ensures { result ≡ sum_of parts.now }
{
    let mut min = 0;
    let mut max = 0;
    let mut preferred = 0;
    for part in parts {
        let (part_min, part_max, _, part_preferred) = part.numbers();
        min = (min + part_min).min(LARGEST_SIZE);
        max = (max + part_max).min(LARGEST_SIZE);
        preferred = (preferred + part_preferred).min(LARGEST_SIZE);
    }
    Dimension::of_sizes(min, max, preferred)
}

/// Returns what children that share one place across the split ask for together: 0 where there are none.
pub fn largest(parts: &[Dimension]) -> Dimension
    ensures { result ≡ largest_of parts.now }
{
    let mut largest_min = 0;
    let mut largest_max = 0;
    let mut largest_preferred = 0;
    for part in parts {
        let (min, max, _, preferred) = part.numbers();
        largest_min = min.max(largest_min);
        largest_max = max.max(largest_max);
        largest_preferred = preferred.max(largest_preferred);
    }
    Dimension::of_sizes(largest_min, largest_max, largest_preferred)
}
