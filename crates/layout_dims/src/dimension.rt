//! `Dimension`, how much room a child of a split asks for.
ghost use Rattle.std.specs.Prelude.{◌≡◌, ◌<◌, ◌≤◌, ◌↔◌, ℕ, Err, IfOk};
ghost use Rattle.layout_dims.specs.Numbers.{Numbers, IsDimension, brought_into};

use std::marker::Model;
use thiserror::Error;

/// The greatest minimum, maximum and preferred size, in columns or rows.
pub(crate) const LARGEST_SIZE: u32 = 1_000_000;

/// How much room a child of a split asks for, along the split: at least and at most so many
/// columns or rows, so many by preference, and a weight that says how fast it grows beside the
/// other children.
#[derive(Clone, Copy, Drop)]
pub struct Dimension {
    min: u32,
    max: u32,
    weight: u32,
    preferred: u32,
}

/// Why four numbers are no dimension.
#[derive(Clone, Copy, Debug, PartialEq, Eq, Error)]
pub enum DimensionFault {
    /// The maximum is below the minimum.
    #[error("the maximum is below the minimum")]
    MaxBelowMin,
    /// The weight is 0, so the child would never get a turn.
    #[error("the weight is 0")]
    ZeroWeight,
}

impl Model for Dimension {
    ghost use Rattle.layout_dims.specs.Numbers.{Numbers, IsDimension};

    ghost Value = { Numbers };

    ghost view = { λ d. record {
      minimum = d.min;
      maximum = d.max;
      weight = d.weight;
      preferred = d.preferred;
    } };

    ghost invariant = { λ d. IsDimension (record {
      minimum = d.min;
      maximum = d.max;
      weight = d.weight;
      preferred = d.preferred;
    }) };

    ghost inverse = { λ n. record {
      min = n.minimum;
      max = n.maximum;
      weight = n.weight;
      preferred = n.preferred;
    } };
}

impl Dimension {
    /// Returns the dimension of these numbers: a maximum of at most 1,000,000 columns or rows, and a weight
    /// of at most 1,000. A preferred size outside the minimum and the maximum is brought to the
    /// nearer of them.
    ///
    /// # Errors
    ///
    /// `MaxBelowMin` comes first, where both faults are there.
    pub fn new(min: u32, max: u32, weight: u32, preferred: u32) -> Result<Dimension, DimensionFault>
        requires max_in { max ≤ 1000000 }
        requires weight_in { weight ≤ 1000 }
        ensures max_below_min { (result ≡ Err DimensionFault.MaxBelowMin) ↔ (max < min) }
        ensures zero_weight { (result ≡ Err DimensionFault.ZeroWeight)
            ↔ ((min ≤ max) × (weight ≡ 0)) }
        ensures ok { IfOk result (λ d. d ≡ record {
          minimum = min;
          maximum = max;
          weight = weight;
          preferred = brought_into min max preferred;
        }) }
    {
        if max < min {
            return Err(DimensionFault::MaxBelowMin);
        }
        if weight == 0 {
            return Err(DimensionFault::ZeroWeight);
        }
        Ok(Dimension {
            min,
            max,
            weight,
            preferred: preferred.min(max).max(min),
        })
    }

    /// Returns a dimension of weight 1 whose preferred size is in range already.
    pub(crate) fn of_sizes(min: u32, max: u32, preferred: u32) -> Dimension
        requires above_minimum { min ≤ preferred }
        requires below_maximum { preferred ≤ max }
        requires max_in { max ≤ 1000000 }
        ensures { result ≡ record {
          minimum = min;
          maximum = max;
          weight = 1;
          preferred = preferred;
        } }
    {
        Dimension {
            min,
            max,
            weight: 1,
            preferred,
        }
    }

    /// Returns the minimum, the maximum, the weight and the preferred size.
    pub fn numbers(&self) -> (u32, u32, u32, u32)
        ensures minimum { result.0 ≡ self.now.minimum }
        ensures maximum { result.1 ≡ self.now.maximum }
        ensures weight { result.2 ≡ self.now.weight }
        ensures preferred { result.3 ≡ self.now.preferred }
        ensures ordered { IsDimension self.now }
    {
        (self.min, self.max, self.weight, self.preferred)
    }
}
