//! The numbers among a control sequence's parameters.
ghost use Rattle.std.specs.Prelude.{◌≡◌, ◌≤◌, ◌∷◌};
ghost use Rattle.std.specs.List.{list_all};
ghost use Rattle.term_model.specs.Parameters.{is_numeric, numbers_from};
ghost use Rattle.term_model.specs.Meaning.{numbers_behind};

/// The greatest number that a parameter counts as.
const MAX_NUMBER: u32 = 9999;

/// Tells whether all of these are digits and separators.
pub(crate) fn is_numeric(params: &[u8]) -> bool
    ensures { result ≡ list_all is_numeric params.now }
{
    params
        .iter()
        .all(|b| (b'0'..=b'9').contains(b) || *b == b';')
}

/// Returns the first number of some digits and separators, and what stands behind its separator, if it has one.
pub(crate) fn first_number(params: &[u8]) -> (u32, Option<&[u8]>)
    ensures value { numbers_from 0 params.now ≡ result.0 ∷ numbers_behind result.1 }
    ensures small { result.0 ≤ 9999 }
{
    let mut value = 0;
    for (i, b) in params.iter().enumerate() {
        if *b == b';' {
            return (value, Some(&params[i + 1..]));
        }
        value = MAX_NUMBER.min(10 * value + u32::from(b.saturating_sub(b'0')));
    }
    (value, None)
}
