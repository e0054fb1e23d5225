//! The classes of characters of which control sequences are built (ECMA-48, 5.4).
ghost use Rattle.std.specs.Prelude.{◌≡◌};
ghost use Rattle.characters.specs.ControlCharacters.{is_parameter, is_intermediate, is_final};

/// Tells whether a character may stand among the parameters of a control sequence.
pub fn is_parameter(c: char) -> bool
    ensures { result ≡ is_parameter c }
{
    ('\u{30}'..='\u{3F}').contains(&c)
}

/// Tells whether a character may stand between the parameters of a control sequence and its final character.
pub fn is_intermediate(c: char) -> bool
    ensures { result ≡ is_intermediate c }
{
    ('\u{20}'..='\u{2F}').contains(&c)
}

/// Tells whether a character ends a control sequence.
pub fn is_final(c: char) -> bool
    ensures { result ≡ is_final c }
{
    ('\u{40}'..='\u{7E}').contains(&c)
}
