//! What holds of numbers and arguments, each law as the contract of a function that does nothing.
ghost use Rattle.edit_state.specs.Laws.{NumbersReadBack, NinthDigitIsLost};

/// The command with the number of a command is that command, and a number without a command is no command's.
pub fn numbers_read_back()
    ensures { NumbersReadBack }
{}

/// A digit behind the eighth changes nothing.
pub fn ninth_digit_is_lost()
    ensures { NinthDigitIsLost }
{}
