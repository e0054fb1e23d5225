//! The argument that digits give to the command after them, and what it amounts to.
ghost use Rattle.std.specs.Prelude.{◌≡◌, ◌≤◌, ◌<◌, min, IfOk};
ghost use Rattle.edit_state.specs.Arguments.{number_of_digits, amount_of, amount_in, times_of, count_of, turned, with_digit};

use sequences::{NoMemory, Text};
use std::alloc::Global;

/// The most digits that an argument keeps.
pub const MAX_DIGITS: usize = 8;

/// From this number on an argument counts as 1.
const TOO_MUCH: u32 = 1_000_000;

/// An argument as it is typed: a sign and at most `MAX_DIGITS` digits.
#[derive(Debug, Drop)]
pub struct Arg {
    pub negative: bool,
    pub digits: Text,
}

/// How much an argument is, and which way.
#[derive(Clone, Copy, Debug, PartialEq, Eq)]
pub enum Amount {
    /// As a command goes by itself.
    Forward(u32),
    /// The other way. The argument is negative.
    Backward(u32),
}

impl Arg {
    /// Returns what the argument amounts to. A lone sign is -1, and a number of more than six digits counts as one.
    pub fn amount(&self) -> Amount
        ensures { result ≡ amount_of self.now }
    {
        let number = capped_number(self.digits.as_slice());
        let size = if number < TOO_MUCH { number } else { 1 };
        if !self.negative {
            Amount::Forward(size)
        } else if self.digits.is_empty() {
            Amount::Backward(1)
        } else if size == 0 {
            Amount::Forward(0)
        } else {
            Amount::Backward(size)
        }
    }
}

/// Returns what an argument amounts to that may be held: 1 where none is.
pub fn amount_in(arg: &Option<Arg>) -> Amount
    ensures { result ≡ amount_in arg.now }
{
    match arg {
        Some(arg) => arg.amount(),
        None => Amount::Forward(1),
    }
}

/// Returns the argument with one more digit, and a new one where none is held. An argument of `MAX_DIGITS` digits keeps
/// those.
pub fn with_digit(alloc: Global, arg: &Option<Arg>, digit: char) -> Result<Arg, NoMemory>
    ensures { IfOk result (λ new. new ≡ with_digit arg.now digit) }
{
    match arg {
        None => Ok(Arg {
            negative: false,
            digits: Text::from_chars(alloc, &[digit])?,
        }),
        Some(arg) => {
            let mut digits = arg.digits.copy()?;
            digits.push(digit)?;
            digits.truncate(MAX_DIGITS);
            Ok(Arg {
                negative: arg.negative,
                digits,
            })
        }
    }
}

impl Amount {
    /// Returns the amount the other way.
    pub fn turned(self) -> Amount
        ensures { result ≡ turned self }
    {
        match self {
            Amount::Forward(count) => Amount::Backward(count),
            Amount::Backward(count) => Amount::Forward(count),
        }
    }

    /// Returns how often something is done that can't be done backward: not at all where the amount is negative.
    pub fn times(self) -> u32
        ensures { result ≡ times_of self }
    {
        match self {
            Amount::Forward(count) => count,
            Amount::Backward(_) => 0,
        }
    }

    /// Returns how often something is done that is done at least once.
    pub fn count(self) -> u32
        ensures count { result ≡ count_of self }
        ensures some { 0 < result }
    {
        self.times().max(1)
    }
}

/// Returns the number of the digits, or a million where it is greater.
fn capped_number(digits: &[char]) -> u32
    ensures { result ≡ min 1000000 (number_of_digits digits.now) }
{
    let mut number = 0;
    for c in digits {
        number = TOO_MUCH.min(number * 10 + (*c as u32).saturating_sub(48));
    }
    number
}
