//! Commands that build the argument for the next command.
ghost use Rattle.std.specs.Prelude.{◌≡◌, IfOk, OnOk, OnErr};
ghost use Rattle.edit_state.specs.Answers.{Answers};
ghost use Rattle.edit_cmds.specs.Counting.{digit_argument, is_full, negative_argument};

use edit_state::{Arg, Done, EditState, MAX_DIGITS, NoMemory, with_digit};
use key_names::{Key, KeyPress};
use std::alloc::Global;
use text_doc::Text;

/// Adds the digit of a key to the argument.
pub fn digit_argument(
    state: &mut EditState,
    alloc: Global,
    key: &KeyPress,
) -> Result<Done, NoMemory>
    ensures state { OnOk result (state.new ≡ digit_argument key.now.key state.old) }
    ensures err { OnErr result (state.new ≡ state.old) }
    ensures done { IfOk result (λ done. Answers ⊥ done state.old state.new) }
{
    match key.key {
        Key::Char(c) if c.is_ascii_digit() => {
            let full = is_full(&state.arg);
            state.arg = Some(with_digit(alloc, &state.arg, c)?);
            if full {
                Ok(Done::Same)
            } else {
                Ok(Done::Changed)
            }
        }
        _ => Ok(Done::Same),
    }
}

fn is_full(arg: &Option<Arg>) -> bool
    ensures { result ≡ is_full arg.now }
{
    match arg {
        Some(arg) => arg.digits.len() == MAX_DIGITS,
        None => false,
    }
}

/// Makes the argument a sign, where none is held.
pub fn negative_argument(state: &mut EditState, alloc: Global) -> Done
    ensures state { state.new ≡ negative_argument state.old }
    ensures done { Answers ⊥ result state.old state.new }
{
    if state.arg.is_some() {
        return Done::Same;
    }
    state.arg = Some(Arg {
        negative: true,
        digits: Text::new(alloc),
    });
    Done::Changed
}
