//! The command and its options.
ghost use Rattle.std.specs.Prelude.{◌≡◌, false, map, IfOk};
ghost use Rattle.clap.specs.Words.{app_of, rule_of};
ghost use Rattle.command_words.specs.Command.{action_of, option_rule, prompt_app, with_options};

use clap::{Arg, ArgAction, Command};
use std::alloc::Global;
use text_doc::NoMemory;

/// The settings that the command has an option for, each by its name.
pub const SETTINGS: [&str; 6] = ["message", "toolbar", "rprompt", "default", "size", "repeat"];

/// The settings that a flag of the command switches on, each by its name.
pub const FLAGS: [&str; 3] = ["multiline", "no-wrap", "password"];

/// The option for where the history is kept.
pub const HISTORY: &str = "history";

#[tactic(auto, unfolding(crate::specs::Command::prompt_app))]
/// Returns the command: an option for where the history is kept, and an option or a flag for each of the settings.
pub fn prompt_command<'a>(alloc: Global) -> Result<Command<'a>, NoMemory>
    ensures { IfOk result (λ command. app_of command ≡ prompt_app) }
{
    let command = Command::new(alloc, "prompt").arg(option(alloc, HISTORY, false))?;
    let command = with_options(alloc, command, &SETTINGS, false)?;
    with_options(alloc, command, &FLAGS, true)
}

/// Returns the command with options of these names besides, or with flags.
fn with_options<'a>(
    alloc: Global,
    command: Command<'a>,
    names: &[&'a str],
    flags: bool,
) -> Result<Command<'a>, NoMemory>
    ensures { IfOk result (λ more. app_of more
        ≡ with_options flags (app_of command.entry)
        (map (λ name. name.now) names.entry.now)) }
{
    let mut command = command;
    for name in names {
        command = command.arg(option(alloc, *name, flags))?;
    }
    Ok(command)
}

/// Returns an option that takes one value, or a flag. It stands once.
fn option<'a>(alloc: Global, name: &'a str, flag: bool) -> Arg<'a>
    ensures rule { rule_of result ≡ option_rule flag name.entry.now }
    ensures local { result.global ≡ false }
{
    Arg::new(alloc, name).long(name).action(action_of(flag))
}

fn action_of(flag: bool) -> ArgAction
    ensures { result ≡ action_of flag }
{
    if flag {
        ArgAction::SetTrue
    } else {
        ArgAction::Set
    }
}
