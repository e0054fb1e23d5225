//! Reading the words of the command.
ghost use Rattle.std.specs.Prelude.{◌≡◌, [], IfOk, map, string_bytes};
ghost use Rattle.clap.specs.Words.{found_of, rows_of};
ghost use Rattle.command_words.specs.Asked.{asked_by, asked_of, on_if, settings_in, value_by, value_in, with_value_in, SetsTo};
ghost use Rattle.command_words.specs.Found.{Finds};

use crate::commands::{FLAGS, HISTORY, SETTINGS, prompt_command};
use clap::ArgMatches;
use clap::error::ErrorKind;
use prompt_settings::{Config, SetFault};
use std::alloc::{AllocError, Global};
use std::marker::Model;
use text_doc::{NoMemory, Text};

/// What the words of the command ask for.
#[derive(Debug, Drop)]
pub struct Asked {
    /// The settings of the prompt.
    pub config: Config,
    /// Where the history is kept, if it is.
    pub history: Option<Text>,
}

impl Model for Asked {
    ghost use Rattle.command_words.specs.Asked.{AskedFor};

    ghost Value = { AskedFor };

    ghost view = { λ asked. record { settings = asked.config; history = asked.history } };
}

#[tactic(auto, using(crate::proofs::WordLemmas::none_asked, crate::proofs::WordLemmas::some_asked))]
/// Returns what the words ask for, of which the first is the program's name. `None` where they are not words of the command:
/// there is an option for each setting but `entry`, written as `--name value` or `--name=value`, and `--history` with a path; a
/// setting that is switched on has a flag, written as `--name`. Each stands once at most, with a value that its setting may have.
pub fn read_words(alloc: Global, words: &[String]) -> Result<Option<Asked>, NoMemory>
    ensures { IfOk result (λ asked. asked ≡ asked_of (map string_bytes words.now)) }
{
    match find_options(alloc, words)? {
        Some(matches) => read_options(alloc, &matches),
        None => Ok(None),
    }
}

/// Returns the options that the words name, or `None` where a fault is found in them.
fn find_options<'a>(alloc: Global, words: &'a [String]) -> Result<Option<ArgMatches<'a>>, NoMemory>
    ensures { IfOk result (λ found. Finds (map string_bytes words.entry.now) found) }
{
    let command = prompt_command(alloc)?;
    match command.try_get_matches_from(words) {
        Ok(matches) => Ok(Some(matches)),
        Err(error) if error.kind() == ErrorKind::OutOfMemory => Err(AllocError),
        Err(_) => Ok(None),
    }
}

/// Returns what the options ask for, where each setting may have its value.
fn read_options(alloc: Global, matches: &ArgMatches<'_>) -> Result<Option<Asked>, NoMemory>
    ensures { IfOk result (λ asked. asked ≡ asked_by [] (rows_of (found_of matches.now))) }
{
    let mut config = Config::new(alloc)?;
    if !set_values(alloc, matches, &mut config, &SETTINGS, false)? {
        return Ok(None);
    }
    if !set_values(alloc, matches, &mut config, &FLAGS, true)? {
        return Ok(None);
    }
    let history = option_text(alloc, matches, HISTORY)?;
    Ok(Some(Asked { config, history }))
}

/// Sets the values of the options or flags of these names, and tells whether each may be set.
fn set_values(
    alloc: Global,
    matches: &ArgMatches<'_>,
    config: &mut Config,
    names: &[&str],
    flags: bool,
) -> Result<bool, NoMemory>
    ensures { IfOk result (λ sets. SetsTo sets
        (settings_in flags (rows_of (found_of matches.now)) (map (λ name. name.now) names.now) config.old)
        config.new) }
{
    for name in names {
        let value = option_value(alloc, matches, *name, flags)?;
        if !set_value(config, *name, value)? {
            return Ok(false);
        }
    }
    Ok(true)
}

/// Returns what a setting is given by its option, or by its flag, if it is.
fn option_value(
    alloc: Global,
    matches: &ArgMatches<'_>,
    name: &str,
    flag: bool,
) -> Result<Option<Text>, NoMemory>
    ensures { IfOk result (λ text. text
        ≡ value_by flag (rows_of (found_of matches.now)) name.now) }
{
    let text = option_text(alloc, matches, name)?;
    if flag { on_if(alloc, text) } else { Ok(text) }
}

/// Returns the value that switches a setting on, where its flag stands among the words.
fn on_if(alloc: Global, text: Option<Text>) -> Result<Option<Text>, NoMemory>
    ensures { IfOk result (λ value. value ≡ on_if text) }
{
    match text {
        Some(text) if text.as_slice() == ['t', 'r', 'u', 'e'].as_slice() => {
            let on = Text::from_chars(alloc, &['o', 'n'])?;
            Ok(Some(on))
        }
        _ => Ok(None),
    }
}

#[tactic(auto, using(crate::proofs::WordLemmas::value_is))]
/// Returns the value of an option, if it has one.
fn option_text(
    alloc: Global,
    matches: &ArgMatches<'_>,
    name: &str,
) -> Result<Option<Text>, NoMemory>
    ensures { IfOk result (λ text. text ≡ value_in (rows_of (found_of matches.now)) name.now) }
{
    match matches.get_str(name) {
        Some(value) => Ok(Some(Text::read_str(alloc, value)?)),
        None => Ok(None),
    }
}

/// Sets the value of a name, where there is one, and tells whether it may be set.
fn set_value(config: &mut Config, name: &str, value: Option<Text>) -> Result<bool, NoMemory>
    ensures { IfOk result (λ sets. SetsTo sets (with_value_in value name.now config.old)
        config.new) }
{
    let Some(value) = value else {
        return Ok(true);
    };
    match config.set(name, &value) {
        Ok(()) => Ok(true),
        Err(SetFault::NoMemory) => Err(AllocError),
        Err(_) => Ok(false),
    }
}
