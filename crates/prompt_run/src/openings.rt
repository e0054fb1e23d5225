//! What the first part of a script gives to a run.
ghost use Rattle.std.specs.Prelude.{◌≡◌, ◌≤◌, [], ◌∷◌, ◌++◌, List, ℕ, length, if◌then◌else◌, codes, IfOk, OnOk};
ghost use Rattle.std.specs.List.{All};
ghost use Rattle.std.specs.Str.{bytes_eq};
ghost use Rattle.prompt_run.specs.Given.{entries_in, nothing_given};
ghost use Rattle.prompt_run.specs.Playing.{SetsTo};
ghost use Rattle.prompt_run.specs.Script.{set_in};

use session_core::{Config, SetFault};
use std::alloc::{AllocError, Global};
use std::marker::Model;
use text_doc::{Lines, NoMemory, Text};

/// The settings of a run, and the entries of its history, with the oldest first.
#[derive(Drop)]
pub struct Opening {
    pub config: Config,
    pub entries: Lines,
}

impl Model for Opening {
    ghost use Rattle.std.specs.Prelude.{◌≤◌, length};
    ghost use Rattle.std.specs.List.{All};
    ghost use Rattle.prompt_run.specs.Given.{Given};

    ghost Value = { Given };

    ghost view = { λ opening. record { settings = opening.config; entries = opening.entries } };

    ghost invariant = { λ opening. All (λ entry. length entry ≤ 32768) opening.entries };
}

/// Returns what is given where nothing was set.
pub fn new_opening(alloc: Global) -> Result<Opening, NoMemory>
    ensures { IfOk result (λ opening. opening ≡ nothing_given) }
{
    let config = Config::new(alloc)?;
    Ok(Opening {
        config,
        entries: Lines::new(alloc),
    })
}

/// Sets the value of a name, and tells whether it could be set. Where it could not all is as before.
pub fn set(opening: &mut Opening, name: &str, value: Text) -> Result<bool, NoMemory>
    ensures { IfOk result (λ sets. SetsTo sets opening.old
        (set_in opening.old name.now value) opening.new) }
{
    match opening.config.set(name, &value) {
        Ok(()) => {}
        Err(SetFault::NoMemory) => return Err(AllocError),
        Err(_) => return Ok(false),
    }
    if name == "entry" {
        opening.entries.push(value)?;
    }
    Ok(true)
}
