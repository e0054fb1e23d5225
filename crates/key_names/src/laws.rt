//! Laws of names, over every key.
ghost use Rattle.std.specs.Prelude.{◌≡◌, List, ℕ, Some, IsSome, IfOk, encode_utf8_all, string_bytes};
ghost use Rattle.key_names.specs.declared.key.Key.{Key};
ghost use Rattle.key_names.specs.KeyName.{name_of};

use crate::key::Key;
use crate::naming::{read_name, write_name};
use sequences::NoMemory;
use std::alloc::Global;

/// Reads what is written for a key that has a name: it is the key.
pub fn reads_what_is_written(alloc: Global, key: Key) -> Result<Key, NoMemory>
    requires { IsSome (name_of key) }
    ensures { IfOk result (λ read. read ≡ key) }
{
    let text = write_name(alloc, key)?;
    let name = spelled(alloc, text.as_slice())?;
    match read_name(&name) {
        Ok(read) => Ok(read),
        Err(_) => unreachable!(),
    }
}

/// Returns these characters as a string.
fn spelled(alloc: Global, text: &[char]) -> Result<String, NoMemory>
    ensures { IfOk result (λ name. encode_utf8_all text.now ≡ string_bytes name) }
{
    let mut name = String::new(alloc);
    for c in text {
        name.push(*c)?;
    }
    Ok(name)
}

/// No two keys have one name. The function does nothing: its contract is the law.
pub fn names_are_distinct()
    ensures { (a b : Key) (name : List ℕ) → name_of a ≡ Some name → name_of b ≡ Some name → a ≡ b }
{}
