//! The words of the command, and which of them it does not take.

use crate::options::option_of;
use command_words::outside_of;
use std::alloc::{AllocError, Global};
use std::env;
use std::io::ErrorKind;
use std::rt::Env;

/// The words of the command are found wrong among so many of the first: each option stands once with one value.
const MOST: usize = 32;

/// Why the words could not be had.
#[derive(Clone, Copy, Debug, PartialEq, Eq)]
pub enum WordsFault {
    /// One of them is not UTF-8.
    NotText,
    /// There was no memory.
    NoMemory,
}

/// Returns the words of the command, of which the first is the program's name.
pub fn all_words<R: Env + AllocGlobal>(rt: &R) -> Result<Vec<String>, WordsFault> {
    let args = match env::args(rt) {
        Ok(args) => args,
        Err(fault) if fault.kind() == ErrorKind::InvalidData => return Err(WordsFault::NotText),
        Err(_) => return Err(WordsFault::NoMemory),
    };
    let mut words = Vec::new(rt.alloc());
    for word in args {
        if words.push(word).is_err() {
            return Err(WordsFault::NoMemory);
        }
    }
    Ok(words)
}

/// Returns the place of the first word that is not UTF-8, behind the program's name.
pub fn first_bad_place<R: Env>(rt: &R) -> usize {
    let mut buffer = [0u8; 4096];
    for place in 0..usize::MAX {
        match rt.arg(place, &mut buffer) {
            Ok(length) => {
                if str::from_utf8(&buffer[..length]).is_err() {
                    return place;
                }
            }
            Err(_) => return place,
        }
    }
    0
}

/// Returns the place of the word that the command does not take: the one behind the longest beginning that it takes.
pub fn first_refused(alloc: Global, words: &[String]) -> Result<usize, AllocError> {
    let mut place = 0;
    for count in 0..words.len().min(MOST) {
        if outside_of(alloc, &words[..count])?.accepted {
            place = count;
        }
    }
    Ok(place)
}

/// Returns what is wrong with the word at a place: what its option may have, or that it is none or stands there again.
pub fn reason_of(words: &[String], place: usize) -> &'static str {
    let Some(word) = words.get(place) else {
        return "the program has no name";
    };
    let Some(option) = option_of(word.as_str()) else {
        return match word.as_str() {
            "--help" | "--version" => "stands alone",
            _ => "no option of prompt, see prompt --help",
        };
    };
    for earlier in words.iter().take(place) {
        if option_of(earlier.as_str()).is_some_and(|other| other.name == option.name) {
            return "stands once";
        }
    }
    option.form
}

/// Returns the word at a place as a user knows it: of an option that is written with its value, the option.
pub fn shown_word(words: &[String], place: usize) -> &str {
    let Some(word) = words.get(place) else {
        return "";
    };
    match (option_of(word.as_str()), word.as_str().split_once('=')) {
        (Some(_), Some((name, _))) => name,
        _ => word.as_str(),
    }
}
