//! Types letters into documents of 32,000 letters, so that what one costs at a place can be counted.
#![tactic(auto)]

use std::alloc::Global;
use std::io;
use text_doc::{Doc, InsertFault, Text};

/// Reads lines of two numbers, a place and how many letters are typed there, each into a new document.
fn main(rt: HostRuntime) -> io::Result<()> {
    for line in rt.lines(rt.alloc()) {
        let line = line?;
        let Some((place, letters)) = numbers(line.as_str()) else {
            println!(rt; "not two numbers")?;
            continue;
        };
        match typed(rt.alloc(), place, letters) {
            Ok(doc) => {
                let (row, col) = doc.row_col();
                println!(rt; "row {row}, column {col}")?;
            }
            Err(fault) => println!(rt; "{fault}")?,
        }
    }
    Ok(())
}

/// Returns the numbers of a line.
fn numbers(line: &str) -> Option<(usize, usize)> {
    let (place, letters) = line.split_once(' ')?;
    Some((place.parse().ok()?, letters.parse().ok()?))
}

/// Returns a document of 32,000 letters, in rows of 40, after letters were typed at a place.
fn typed(alloc: Global, place: usize, letters: usize) -> Result<Doc, InsertFault> {
    let mut text = Text::new(alloc);
    for number in 0..32_000_usize {
        text.push(if number % 40 == 39 { '\n' } else { 'a' })?;
    }
    let mut doc = Doc::new(alloc, text, 0)?;
    doc.set_cursor(place.min(doc.len()));
    for _ in 0..letters {
        doc.insert(&['b'])?;
    }
    Ok(doc)
}
