//! Works out the answer to a request for completions: not at all, by one run of the completer, or in all its batches.
//! So what each of them costs can be counted from outside.
#![tactic(auto)]

use anyhow::{Error, anyhow};
use completers::{Completer, Tools, Validator, completions};
use requests::{Answer, Kind, Request};
use std::alloc::Global;
use std::env;
use std::sync::Arc;
use text_doc::{Doc, Lines, Text};

fn main(rt: HostRuntime) -> Result<(), Error> {
    let args: Vec<String> = env::args(&rt)?.collect(rt.alloc())?;
    let [_, task, words] = args.as_slice() else {
        return Err(anyhow!(
            "the words are one of setup, once and batches, and how many words are completed"
        ));
    };
    let request = request(rt.alloc(), words.as_str().parse::<u32>()?)?;
    let told = match task.as_str() {
        "once" => complete(rt.alloc(), &request)?,
        "batches" => take_batches(rt.alloc(), request)?,
        _ => 0,
    };
    println!(rt; "{told}")?;
    Ok(())
}

/// Makes a request to complete `w`, with which all of the words begin.
fn request(alloc: Global, count: u32) -> Result<Request, Error> {
    let mut words = Lines::new(alloc);
    for number in 0..count {
        let word = format!(in alloc; "word{number}")?;
        words.push(Text::read_str(alloc, word.as_str())?)?;
    }
    let tools = Tools {
        completer: Some(Completer::words(alloc, words, false)?),
        history: Lines::new(alloc),
        validator: Validator::Any,
    };
    let mut doc = Doc::new(alloc, Text::new(alloc), 0)?;
    doc.insert(&['w'])?;
    Ok(Request {
        id: 1,
        kind: Kind::Complete,
        doc,
        tools: Arc::new(alloc, tools)?,
    })
}

/// Runs the completer once, and returns how many completions it gives.
fn complete(alloc: Global, request: &Request) -> Result<usize, Error> {
    match &request.tools.completer {
        Some(completer) => Ok(completions(alloc, completer, &request.doc)?.len()),
        None => Ok(0),
    }
}

/// Takes all batches of the answer, and returns how many they are.
fn take_batches(alloc: Global, request: Request) -> Result<usize, Error> {
    let mut answer = Answer::new(alloc, request)?;
    for _ in 0..u32::MAX {
        if answer.next_batch()?.is_none() {
            break;
        }
    }
    Ok(answer.given() as usize)
}
