//! Answers and their batches worked out by hand, and each call that allocates once with ample memory.
use crate::{Answer, Batch, Items, Kind, Request};
use completers::{Completer, Tools, Validator, Verdict};
use std::alloc::Global;
use std::process::Abort;
use std::sync::Arc;
use std::test::Fail;
use text_doc::{Doc, Lines, MAX_LENGTH, NoMemory, Text};

fn doc(rt: &impl Abort, alloc: Global, words: &str) -> Result<Doc, Fail> {
    let text = Text::read_str(alloc, words)?;
    assert!(rt; text.len() <= MAX_LENGTH);
    let cursor = text.len();
    let mut doc = Doc::new(alloc, text, cursor)?;
    doc.set_mark(Some(0));
    Ok(doc)
}

/// Makes the words `a`, `ab`, `abb` and so on.
fn words(alloc: Global, count: usize) -> Result<Lines, NoMemory> {
    let mut words = Lines::new(alloc);
    let mut word = Text::read_str(alloc, "a")?;
    for _ in 0..count {
        words.push(word.copy()?)?;
        word.push('b')?;
    }
    Ok(words)
}

/// Makes a completer of `count` words, a history of the entry `alter table`, and a validator that wants a number.
fn tools(alloc: Global, count: usize) -> Result<Arc<Tools>, Fail> {
    let mut history = Lines::new(alloc);
    history.push(Text::read_str(alloc, "alter table")?)?;
    let completer = Completer::words(alloc, words(alloc, count)?, false)?;
    let tools = Tools {
        completer: Some(completer),
        history,
        validator: Validator::Number,
    };
    Ok(Arc::new(alloc, tools)?)
}

fn request(rt: &impl Abort, alloc: Global, kind: Kind, count: usize) -> Result<Request, Fail> {
    Ok(Request {
        id: 7,
        kind,
        doc: doc(rt, alloc, "a")?,
        tools: tools(alloc, count)?,
    })
}

fn made(
    rt: &impl Abort,
    alloc: Global,
    kind: Kind,
    count: usize,
    number: u32,
) -> Result<Batch, Fail> {
    let request = request(rt, alloc, kind, count)?;
    let batch = Batch::make(alloc, &request, number)?.ok_or("no such batch")?;
    Ok(batch)
}

/// Returns the lengths of the first and the last completion, and their number; zeros where there are none.
fn ends(items: &Items) -> (usize, usize, usize) {
    match items {
        Items::Completions(items) => match (items.as_slice().first(), items.as_slice().last()) {
            (Some(first), Some(last)) => (first.text.len(), last.text.len(), items.len()),
            _ => (0, 0, 0),
        },
        _ => (0, 0, 1),
    }
}

#[test]
fn batches_of_completions(rt: HostRuntime) -> Result<(), Fail> {
    let alloc = rt.alloc();
    // of how many words, the batch, its first and last word by their lengths, how many they are, and whether it is the last
    let rows = [
        (70, 0, (1, 64, 64), false),
        (70, 1, (65, 70, 6), true),
        (64, 0, (1, 64, 64), true),
        (65, 1, (65, 65, 1), true),
        (0, 0, (0, 0, 0), true),
    ];
    for (count, number, expected, last) in rows {
        let batch = made(&rt, alloc, Kind::Complete, count, number)?;
        assert_eq!(rt; ends(batch.items()), expected, "batch {number} of {count}");
        assert_eq!(rt; batch.last(), last, "batch {number} of {count}");
        assert_eq!(rt; batch.number(), number);
    }
    let none = [
        (Kind::Complete, 70, 2),
        (Kind::Complete, 64, 1),
        (Kind::Complete, 0, 1),
        (Kind::Complete, 70, u32::MAX),
        (Kind::Suggest, 70, 1),
        (Kind::Check, 70, 1),
    ];
    for (kind, count, number) in none {
        let request = request(&rt, alloc, kind, count)?;
        assert!(rt; Batch::make(alloc, &request, number)?.is_none());
    }
    Ok(())
}

/// Tells whether this suggestion is brought.
fn suggests(items: &Items, expected: &[char]) -> bool {
    match items {
        Items::Suggestion(Some(text)) => text.equals(expected),
        _ => false,
    }
}

/// Tells whether it is said that the text has a fault at its start.
fn finds_fault(items: &Items) -> bool {
    match items {
        Items::Verdict(Verdict::Invalid { at, .. }) => *at == 0,
        _ => false,
    }
}

#[test]
fn single_batches(rt: HostRuntime) -> Result<(), Fail> {
    let alloc = rt.alloc();
    let expected = Text::read_str(alloc, "lter table")?;
    let suggestion = made(&rt, alloc, Kind::Suggest, 3, 0)?;
    assert!(rt; suggestion.last() && suggests(suggestion.items(), expected.as_slice()));
    assert!(rt; suggests(suggestion.copy()?.items(), expected.as_slice()));
    assert!(rt; suggests(&suggestion.into_items(), expected.as_slice()));
    let verdict = made(&rt, alloc, Kind::Check, 3, 0)?;
    assert!(rt; verdict.last() && finds_fault(verdict.items()));
    assert!(rt; finds_fault(verdict.copy()?.items()));
    assert!(rt; finds_fault(&verdict.into_items()));
    Ok(())
}

#[test]
fn an_answer_in_batches(rt: HostRuntime) -> Result<(), Fail> {
    let alloc = rt.alloc();
    let mut answer = Answer::new(alloc, request(&rt, alloc, Kind::Complete, 140)?)?;
    assert_eq!(rt; (answer.request().id, answer.given()), (7, 0));
    let expected = [(1, 64, 64), (65, 128, 64), (129, 140, 12)];
    for wanted in expected {
        let batch = answer.next_batch()?.ok_or("no further batch")?;
        assert_eq!(rt; batch.last(), wanted.1 == 140);
        assert_eq!(rt; ends(&batch.into_items()), wanted);
    }
    assert!(rt; answer.next_batch()?.is_none());
    assert_eq!(rt; answer.given(), 3);
    Ok(())
}

#[test]
fn copies(rt: HostRuntime) -> Result<(), Fail> {
    let alloc = rt.alloc();
    let batch = made(&rt, alloc, Kind::Complete, 70, 1)?;
    let copy = batch.copy()?;
    assert_eq!(rt; ends(copy.items()), ends(batch.items()));
    assert_eq!(rt; (copy.number(), copy.last()), (1, true));
    assert_eq!(rt; copy.request().id, 7);
    assert_eq!(rt; copy.request().doc.mark(), Some(0));
    assert!(rt; copy.request().doc.is_same(&batch.request().doc));
    assert_eq!(rt; copy.request().tools.history.len(), 1);
    Ok(())
}
