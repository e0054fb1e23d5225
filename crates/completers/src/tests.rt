//! Lists, suggestions and verdicts worked out by hand, tools that go to another thread, and each call that allocates once
//! with ample memory.
use crate::{
    Completer, MAX_COMPLETIONS, NestedOption, NestedOptions, Tools, Validator, Verdict,
    completions, suggest,
};
use std::alloc::Global;
use std::process::Abort;
use std::sync::Arc;
use std::test::Fail;
use std::thread;
use text_doc::{Completions, Doc, Item, Lines, MAX_LENGTH, NoMemory, Text};

fn doc(rt: &impl Abort, alloc: Global, words: &str, cursor: usize) -> Result<Doc, Fail> {
    let text = Text::read_str(alloc, words)?;
    assert!(rt; cursor <= text.len());
    assert!(rt; text.len() <= MAX_LENGTH);
    Ok(Doc::new(alloc, text, cursor)?)
}

fn lines(alloc: Global, texts: &[&str]) -> Result<Lines, NoMemory> {
    let mut lines = Lines::new(alloc);
    for text in texts {
        lines.push(Text::read_str(alloc, text)?)?;
    }
    Ok(lines)
}

fn words(alloc: Global, texts: &[&str], middle: bool) -> Result<Completer, NoMemory> {
    Completer::words(alloc, lines(alloc, texts)?, middle)
}

/// Makes the options `show` with two inner words, `exit` without any, and two of the name `set`, of which the second has
/// one.
fn options(alloc: Global) -> Result<NestedOptions, NoMemory> {
    let mut options = NestedOptions::new(alloc);
    options.push(NestedOption {
        name: Text::read_str(alloc, "show")?,
        words: Some(lines(alloc, &["tables", "columns"])?),
    })?;
    options.push(NestedOption {
        name: Text::read_str(alloc, "exit")?,
        words: None,
    })?;
    options.push(NestedOption {
        name: Text::read_str(alloc, "set")?,
        words: None,
    })?;
    options.push(NestedOption {
        name: Text::read_str(alloc, "set")?,
        words: Some(lines(alloc, &["x"])?),
    })?;
    options.copy()
}

/// Writes each completion as its text, `/`, the last digit of `back`, and a space.
fn written(alloc: Global, items: &Completions) -> Result<Text, NoMemory> {
    let mut all = Text::new(alloc);
    for item in items.as_slice() {
        all.extend_from_slice(item.text.as_slice())?;
        all.push('/')?;
        all.push(char::from(b'0' + (item.back % 10) as u8))?;
        all.push(' ')?;
    }
    Ok(all)
}

/// Completes each text at its cursor.
fn complete(
    rt: &impl Abort,
    alloc: Global,
    completer: &Completer,
    rows: &[(&str, usize, &str)],
) -> Result<(), Fail> {
    for (text, cursor, expected) in rows {
        let doc = doc(rt, alloc, text, *cursor)?;
        let items = completions(alloc, completer, &doc)?;
        let shown = written(alloc, &items)?;
        let expected = Text::read_str(alloc, expected)?;
        assert!(rt; shown.equals(expected.as_slice()), "at {cursor} in {text}");
    }
    Ok(())
}

#[test]
fn listed_words(rt: HostRuntime) -> Result<(), Fail> {
    let listed = ["select", "set", "SET", "_se", "se"];
    let rows = [
        ("", 0, "select/0 set/0 SET/0 _se/0 se/0 "),
        ("se", 2, "select/2 set/2 se/2 "),
        // the typed word ends at the cursor, and begins behind white space or another class
        ("selx", 2, "select/2 set/2 se/2 "),
        ("x se", 4, "select/2 set/2 se/2 "),
        ("x.se", 4, "select/2 set/2 se/2 "),
        ("x\tse y", 4, "select/2 set/2 se/2 "),
        ("xse", 3, ""),
        ("se.", 3, ""),
        // behind white space all fit
        ("se ", 3, "select/0 set/0 SET/0 _se/0 se/0 "),
        ("se\n", 3, "select/0 set/0 SET/0 _se/0 se/0 "),
    ];
    let completer = words(rt.alloc(), listed.as_slice(), false)?;
    complete(&rt, rt.alloc(), &completer, rows.as_slice())?;
    let inside = [
        ("se", 2, "select/2 set/2 _se/2 se/2 "),
        ("t", 1, "select/1 set/1 "),
        ("ec", 2, "select/2 "),
        ("eT", 2, ""),
        ("", 0, "select/0 set/0 SET/0 _se/0 se/0 "),
    ];
    let completer = words(rt.alloc(), listed.as_slice(), true)?;
    complete(&rt, rt.alloc(), &completer, inside.as_slice())?;
    // a part that a repeated character precedes, and characters that differ in their last bits, or in bits before them
    let inside = [("aab", 3, "aaab/3 "), ("\u{1f601}", 1, "x\u{1f601}/1 ")];
    let listed = ["aaab", "ab", "x\u{1f600}", "x\u{1f601}", "x\u{1f681}"];
    let completer = words(rt.alloc(), listed.as_slice(), true)?;
    complete(&rt, rt.alloc(), &completer, inside.as_slice())
}

#[test]
fn nested_options(rt: HostRuntime) -> Result<(), Fail> {
    let rows = [
        ("", 0, "show/0 exit/0 set/0 set/0 "),
        ("s", 1, "show/1 set/1 set/1 "),
        (" \t s", 4, "show/1 set/1 set/1 "),
        ("show", 4, "show/4 "),
        ("show ", 5, "tables/0 columns/0 "),
        ("  show  ta x", 10, "tables/2 "),
        ("show x ", 7, "tables/0 columns/0 "),
        ("show t.c", 8, "columns/1 "),
        // no inner words: of the option, of the first one of the name, and without such an option
        ("exit ", 5, ""),
        ("set ", 4, ""),
        ("sho ", 4, ""),
        // a tab is no space, but ends the name
        ("show\ts", 6, "show/1 set/1 set/1 "),
        ("show\tx c", 8, "columns/1 "),
    ];
    let completer = Completer::nested(rt.alloc(), options(rt.alloc())?)?;
    complete(&rt, rt.alloc(), &completer, rows.as_slice())
}

#[test]
fn merged_and_distinct(rt: HostRuntime) -> Result<(), Fail> {
    let alloc = rt.alloc();
    let merged = Completer::merged(
        words(alloc, &["sort", "show"], false)?,
        Completer::nested(alloc, options(alloc)?)?,
    )?;
    let rows = [
        ("s", 1, "sort/1 show/1 show/1 set/1 set/1 "),
        ("show s", 6, "sort/1 show/1 "),
    ];
    complete(&rt, alloc, &merged, rows.as_slice())?;
    let rows = [
        ("s", 1, "sort/1 show/1 set/1 "),
        ("set", 3, ""),
        ("sets", 3, ""),
    ];
    let distinct = Completer::distinct(merged)?;
    complete(&rt, alloc, &distinct, rows.as_slice())?;
    complete(&rt, alloc, &distinct.copy()?, rows.as_slice())?;

    let first = Completer::merged(
        words(alloc, &["ab", "ac"], false)?,
        words(alloc, &["ab", "b"], false)?,
    )?;
    let three = Completer::merged(first, words(alloc, &["a", "b", "ac", "ad"], false)?)?;
    let rows = [
        ("a", 1, "ab/1 ac/1 ad/1 "),
        ("", 0, "ab/0 ac/0 b/0 a/0 ad/0 "),
    ];
    let distinct = Completer::distinct(three)?;
    complete(&rt, alloc, &distinct, rows.as_slice())?;
    // what stands behind the distinct ones stays as it is
    let behind = Completer::merged(distinct, words(alloc, &["ab", "a"], false)?)?;
    complete(&rt, alloc, &behind, &[("a", 1, "ab/1 ac/1 ad/1 ab/1 a/1 ")])
}

#[test]
fn first_ten_thousand(rt: HostRuntime) -> Result<(), Fail> {
    let alloc = rt.alloc();
    let mut listed = Lines::new(alloc);
    for _ in 0..MAX_COMPLETIONS + 1 {
        listed.push(Text::read_str(alloc, "a")?)?;
    }
    let completer = Completer::words(alloc, listed, false)?;
    let items = completions(alloc, &completer, &doc(&rt, alloc, "", 0)?)?;
    assert_eq!(rt; items.len(), MAX_COMPLETIONS);
    Ok(())
}

#[test]
fn suggestions(rt: HostRuntime) -> Result<(), Fail> {
    let alloc = rt.alloc();
    let old = ["select 1", "x\nselect 2\nselect 3\n", "drop", "  y"];
    // the text, and the suggestion, if there is one
    let rows = [
        ("sel", Some("ect 3")),
        ("select 1", Some("")),
        ("select 2", Some("")),
        ("d", Some("rop")),
        ("x\nd", Some("rop")),
        ("elect", None),
        ("d\n", None),
        ("", None),
        ("  ", None),
        ("  y", Some("")),
    ];
    let history = lines(alloc, old.as_slice())?;
    for (text, expected) in rows {
        let found = suggest(alloc, &history, &doc(&rt, alloc, text, 0)?)?;
        match (found, expected) {
            (Some(rest), Some(expected)) => {
                let expected = Text::read_str(alloc, expected)?;
                assert!(rt; rest.equals(expected.as_slice()), "behind {text}");
            }
            (found, expected) => {
                assert_eq!(rt; found.is_some(), expected.is_some(), "behind {text}");
            }
        }
    }
    Ok(())
}

#[test]
fn verdicts(rt: HostRuntime) -> Result<(), Fail> {
    let alloc = rt.alloc();
    let digits = "12345678901234567890123456789012345678";
    check(&rt, alloc, &Validator::Any, "", &[("", None), ("(x", None)])?;
    let rows = [("", Some(0)), (" \t\n", Some(0)), (" x", None)];
    check(
        &rt,
        alloc,
        &Validator::NonEmpty,
        "empty input",
        rows.as_slice(),
    )?;
    let many = format!(in alloc; "{digits}9")?;
    let signed = format!(in alloc; "-{digits}")?;
    let too_many = format!(in alloc; "-{digits}9")?;
    let rows = [
        ("0", None),
        ("-12", None),
        (digits, None),
        (signed.as_str(), None),
        ("", Some(0)),
        ("-", Some(1)),
        ("x1", Some(0)),
        ("12x", Some(2)),
        ("1-", Some(1)),
        ("--1", Some(1)),
        (" 1", Some(0)),
        (many.as_str(), Some(38)),
        (too_many.as_str(), Some(39)),
    ];
    check(
        &rt,
        alloc,
        &Validator::Number,
        "not a number",
        rows.as_slice(),
    )?;
    let rows = [("b c", None), ("b", Some(0)), ("", Some(0))];
    let one_of = Validator::OneOf(lines(alloc, &["a", "b c"])?);
    check(&rt, alloc, &one_of, "not one of the words", rows.as_slice())?;
    let rows = [
        ("", None),
        ("f(a[1], {})<", None),
        ("(", Some(0)),
        ("(a[b]", Some(0)),
        ("(()(", Some(3)),
        ("a)b(", Some(1)),
        ("(]", Some(1)),
        ("([)]", Some(2)),
        ("{[]}}(", Some(4)),
    ];
    check(
        &rt,
        alloc,
        &Validator::Balanced,
        "bracket not balanced",
        rows.as_slice(),
    )
}

/// Checks each text, with a copy of the validator and of each verdict. The place of the fault is given, if there is
/// one.
fn check(
    rt: &impl Abort,
    alloc: Global,
    validator: &Validator,
    said: &str,
    rows: &[(&str, Option<usize>)],
) -> Result<(), Fail> {
    let said = Text::read_str(alloc, said)?;
    for (text, expected) in rows {
        let verdict = validator.copy()?.check(alloc, &doc(rt, alloc, text, 0)?)?;
        let fault = match verdict.copy()? {
            Verdict::Valid => None,
            Verdict::Invalid { at, message } => {
                assert!(rt; message.equals(said.as_slice()), "of {text}");
                Some(at)
            }
        };
        assert_eq!(rt; fault, *expected, "in {text}");
    }
    Ok(())
}

#[test]
fn tools_reach_another_thread(rt: HostRuntime) -> Result<(), Fail> {
    let alloc = rt.alloc();
    let tools = Tools {
        completer: Some(Completer::distinct(words(alloc, &["ab", "ab"], false)?)?),
        history: lines(alloc, &["ab"])?,
        validator: Validator::OneOf(lines(alloc, &["ab"])?),
    };
    let tools = Arc::new(alloc, tools.copy()?)?;
    let kept = Arc::try_clone(&tools)?;
    let (to, from) = crossbeam_channel::unbounded::<Arc<Tools>, Global>(alloc)?;
    let worker = thread::spawn(&rt, move || match from.recv(&rt) {
        Ok(tools) => tools.history.len(),
        Err(_) => 0,
    })?;
    let _ = to.send(&rt, tools);
    drop(to);
    assert_eq!(rt; worker.join(&rt), kept.history.len());
    Ok(())
}
