//! Values that are set and refused, sizes that are read, and the sentences of faults.
use crate::{Config, SetFault, read_size};
use std::test::Fail;
use text_doc::Text;

fn text(rt: &HostRuntime, words: &str) -> Result<Text, Fail> {
    Ok(Text::read_str(rt.alloc(), words)?)
}

#[test]
fn sets_values(rt: HostRuntime) -> Result<(), Fail> {
    let mut config = Config::new(rt.alloc())?;
    assert_eq!(rt; config.message(), ['>', ' '].as_slice());
    assert!(rt; config.size().is_none());
    assert_eq!(rt; config.repeat(), 1);
    let cases = [
        ("Message", "a", Err(SetFault::UnknownName)),
        ("", "a", Err(SetFault::UnknownName)),
        ("message", "a\u{7f}", Err(SetFault::BadValue)),
        ("message", "\u{9f}", Err(SetFault::BadValue)),
        ("message", "\n", Err(SetFault::BadValue)),
        ("message", "\u{e4}\u{3000}", Ok(())),
        ("message", "b", Err(SetFault::Repeated)),
        ("message", "\n", Err(SetFault::Repeated)),
        ("size", "24 80", Err(SetFault::BadValue)),
        ("size", "500x1000", Ok(())),
        ("size", "24x80", Err(SetFault::Repeated)),
        ("sizes", "24x80", Err(SetFault::UnknownName)),
        ("repeat", "0", Err(SetFault::BadValue)),
        ("repeat", "101", Err(SetFault::BadValue)),
        ("repeat", "01", Err(SetFault::BadValue)),
        ("repeat", "100", Ok(())),
        ("repeat", "1", Err(SetFault::Repeated)),
        ("entry", "", Err(SetFault::BadValue)),
        ("entry", "a\nb", Ok(())),
        ("entry", "a", Ok(())),
    ];
    for (name, value, answer) in &cases {
        let value = text(&rt, value)?;
        assert_eq!(rt; config.set(name, &value), *answer, "{name}");
    }
    assert_eq!(rt; config.message(), ['\u{e4}', '\u{3000}'].as_slice());
    assert_eq!(rt; config.repeat(), 100);
    let size = config.size().expect(&rt, "the size that was set");
    assert_eq!(rt; (size.rows(), size.cols()), (500, 1000));
    Ok(())
}

#[test]
fn sets_texts_and_switches(rt: HostRuntime) -> Result<(), Fail> {
    let mut config = Config::new(rt.alloc())?;
    let cases = [
        ("toolbar", "", Err(SetFault::BadValue)),
        ("rprompt", "a", Ok(())),
        ("default", "a\nb", Ok(())),
        ("default", "", Err(SetFault::Repeated)),
        ("password", "off", Err(SetFault::BadValue)),
        ("multiline", "on", Ok(())),
        ("multiline", "on", Err(SetFault::Repeated)),
        ("no-wrap", "o", Err(SetFault::BadValue)),
    ];
    for (name, value, answer) in &cases {
        let value = text(&rt, value)?;
        assert_eq!(rt; config.set(name, &value), *answer, "{name}");
    }
    assert_eq!(rt; config.right_prompt(), ['a'].as_slice());
    assert_eq!(rt; config.default().len(), 3);
    assert!(rt; config.toolbar().is_empty());
    assert!(rt; config.multiline() && config.wraps() && !config.password());
    Ok(())
}

#[test]
fn sets_entries_of_many_lengths(rt: HostRuntime) -> Result<(), Fail> {
    let cases = [(32_768, Ok(())), (32_769, Err(SetFault::BadValue))];
    for (length, answer) in &cases {
        let mut entry = Text::new(rt.alloc());
        for _ in 0..*length {
            entry.push('a')?;
        }
        let mut config = Config::new(rt.alloc())?;
        assert_eq!(rt; config.set("entry", &entry), *answer, "{length}");
    }
    Ok(())
}

#[test]
fn sets_messages_of_many_lengths(rt: HostRuntime) -> Result<(), Fail> {
    let cases = [(0, Ok(())), (200, Ok(())), (201, Err(SetFault::BadValue))];
    for (length, answer) in &cases {
        let mut message = Text::new(rt.alloc());
        for _ in 0..*length {
            message.push('a')?;
        }
        let mut config = Config::new(rt.alloc())?;
        assert_eq!(rt; config.set("message", &message), *answer, "{length}");
        let shown = match answer {
            Ok(()) => *length,
            Err(_) => 2,
        };
        assert_eq!(rt; config.message().len(), shown);
    }
    Ok(())
}

#[test]
fn reads_sizes(rt: HostRuntime) -> Result<(), Fail> {
    let cases = [
        ("24x80", 'x', Some((24, 80))),
        ("1 1", ' ', Some((1, 1))),
        ("500x1000", 'x', Some((500, 1000))),
        ("501x1", 'x', None),
        ("1x1001", 'x', None),
        ("0x5", 'x', None),
        ("5x0", 'x', None),
        ("024x80", 'x', None),
        ("24x080", 'x', None),
        ("24", 'x', None),
        ("24x", 'x', None),
        ("x80", 'x', None),
        ("", 'x', None),
        ("24x80x", 'x', None),
        ("24xx80", 'x', None),
        ("24X80", 'x', None),
        ("+24x80", 'x', None),
        ("24x80 ", 'x', None),
        ("24  80", ' ', None),
        ("1844674407370955161624x80", 'x', None),
        ("\u{661}x1", 'x', None),
    ];
    for (words, separator, answer) in &cases {
        let text = text(&rt, words)?;
        let size = read_size(text.as_slice(), *separator);
        assert_eq!(rt;
            size.map(|size| (size.rows(), size.cols())),
            *answer,
            "{words}"
        );
    }
    Ok(())
}

#[test]
fn tells_faults(rt: HostRuntime) -> Result<(), Fail> {
    let sentences = [
        (SetFault::UnknownName, "no setting has this name"),
        (SetFault::Repeated, "the setting was set before"),
        (SetFault::BadValue, "the setting may not have this value"),
        (SetFault::NoMemory, "no memory for the setting"),
    ];
    for (fault, sentence) in sentences {
        let told = format!(in rt.alloc(); "{fault}")?;
        assert_eq!(rt; told.as_str(), sentence);
    }
    Ok(())
}
