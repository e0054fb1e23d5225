//! Names as a user writes them, the sentence of their fault, and texts of a press.
use crate::laws::reads_what_is_written;
use crate::{Key, KeyPress, UnknownKey, read_name, text_of_codes, write_name};
use std::test::Fail;

const NAMED: [(&str, Key); 14] = [
    ("a", Key::Char('a')),
    ("-", Key::Char('-')),
    ("é", Key::Char('é')),
    ("space", Key::Char(' ')),
    ("c-x", Key::Control('x')),
    ("c-@", Key::Control('@')),
    ("c-\\", Key::Control('\\')),
    ("escape", Key::Escape),
    ("s-tab", Key::BackTab),
    ("f1", Key::Function(1)),
    ("f12", Key::Function(12)),
    ("s-up", Key::ShiftUp),
    ("c-right", Key::ControlRight),
    ("ignored", Key::Ignored),
];

const UNKNOWN: [&str; 12] = [
    "", " ", "\t", "\u{7F}", "f0", "f13", "f01", "c-[", "c-A", "C-x", "tab", "aa",
];

#[test]
fn reads_names(rt: HostRuntime) {
    for (name, key) in NAMED {
        assert_eq!(rt; read_name(name), Ok(key), "at {name}");
    }
    for name in UNKNOWN {
        assert_eq!(rt; read_name(name), Err(UnknownKey), "at {name}");
    }
}

#[test]
fn writes_names(rt: HostRuntime) -> Result<(), Fail> {
    let name = write_name(rt.alloc(), Key::Function(10))?;
    assert_eq!(rt; name.as_slice(), ['f', '1', '0'].as_slice());
    let name = write_name(rt.alloc(), Key::Control('_'))?;
    assert_eq!(rt; name.as_slice(), ['c', '-', '_'].as_slice());
    let name = write_name(rt.alloc(), Key::Char('é'))?;
    assert_eq!(rt; name.as_slice(), ['é'].as_slice());
    assert_eq!(rt;
        reads_what_is_written(rt.alloc(), Key::Char('é'))?,
        Key::Char('é')
    );
    Ok(())
}

#[test]
fn an_unknown_name_is_told(rt: HostRuntime) -> Result<(), Fail> {
    let told = format!(in rt.alloc(); "{UnknownKey}")?;
    assert_eq!(rt; told.as_str(), "no key has this name");
    Ok(())
}

#[test]
fn copies_a_press(rt: HostRuntime) -> Result<(), Fail> {
    let text = text_of_codes(rt.alloc(), b"\x1B[")?;
    let press = KeyPress {
        key: Key::Ignored,
        text,
    };
    let twin = press.copy()?;
    assert_eq!(rt; twin.key, Key::Ignored);
    assert_eq!(rt; twin.text.as_slice(), ['\u{1B}', '['].as_slice());
    Ok(())
}
