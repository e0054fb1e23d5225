//! Keys from bytes, as the table of sequences and the public standards have them.
use crate::{Keys, NoMemory, Parser, standard_table};
use key_names::{Key, KeyPress};
use std::alloc::Global;
use std::test::Fail;

// The sequences of keys, as xterm sends them.
const SPELLED: [(&[u8], Key); 75] = [
    (b"\x00", Key::Control('@')),
    (b"\x01", Key::Control('a')),
    (b"\x02", Key::Control('b')),
    (b"\x03", Key::Control('c')),
    (b"\x04", Key::Control('d')),
    (b"\x05", Key::Control('e')),
    (b"\x06", Key::Control('f')),
    (b"\x07", Key::Control('g')),
    (b"\x08", Key::Control('h')),
    (b"\x09", Key::Control('i')),
    (b"\x0A", Key::Control('j')),
    (b"\x0B", Key::Control('k')),
    (b"\x0C", Key::Control('l')),
    (b"\x0D", Key::Control('m')),
    (b"\x0E", Key::Control('n')),
    (b"\x0F", Key::Control('o')),
    (b"\x10", Key::Control('p')),
    (b"\x11", Key::Control('q')),
    (b"\x12", Key::Control('r')),
    (b"\x13", Key::Control('s')),
    (b"\x14", Key::Control('t')),
    (b"\x15", Key::Control('u')),
    (b"\x16", Key::Control('v')),
    (b"\x17", Key::Control('w')),
    (b"\x18", Key::Control('x')),
    (b"\x19", Key::Control('y')),
    (b"\x1A", Key::Control('z')),
    (b"\x1B", Key::Escape),
    (b"\x1C", Key::Control('\\')),
    (b"\x1D", Key::Control(']')),
    (b"\x1E", Key::Control('^')),
    (b"\x1F", Key::Control('_')),
    (b"\x7F", Key::Control('h')),
    (b"\x1B[A", Key::Up),
    (b"\x1B[B", Key::Down),
    (b"\x1B[C", Key::Right),
    (b"\x1B[D", Key::Left),
    (b"\x1BOA", Key::Up),
    (b"\x1BOB", Key::Down),
    (b"\x1BOC", Key::Right),
    (b"\x1BOD", Key::Left),
    (b"\x1B[H", Key::Home),
    (b"\x1BOH", Key::Home),
    (b"\x1B[1~", Key::Home),
    (b"\x1B[7~", Key::Home),
    (b"\x1B[F", Key::End),
    (b"\x1BOF", Key::End),
    (b"\x1B[4~", Key::End),
    (b"\x1B[8~", Key::End),
    (b"\x1B[2~", Key::Insert),
    (b"\x1B[3~", Key::Delete),
    (b"\x1B[5~", Key::PageUp),
    (b"\x1B[6~", Key::PageDown),
    (b"\x1BOP", Key::Function(1)),
    (b"\x1BOQ", Key::Function(2)),
    (b"\x1BOR", Key::Function(3)),
    (b"\x1BOS", Key::Function(4)),
    (b"\x1B[15~", Key::Function(5)),
    (b"\x1B[17~", Key::Function(6)),
    (b"\x1B[18~", Key::Function(7)),
    (b"\x1B[19~", Key::Function(8)),
    (b"\x1B[20~", Key::Function(9)),
    (b"\x1B[21~", Key::Function(10)),
    (b"\x1B[23~", Key::Function(11)),
    (b"\x1B[24~", Key::Function(12)),
    (b"\x1B[Z", Key::BackTab),
    (b"\x1B[1;2A", Key::ShiftUp),
    (b"\x1B[1;2B", Key::ShiftDown),
    (b"\x1B[1;2C", Key::ShiftRight),
    (b"\x1B[1;2D", Key::ShiftLeft),
    (b"\x1B[1;5A", Key::ControlUp),
    (b"\x1B[1;5B", Key::ControlDown),
    (b"\x1B[1;5C", Key::ControlRight),
    (b"\x1B[1;5D", Key::ControlLeft),
    (b"\x1B[200~", Key::Paste),
];

fn new_parser(alloc: Global) -> Result<Parser<75>, NoMemory> {
    Parser::new(alloc, standard_table(alloc)?)
}

fn is_press(press: Option<&KeyPress>, key: Key, text: &[char]) -> bool {
    match press {
        Some(press) => press.key == key && press.text.as_slice() == text,
        None => false,
    }
}

fn are_presses(keys: &Keys, expected: &[(Key, &[char])]) -> bool {
    for (i, (key, text)) in expected.iter().enumerate() {
        if !is_press(keys.get(i), *key, text) {
            return false;
        }
    }
    keys.len() == expected.len()
}

/// Tells whether each press is a character.
fn are_chars(keys: &Keys, chars: &[char]) -> bool {
    for (i, c) in chars.iter().enumerate() {
        if !is_press(keys.get(i), Key::Char(*c), &[*c]) {
            return false;
        }
    }
    keys.len() == chars.len()
}

/// Tells whether the first press is escape, and each further one a character of the bytes.
fn is_typed_after_escape(keys: &Keys, bytes: &[u8]) -> bool {
    for (i, byte) in bytes.iter().enumerate() {
        let key = if *byte == 0x1B {
            Key::Escape
        } else {
            Key::Char(*byte as char)
        };
        if !is_press(keys.get(i), key, &[*byte as char]) {
            return false;
        }
    }
    keys.len() == bytes.len()
}

/// Returns what a new parser gives for the bytes in two pieces.
fn fed_in_two(alloc: Global, bytes: &[u8], at: usize) -> Result<(Keys, Keys), NoMemory> {
    let (front, back) = bytes.split_at(at.min(bytes.len()));
    let mut parser = new_parser(alloc)?;
    let first = parser.feed(front)?;
    let second = parser.feed(back)?;
    Ok((first, second))
}

/// Tells whether the bytes wait, and a flush types them.
fn waits_and_is_typed(alloc: Global, bytes: &[u8]) -> Result<bool, NoMemory> {
    let mut parser = new_parser(alloc)?;
    let waits = parser.feed(bytes)?.len() == 0 && parser.holds();
    let keys = parser.flush()?;
    Ok(waits && is_typed_after_escape(&keys, bytes) && !parser.holds())
}

#[test]
fn flushes_each_proper_prefix(rt: HostRuntime) -> Result<(), Fail> {
    for (bytes, _) in SPELLED {
        for n in 1..bytes.len() {
            assert!(rt; waits_and_is_typed(rt.alloc(), &bytes[..n])?, "at {n}");
        }
    }
    Ok(())
}

/// Tells whether the sequence is one key, but for escape, which waits, and the mark that opens a paste.
fn is_read_at(alloc: Global, bytes: &[u8], key: Key, at: usize) -> Result<bool, NoMemory> {
    let (first, second) = fed_in_two(alloc, bytes, at)?;
    let read = match second.get(0) {
        Some(press) => press.key == key && press.text.len() == bytes.len() && second.len() == 1,
        None => key == Key::Escape || key == Key::Paste,
    };
    Ok(read && first.len() == 0)
}

#[test]
fn reads_each_sequence_at_each_cut(rt: HostRuntime) -> Result<(), Fail> {
    for (bytes, key) in SPELLED {
        for n in 0..bytes.len() {
            assert!(rt; is_read_at(rt.alloc(), bytes, key, n)?, "at {n}");
        }
    }
    Ok(())
}

#[test]
fn ignores_unknown_sequences(rt: HostRuntime) -> Result<(), Fail> {
    let (first, second) = fed_in_two(rt.alloc(), b"a\x1B[99~b\x1B[1;9Cc", 11)?;
    assert!(rt;
        are_presses(
            &first,
            &[
                (Key::Char('a'), &['a']),
                (Key::Ignored, &['\u{1B}', '[', '9', '9', '~']),
                (Key::Char('b'), &['b']),
            ]
        )
    );
    assert!(rt;
        are_presses(
            &second,
            &[
                (Key::Ignored, &['\u{1B}', '[', '1', ';', '9', 'C']),
                (Key::Char('c'), &['c']),
            ]
        )
    );
    Ok(())
}

// Control sequences with intermediate characters: that of a cursor's shape, and that of a soft reset.
const WITH_INTERMEDIATES: [&[u8]; 3] = [b"\x1B[1 q", b"\x1B[!p", b"\x1B[?1;2$ y"];

#[test]
fn ignores_sequences_with_intermediates(rt: HostRuntime) -> Result<(), Fail> {
    for bytes in WITH_INTERMEDIATES {
        assert!(rt; is_ignored(rt.alloc(), bytes)?);
    }
    // Behind an intermediate character no parameter stands.
    let late = b"\x1B[ 1q";
    let keys = new_parser(rt.alloc())?.feed(late)?;
    assert!(rt; is_typed_after_escape(&keys, late));
    Ok(())
}

/// Returns ESC [, some digits and a final letter.
fn sequence(alloc: Global, digits: usize) -> Result<Vec<u8>, NoMemory> {
    let mut bytes = Vec::from_slice(alloc, b"\x1B[")?;
    for _ in 0..digits {
        bytes.push(b'1')?;
    }
    bytes.push(b'A')?;
    Ok(bytes)
}

fn is_ignored(alloc: Global, bytes: &[u8]) -> Result<bool, NoMemory> {
    let keys = new_parser(alloc)?.feed(bytes)?;
    Ok(match keys.get(0) {
        Some(press) => press.key == Key::Ignored
            && press.text.len() == bytes.len()
            && keys.len() == 1,
        None => false,
    })
}

#[test]
fn ends_control_sequences_at_64_characters(rt: HostRuntime) -> Result<(), Fail> {
    let longest = sequence(rt.alloc(), 61)?;
    assert!(rt; longest.len() == 64 && is_ignored(rt.alloc(), longest.as_slice())?);
    let broken = sequence(rt.alloc(), 62)?;
    let keys = new_parser(rt.alloc())?.feed(broken.as_slice())?;
    assert!(rt; is_typed_after_escape(&keys, broken.as_slice()));
    Ok(())
}

const PASTED: &[u8] = b"\x1B[200~a\r\nb\rc\x1B[20\xFFe\n\x1B[201~";

const PASTED_TEXT: [char; 12] = [
    'a', '\n', 'b', '\n', 'c', '\u{1B}', '[', '2', '0', '\u{FFFD}', 'e', '\n',
];

/// Tells whether the paste is one key, with a flush at a place of it behind its opening mark.
fn is_pasted_at(alloc: Global, at: usize) -> Result<bool, NoMemory> {
    let (front, back) = PASTED.split_at(at.min(PASTED.len()));
    let mut parser = new_parser(alloc)?;
    let early = parser.feed(front)?.len();
    let quiet = at < 6 || parser.flush()?.len() == 0 && !parser.holds();
    let keys = parser.feed(back)?;
    Ok(quiet && early == 0 && are_presses(&keys, &[(Key::Paste, &PASTED_TEXT)]))
}

#[test]
fn pastes_at_each_cut(rt: HostRuntime) -> Result<(), Fail> {
    for n in 0..PASTED.len() {
        assert!(rt; is_pasted_at(rt.alloc(), n)?, "at {n}");
    }
    Ok(())
}

/// Returns the length of a pasted text of so many pieces of 65,536 letters.
fn pasted_length(alloc: Global, pieces: usize) -> Result<usize, NoMemory> {
    let letters = vec![in alloc; b'a'; 65_536]?;
    let mut parser = new_parser(alloc)?;
    parser.feed(b"\x1B[200~")?;
    for _ in 0..pieces {
        parser.feed(letters.as_slice())?;
    }
    let keys = parser.feed(b"\x1B[201~")?;
    Ok(match keys.get(0) {
        Some(press) => press.text.len(),
        None => 0,
    })
}

#[test]
fn keeps_the_first_characters_of_a_paste(rt: HostRuntime) -> Result<(), Fail> {
    assert_eq!(rt; pasted_length(rt.alloc(), 40)?, 32_769);
    Ok(())
}

// Bytes and their characters, as in the Unicode Standard's Tables 3-8 to 3-11.
const DECODED: [(&[u8], &[char]); 6] = [
    (b"\xC3\xA9\xE2\x82\xAC\xF0\x9F\x98\x80", &['é', '€', '😀']),
    (b"\xC0\xAF", &['\u{FFFD}', '\u{FFFD}']),
    (b"\xE0\x80\xAFa", &['\u{FFFD}', '\u{FFFD}', '\u{FFFD}', 'a']),
    (b"\xF0\x9F\x98a", &['\u{FFFD}', 'a']),
    (
        b"\xE1\x80\xE2\xF0\x91\x92\xF1\xBFA",
        &['\u{FFFD}', '\u{FFFD}', '\u{FFFD}', '\u{FFFD}', 'A'],
    ),
    (
        b"\xF4\x91\x92\x93\xFFA",
        &[
            '\u{FFFD}', '\u{FFFD}', '\u{FFFD}', '\u{FFFD}', '\u{FFFD}', 'A',
        ],
    ),
];

fn is_decoded_at(alloc: Global, bytes: &[u8], chars: &[char], at: usize) -> Result<bool, NoMemory> {
    let (first, second) = fed_in_two(alloc, bytes, at)?;
    let (front, back) = chars.split_at(first.len().min(chars.len()));
    Ok(are_chars(&first, front) && are_chars(&second, back))
}

#[test]
fn decodes_at_each_cut(rt: HostRuntime) -> Result<(), Fail> {
    for (bytes, chars) in DECODED {
        for n in 0..bytes.len() {
            assert!(rt; is_decoded_at(rt.alloc(), bytes, chars, n)?, "at {n}");
        }
    }
    Ok(())
}

#[test]
fn flushes_an_unfinished_character(rt: HostRuntime) -> Result<(), Fail> {
    let mut parser = new_parser(rt.alloc())?;
    let fed = parser.feed(b"\xE2\x82")?;
    assert!(rt; fed.len() == 0 && parser.holds());
    let keys = parser.flush()?;
    assert!(rt; are_chars(&keys, &['\u{FFFD}']) && !parser.holds());
    Ok(())
}

#[test]
fn clears_an_open_paste(rt: HostRuntime) -> Result<(), Fail> {
    let mut parser = new_parser(rt.alloc())?;
    let early = parser.feed(b"\x1B[200~ab\xE2")?.len();
    parser.clear();
    let keys = parser.feed(b"\x82c")?;
    assert!(rt; early == 0 && are_chars(&keys, &['\u{FFFD}', 'c']));
    Ok(())
}

#[test]
fn gives_keys_away(rt: HostRuntime) -> Result<(), Fail> {
    let keys = new_parser(rt.alloc())?.feed(b"a\x1B[Z")?;
    let mut queue = keys.copy()?.into_queue();
    assert!(rt; is_press(queue.pop_front().as_ref(), Key::Char('a'), &['a']));
    assert!(rt;
        is_press(
            queue.pop_front().as_ref(),
            Key::BackTab,
            &['\u{1B}', '[', 'Z']
        )
    );
    assert!(rt; queue.is_empty());
    Ok(())
}
