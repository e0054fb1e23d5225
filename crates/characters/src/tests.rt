//! The classes of characters, and the decoding of bytes in two parts.
use crate::{NoMemory, decode_into, is_final, is_intermediate, is_parameter};
use std::alloc::Global;
use std::test::Fail;

// A character, and whether it is a parameter, an intermediate and a final one.
const CLASSES: [(char, bool, bool, bool); 9] = [
    ('\u{1F}', false, false, false),
    (' ', false, true, false),
    ('/', false, true, false),
    ('0', true, false, false),
    (';', true, false, false),
    ('?', true, false, false),
    ('@', false, false, true),
    ('~', false, false, true),
    ('\u{7F}', false, false, false),
];

#[test]
fn tells_the_classes(rt: HostRuntime) {
    for (c, parameter, intermediate, last) in CLASSES {
        assert_eq!(rt; is_parameter(c), parameter, "at {c}");
        assert_eq!(rt; is_intermediate(c), intermediate, "at {c}");
        assert_eq!(rt; is_final(c), last, "at {c}");
    }
}

// Bytes, their characters, and how many bytes were read, as in the Unicode Standard's Tables 3-8 to 3-11.
const DECODED: [(&[u8], &[char], usize); 8] = [
    (b"", &[], 0),
    (b"\xC3\xA9\xE2\x82\xAC\xF0\x9F\x98\x80", &['é', '€', '😀'], 9),
    (b"\xC0\xAF", &['\u{FFFD}', '\u{FFFD}'], 2),
    (
        b"\xE0\x80\xAFa",
        &['\u{FFFD}', '\u{FFFD}', '\u{FFFD}', 'a'],
        4,
    ),
    (b"a\xF0\x9F\x98", &['a'], 1),
    (b"\xE2\x82", &[], 0),
    (b"\xE0\xC3", &['\u{FFFD}'], 1),
    (
        b"\xF4\x91\x92\x93\xFFA",
        &[
            '\u{FFFD}', '\u{FFFD}', '\u{FFFD}', '\u{FFFD}', '\u{FFFD}', 'A',
        ],
        6,
    ),
];

fn is_decoded(alloc: Global, bytes: &[u8], chars: &[char], read: usize) -> Result<bool, NoMemory> {
    let mut text = Vec::new(alloc);
    let taken = decode_into(bytes, &mut text)?;
    Ok(taken == read && text.as_slice() == chars)
}

#[test]
fn decodes_bytes(rt: HostRuntime) -> Result<(), Fail> {
    for (bytes, chars, read) in DECODED {
        assert!(rt; is_decoded(rt.alloc(), bytes, chars, read)?);
    }
    Ok(())
}
