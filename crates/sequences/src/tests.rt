//! That the calls which allocate find memory, on texts, bytes, numbers and lists of texts.
use crate::{Bytes, Lines, Sequence, Text};
use std::test::Fail;

#[test]
fn texts_and_bytes(rt: HostRuntime) -> Result<(), Fail> {
    let text = Text::from_chars(rt.alloc(), &['é', '\u{3000}'])?;
    assert_eq!(rt;
        Text::read_str(rt.alloc(), "é\u{3000}")?.as_slice(),
        text.as_slice()
    );
    assert_eq!(rt; text.copy()?.as_slice(), text.as_slice());
    let mut bytes = Bytes::from_slice(rt.alloc(), &[0xc3])?;
    bytes.push(0xa9)?;
    bytes.extend_from_slice(&[0xe3, 0x80, 0x80])?;
    assert_eq!(rt; text.to_utf8()?.as_slice(), bytes.as_slice());
    assert_eq!(rt; bytes.copy()?.as_slice(), bytes.as_slice());
    let numbers = Sequence::<u32>::from_slice(rt.alloc(), &[7, 4_294_967_295])?;
    assert_eq!(rt; numbers.copy()?.as_slice(), numbers.as_slice());
    Ok(())
}

#[test]
fn lists_of_texts(rt: HostRuntime) -> Result<(), Fail> {
    let mut lines = Lines::new(rt.alloc());
    lines.push(Text::read_str(rt.alloc(), "a")?)?;
    lines.push(Text::new(rt.alloc()))?;
    let mut queue = lines.copy()?.into_queue();
    assert!(rt; matches!(queue.pop_front(), Some(line) if line.equals(&['a'])));
    let rest = queue.into_list();
    assert_eq!(rt; rest.len(), 1);
    assert!(rt; matches!(rest.get(0), Some(line) if line.is_empty()));
    Ok(())
}
