//! Words that are accepted, and words that are not.
use super::*;
use std::test::Fail;

#[test]
fn tells_words_of_the_command(rt: HostRuntime) -> Result<(), Fail> {
    let cases: [(&[&str], bool); 12] = [
        (&["prompt"], true),
        (&["prompt", "--size", "24x80", "--history=a b"], true),
        (&["prompt", "--message", "--", "--repeat", "3"], false),
        (&["prompt", "--message=--", "--repeat", "100"], true),
        (&["prompt", "--repeat", "101"], false),
        (&["prompt", "--size="], false),
        (&["prompt", "--siz", "24x80"], false),
        (&["prompt", "--history", "a", "--history", "a"], false),
        (&["prompt", "--entry", "a"], false),
        (&["prompt", "--help"], false),
        (&["prompt", "a"], false),
        (&["prompt", "--history"], false),
    ];
    for (words, accepted) in cases {
        let mut owned = Vec::new(rt.alloc());
        for word in words {
            owned.push(String::from_str(rt.alloc(), word)?)?;
        }
        let outside = outside_of(rt.alloc(), owned.as_slice())?;
        assert_eq!(rt; outside.accepted, accepted, "of {words:?}");
    }
    Ok(())
}

#[test]
fn tells_flags_of_the_command(rt: HostRuntime) -> Result<(), Fail> {
    let cases: [(&[&str], bool); 3] = [
        (
            &["prompt", "--multiline", "--default=a", "--password"],
            true,
        ),
        (&["prompt", "--password=on"], false),
        (&["prompt", "--no-wrap", "--no-wrap"], false),
    ];
    for (words, accepted) in cases {
        let mut owned = Vec::new(rt.alloc());
        for word in words {
            owned.push(String::from_str(rt.alloc(), word)?)?;
        }
        let outside = outside_of(rt.alloc(), owned.as_slice())?;
        assert_eq!(rt; outside.accepted, accepted, "of {words:?}");
    }
    Ok(())
}
