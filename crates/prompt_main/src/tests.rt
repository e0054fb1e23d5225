//! Which word the command does not take, and what is said of it.

use crate::words::{first_refused, reason_of, shown_word};
use std::test::Fail;

#[test]
fn tells_the_wrong_word(rt: HostRuntime) -> Result<(), Fail> {
    let cases: [(&[&str], &str, &str); 10] = [
        (
            &["prompt", "--size", "24 80"],
            "--size",
            "rows x columns, as 24x80",
        ),
        (
            &["prompt", "--repeat", "2", "--size=0x0"],
            "--size",
            "rows x columns, as 24x80",
        ),
        (&["prompt", "--size="], "--size", "rows x columns, as 24x80"),
        (
            &["prompt", "--repeat", "101"],
            "--repeat",
            "a number of lines, 1 to 100",
        ),
        (
            &["prompt", "--size", "3x4", "--size", "3x5"],
            "--size",
            "stands once",
        ),
        (
            &["prompt", "--multiline", "--password=on"],
            "--password",
            "a flag, without a value",
        ),
        (
            &["prompt", "--siz", "3x4"],
            "--siz",
            "no option of prompt, see prompt --help",
        ),
        (
            &["prompt", "a", "--size", "3x4"],
            "a",
            "no option of prompt, see prompt --help",
        ),
        (
            &["prompt", "--history", "h", "--help"],
            "--help",
            "stands alone",
        ),
        (
            &["prompt", "--size", "3x4", "--history"],
            "--history",
            "the path of a file",
        ),
    ];
    for (words, word, reason) in cases {
        let mut owned = Vec::new(rt.alloc());
        for word in words {
            owned.push(String::from_str(rt.alloc(), word)?)?;
        }
        let place = first_refused(rt.alloc(), owned.as_slice())?;
        assert_eq!(rt; shown_word(owned.as_slice(), place), word, "of {words:?}");
        assert_eq!(rt; reason_of(owned.as_slice(), place), reason, "of {words:?}");
    }
    Ok(())
}
