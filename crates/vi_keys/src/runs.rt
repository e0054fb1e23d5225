//! Runs of characters of one class.
ghost use Rattle.std.specs.Prelude.{◌≡◌, ◌≤◌, length};
ghost use Rattle.text_doc.specs.Words.{same_class};
ghost use Rattle.vi_keys.specs.Runs.{run_start, run_end, row_text};

use text_doc::{Class, Doc, class_of};

/// Returns where a run of a class from a place on ends, or the end of the range.
pub fn run_end(doc: &Doc, class: Class, from: usize, end: usize) -> usize
    requires ordered { from ≤ end }
    requires range { end ≤ length doc.now.text }
    ensures place { result ≡ run_end class doc.now.text from end }
    ensures behind { from ≤ result }
    ensures within { result ≤ end }
{
    for at in from..end {
        if !same_class(class_of(doc.char_at(at), false), class) {
            return at;
        }
    }
    end
}

/// Returns where a run of a class up to a place starts, or the start of the range.
pub fn run_start(doc: &Doc, class: Class, start: usize, to: usize) -> usize
    requires ordered { start ≤ to }
    requires range { to ≤ length doc.now.text }
    ensures place { result ≡ run_start class doc.now.text start to }
    ensures behind { start ≤ result }
    ensures within { result ≤ to }
{
    for at in (start..to).rev() {
        if !same_class(class_of(doc.char_at(at), false), class) {
            return at + 1;
        }
    }
    start
}

/// Returns the first place of the cursor's row that holds no white space, or the row's end.
pub fn row_text(doc: &Doc) -> usize
    ensures place { result ≡ row_text doc.now }
    ensures within { result ≤ length doc.now.text }
{
    run_end(doc, Class::White, doc.line_start(), doc.line_end())
}

fn same_class(a: Class, b: Class) -> bool
    ensures { result ≡ same_class a b }
{
    matches!(
        (a, b),
        (Class::White, Class::White) | (Class::Word, Class::Word) | (Class::Other, Class::Other)
    )
}
