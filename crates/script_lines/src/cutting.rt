//! Where the lines of a script end.
ghost use Rattle.std.specs.Prelude.{◌≡◌, ◌<◌, ◌∷◌, length};
ghost use Rattle.script_lines.specs.Lines.{script_lines};

/// Cuts the first line off a text that is not empty: the line without its line feed, and what stands behind it.
pub fn cut_line(text: &[u8]) -> (&[u8], &[u8])
    requires some { 0 < length text.now }
    ensures line { script_lines text.now ≡ result.0.now ∷ script_lines result.1.now }
    ensures shorter { length result.1.now < length text.now }
{
    match text_doc::cut_line(text) {
        Some(cut) => cut,
        None => (text, &[]),
    }
}
