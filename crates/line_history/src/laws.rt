//! Laws of history files, each the contract of a function that does nothing.
ghost use Rattle.std.specs.Prelude.{◌≡◌, ◌<◌, ◌≤◌, ◌^◌, ◌++◌, [], ◌∷◌, List, ℕ, length, codes};
ghost use Rattle.text_doc.specs.declared.documents.TheConstants.{MAX_LENGTH};
ghost use Rattle.line_history.specs.History.{entries_of, entry_bytes};
ghost use Rattle.line_history.specs.Laws.{AreScalars};

/// Any file grows by the entry whose bytes are put behind it, also one that is cut off in the middle of an entry.
pub fn grows_by_one()
    ensures { (file entry : List ℕ) (moment : ℕ) → moment < 2 ^ 64 → AreScalars entry
        → length entry ≤ MAX_LENGTH
        → entries_of (file ++ entry_bytes entry moment) ≡ entries_of file ++ entry ∷ [] }
{}

/// An entry that is too long for a document is passed over.
pub fn passes_over()
    ensures { (file entry : List ℕ) (moment : ℕ) → moment < 2 ^ 64 → AreScalars entry
        → MAX_LENGTH < length entry
        → entries_of (file ++ entry_bytes entry moment) ≡ entries_of file }
{}

/// A comment parts what stands before it from what follows: whatever part of an entry's bytes was put behind a file, the
/// entries of the file are as before.
pub fn parted_by_comment()
    ensures { (file more : List ℕ) → entries_of (file ++ codes "\n#" ++ more)
        ≡ entries_of file ++ entries_of (codes "#" ++ more) }
{}

/// A line feed behind a file leaves its entries as they are.
pub fn ended_by_line_feed()
    ensures { (file : List ℕ) → entries_of (file ++ codes "\n") ≡ entries_of file }
{}

/// An empty file has no entry.
pub fn none_at_first()
    ensures { entries_of [] ≡ [] }
{}
