//! Laws of settings, each the contract of a function that does nothing.
ghost use Rattle.std.specs.Prelude.{◌≡◌, ℕ, List, Some, false};
ghost use Rattle.std.specs.Char.{is_ascii_digit};
ghost use Rattle.cell_grid.specs.Size.{Extent, IsScreen};
ghost use Rattle.prompt_settings.specs.Size.{size_of, spelled_size};

/// A size that is read is the one that the text is written for.
pub fn reads_what_is_written()
    ensures spelled { (separator : ℕ) (text : List ℕ) (size : Extent)
        → size_of separator text ≡ Some size
        → text ≡ spelled_size separator size }
    ensures within { (separator : ℕ) (text : List ℕ) (size : Extent)
        → size_of separator text ≡ Some size
        → IsScreen size.rows size.cols }
{}

/// Each size of a screen is read from the text that it is written as.
pub fn reads_each_size()
    ensures { (separator : ℕ) (size : Extent) → is_ascii_digit separator ≡ false
        → IsScreen size.rows size.cols
        → size_of separator (spelled_size separator size) ≡ Some size }
{}
