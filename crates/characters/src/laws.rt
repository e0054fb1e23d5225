//! Laws of decoding, over every list of bytes. The functions do nothing: the contract of each is the law.
ghost use Rattle.std.specs.Prelude.{◌≡◌, ℕ, ◌≤◌, List, ◌++◌, length};
ghost use Rattle.bstr.specs.Utf8.{lossy_chars};
ghost use Rattle.characters.specs.Characters.{characters, unfinished_char};
ghost use Rattle.characters.specs.Unfinished.{BeginsCharacter};

/// Decoding is that of the whole bytes with one U+FFFD for each maximal part that is no character, the unfinished rest
/// included.
pub fn decodes_whole_bytes()
    ensures { (bytes : List ℕ)
        → (characters bytes).items ++ unfinished_char (characters bytes).rest ≡ lossy_chars bytes }
{}

/// The rest of a decoding is the longest end of the bytes that begins a character and lacks some of it, and what stands
/// before it is decoded as whole bytes.
pub fn rest_is_longest()
    ensures begins { (bytes : List ℕ) → BeginsCharacter (characters bytes).rest }
    ensures longest { (front back : List ℕ) → BeginsCharacter back
        → length back ≤ length (characters (front ++ back)).rest }
    ensures before { (bytes : List ℕ) → (front : List ℕ)
        × (bytes ≡ front ++ (characters bytes).rest) × ((characters bytes).items ≡ lossy_chars front) }
{}
