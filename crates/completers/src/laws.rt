//! Laws of verdicts, each the contract of a function that does nothing.
ghost use Rattle.std.specs.Prelude.{◌≡◌, ◌↔◌, ◌+◌, ◌++◌, List, ℕ, Some, None, take, slice_index, IsTrue};
ghost use Rattle.completers.specs.Balanced.{IsBalanced, CanBeBalanced};
ghost use Rattle.completers.specs.Numbers.{begins_number, is_number};
ghost use Rattle.completers.specs.Pairs.{is_closing, bracket_fault};

/// A text begins a number exactly where some text behind it makes it one. So the fault of a text that is no number is at
/// the first character with which no number can begin any more.
pub fn numbers_begin()
    ensures { (front : List ℕ)
        → IsTrue (begins_number front) ↔ ((rest : List ℕ) × IsTrue (is_number (front ++ rest))) }
{}

/// The validator of brackets finds no fault exactly in the texts that are balanced.
pub fn balanced()
    ensures { (text : List ℕ) → bracket_fault text ≡ None ↔ IsBalanced text }
{}

/// A fault that is told at a closing bracket is at the first character with which no balanced text can begin any more: what
/// stands before it begins one still.
pub fn fault_of_a_closing_bracket()
    ensures { (text : List ℕ) (place : ℕ) → bracket_fault text ≡ Some place
        → IsTrue (is_closing (slice_index text place))
        → CanBeBalanced (take place text) × (CanBeBalanced (take (place + 1) text) → ⊥) }
{}
