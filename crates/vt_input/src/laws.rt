//! Laws of the parser, over every table and all bytes, in whatever pieces. The functions do nothing.
ghost use Rattle.std.specs.Prelude.{◌≡◌, ℕ, List, [], ◌++◌, true};
ghost use Rattle.vt_input.specs.declared.row.SeqRow.{SeqRow};
ghost use Rattle.vt_input.specs.Sequences.{is_short};
ghost use Rattle.vt_input.specs.Pressed.{keys_of};
ghost use Rattle.vt_input.specs.Inputs.{Parsing, Input, IsSmall, fed_bytes, parsing_after, stands_for, given, expected};

/// For any pieces and flushes a new parser gives the key presses of the whole texts between the flushes.
pub fn any_pieces()
    ensures { (rows : List SeqRow) (inputs : List Input)
        → given (stands_for rows []) inputs ≡ expected rows [] inputs }
{}

/// A parser stands for all bytes that it has read since the last flush outside a paste.
pub fn stands_for_its_bytes()
    ensures { (rows : List SeqRow) (x y : List ℕ)
        → parsing_after (stands_for rows x) y ≡ stands_for rows (x ++ y) }
{}

/// Two pieces give the key presses of one, and leave the parser as one does.
pub fn one_piece_or_two()
    ensures keys { (p : Parsing) (x y : List ℕ)
        → (fed_bytes p x).presses ++ (fed_bytes (parsing_after p x) y).presses
        ≡ (fed_bytes p (x ++ y)).presses }
    ensures rest { (p : Parsing) (x y : List ℕ)
        → parsing_after (parsing_after p x) y ≡ parsing_after p (x ++ y) }
{}

/// A flush decides all text.
pub fn flush_leaves_nothing()
    ensures { (rows : List SeqRow) (x : List ℕ) → (keys_of rows true x).rest ≡ [] }
{}

/// What a parser keeps has a bound, whatever it has read: 3 bytes, 63 characters, and 32,769 characters of a paste.
pub fn keeps_little()
    ensures { (rows : List SeqRow) (bytes : List ℕ) → is_short rows ≡ true
        → IsSmall (stands_for rows bytes) }
{}
