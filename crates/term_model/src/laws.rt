//! Laws of what terminals obey, each the contract of a function that does nothing.
ghost use Rattle.std.specs.Prelude.{◌≡◌, ◌++◌, List, ℕ, true};
ghost use Rattle.std.specs.Str.{encode_utf8_all};
ghost use Rattle.term_model.specs.Controls.{Control, between, read_after};
ghost use Rattle.term_model.specs.Term.{Term, IsTerminal};
ghost use Rattle.term_model.specs.Obeying.{act, acted, chars_of, obeyed, obeyed_bytes};
ghost use Rattle.term_model.specs.Laws.{AreScalars, EndBetween};

/// Characters that end between control sequences are obeyed by themselves, and those behind them
/// afterwards.
pub fn obey_in_turn()
    ensures { (t : Term) (chars more : List ℕ) → read_after between chars ≡ between
        → obeyed t (chars ++ more) ≡ obeyed (obeyed t chars) more }
{}

/// The same of bytes: those that end between characters and between control sequences may be obeyed in a call of their own.
pub fn obey_in_two_calls()
    ensures { (t : Term) (bytes more : List ℕ) → EndBetween bytes
        → obeyed_bytes t (bytes ++ more) ≡ obeyed_bytes (obeyed_bytes t bytes) more }
{}

/// Characters in UTF-8 end between characters.
pub fn end_encoded()
    ensures { (chars : List ℕ) → AreScalars chars → read_after between chars ≡ between
        → EndBetween (encode_utf8_all chars) }
{}

/// Characters in UTF-8 are read back.
pub fn read_back()
    ensures { (chars bytes : List ℕ) → AreScalars chars
        → chars_of (encode_utf8_all chars ++ bytes) ≡ chars ++ chars_of bytes }
{}

/// Controls are done one after the other.
pub fn act_in_turn()
    ensures { (t : Term) (controls more : List Control) → acted t (controls ++ more)
        ≡ acted (acted t controls) more }
{}

/// What obeyed some characters is a terminal.
pub fn keep_terminal()
    ensures { (t : Term) (chars : List ℕ) → IsTerminal t → IsTerminal (obeyed t chars) }
{}
