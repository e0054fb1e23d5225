//! What commands mean to one who types them, each law as the contract of a function that does nothing.
ghost use Rattle.edit_cmds.specs.Laws.{YankRestoresCut, CaseKeepsLength, TransposingKeepsCharacters, EndOfHistoryIsNewest, AbortReturns, NinthDigitChangesNothing, BackwardWordFindsStart};

/// What was cut at the cursor comes back by a yank at the same place.
pub fn yank_restores_cut()
    ensures { YankRestoresCut }
{}

/// Words in another case are as long as before.
pub fn case_keeps_length()
    ensures { CaseKeepsLength }
{}

/// Two characters that change places leave each character as often as before.
pub fn transposing_keeps_characters()
    ensures { TransposingKeepsCharacters }
{}

/// After `beginning-of-history`, `end-of-history` leads to the newest line.
pub fn end_of_history_is_newest()
    ensures { EndOfHistoryIsNewest }
{}

/// A search that is aborted leaves line, text and cursor as they were when it started.
pub fn abort_returns()
    ensures { AbortReturns }
{}

/// A digit behind the eighth changes nothing.
pub fn ninth_digit_changes_nothing()
    ensures { NinthDigitChangesNothing }
{}

/// Behind `forward-word`, `backward-word` goes to the start of the word that ended there. Where no word ends ahead, both go by the
/// text's end: to it, and to the start of the last word.
pub fn backward_word_finds_start()
    ensures { BackwardWordFindsStart }
{}
