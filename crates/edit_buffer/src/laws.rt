//! Laws of a buffer, each the contract of a function that does nothing.
ghost use Rattle.edit_buffer.specs.Laws.{UndoRestoresSaved, UndoRestoresBehindSteps, CancelRestoresOriginal};

/// After a save and any edits that end in another text, an undo restores the text and the cursor that were saved, and a
/// redo then gives back the text and the cursor from before the undo.
pub fn undo_restores_saved()
    ensures { UndoRestoresSaved }
{}

/// The same holds where choices in a menu, its opening and closing, and moves between working lines stand among the
/// edits. The text that was saved then comes back in the working line that is the present one at the undo.
pub fn undo_restores_behind_steps()
    ensures { UndoRestoresBehindSteps }
{}

/// After a menu of at least one item was shown, and whatever was chosen in it or put into it, cancelling it gives back
/// the text and the cursor from before it, and leaves all working lines as they were.
pub fn cancel_restores_original()
    ensures { CancelRestoresOriginal }
{}
