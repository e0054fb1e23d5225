//! Laws of frames, each the contract of a function that does nothing.
ghost use Rattle.std.specs.Prelude.{Bool, List, ℕ};
ghost use Rattle.cell_grid.specs.Size.{Extent};
ghost use Rattle.cell_grid.specs.declared.drawing.Drawing.{Drawing};
ghost use Rattle.term_model.specs.Obeying.{obeyed_bytes};
ghost use Rattle.term_model.specs.Term.{Term};
ghost use Rattle.diff_render.specs.declared.shown.OnScreen.{OnScreen};
ghost use Rattle.diff_render.specs.Frames.{Begins, FitsScreen, Shows, base_after, screen_after};

/// Joins frames: a terminal that obeyed one can begin the next, on the same base line, or below the last
/// drawing of a prompt.
pub fn frames_chain()
    ensures { (size : Extent) (screen : OnScreen) (drawing : Drawing) (done : Bool) (frame : List ℕ)
        → FitsScreen size drawing → Shows size screen drawing done frame
        → (t : Term) (base : ℕ) → Begins size screen t base
        → Begins size (screen_after done drawing size) (obeyed_bytes t frame)
        (base_after done drawing base) }
{}
