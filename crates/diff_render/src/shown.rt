//! What is on the screen from the base line on.
use cell_grid::{Drawing, Size};
use std::marker::Model;

/// What a frame begins with.
#[derive(Debug, Drop)]
pub enum OnScreen {
    Nothing,
    /// A drawing, and the size of the screen that it was drawn at.
    Drawn { drawing: Drawing, size: Size },
    /// What was drawn before the screen's size changed: the row of its cursor.
    Resized { row: u32 },
}

/// What is on the screen from the base line on: nothing, a drawing, or a drawing whose screen has
/// another size now.
#[derive(Debug, Drop)]
pub struct Shown {
    pub(crate) screen: OnScreen,
}

impl Model for Shown {
    ghost use Rattle.diff_render.specs.declared.shown.OnScreen.{OnScreen};

    ghost Value = { OnScreen };

    ghost use Rattle.diff_render.specs.ScreenFields.{IsKept};

    ghost view = { λ s. s.screen };

    ghost invariant = { λ s. IsKept s.screen };
}

impl Shown {
    ghost use Rattle.std.specs.Prelude.{◌≡◌};
    ghost use Rattle.diff_render.specs.Frames.{forgetting, shown_row};

    /// Makes a screen with nothing on it, so that the next drawing begins on the cursor's line.
    pub fn nothing() -> Shown
        ensures { result ≡ OnScreen.Nothing }
    {
        Shown {
            screen: OnScreen::Nothing,
        }
    }

    /// Returns the row of the cursor in what is shown, or none where nothing is.
    pub fn row(&self) -> Option<u32>
        ensures { result ≡ shown_row self.now }
    {
        match &self.screen {
            OnScreen::Nothing => None,
            OnScreen::Drawn { drawing, .. } => Some(drawing.row),
            OnScreen::Resized { row } => Some(*row),
        }
    }

    /// Forgets the size of what is shown, since the screen has another one: what is on it is drawn anew
    /// by the next frame, from the line on that the cursor's row leads up to.
    pub fn forget_size(&mut self)
        ensures { self.new ≡ forgetting self.old }
    {
        if let OnScreen::Drawn { drawing, .. } = &self.screen {
            let row = drawing.row;
            self.screen = OnScreen::Resized { row };
        }
    }
}
