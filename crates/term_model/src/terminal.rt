//! The terminal that others see: what it obeys, and its lines.
use crate::lines::blank_rows;
use crate::state::State;
use cell_grid::{Attrs, CellRow, NoMemory, Size};
use std::alloc::Global;
use std::marker::Model;

/// A terminal: the lines that were printed, a window of its size on the last of them, and a cursor
/// in the window. What it obeys is ECMA-48 and xterm, as far as the definitions name them.
#[derive(Debug, Drop)]
pub struct Terminal {
    state: State,
}

impl Model for Terminal {
    ghost use Rattle.term_model.specs.Term.{Term, IsTerminal};
    ghost use Rattle.term_model.specs.Fields.{term_of};

    ghost Value = { Term };

    ghost view = { λ t. term_of t.state };

    ghost invariant = { λ t. IsTerminal (term_of t.state) };
}

impl Terminal {
    ghost use Rattle.std.specs.Prelude.{◌≡◌, ◌<◌, Some, length, IfOk, OnOk, OnErr, slice_get};
    ghost use Rattle.term_model.specs.Term.{IsTerminal, start_of};
    ghost use Rattle.term_model.specs.Obeying.{obeyed_bytes};
    ghost use Rattle.term_model.specs.Resizing.{resized};

    /// Returns a terminal on which nothing was printed: its lines are blank, and the cursor stands in the
    /// first column of the first row.
    pub fn start(alloc: Global, size: Size) -> Result<Terminal, NoMemory>
        ensures start { IfOk result (λ terminal. terminal ≡ start_of size) }
        ensures kept { IfOk result IsTerminal }
    {
        let rows = size.rows() as usize;
        let cols = size.cols() as usize;
        let lines = blank_rows(alloc, rows, cols)?;
        let state = State {
            rows,
            cols,
            lines,
            top: 0,
            row: 0,
            col: 0,
            pen: Attrs::plain(),
            wraps: true,
            visible: true,
            pasting: false,
            pending: false,
            last: None,
        };
        Ok(Terminal { state })
    }

    /// Does what the bytes say. They are read as UTF-8, with U+FFFD for each maximal part that is
    /// none. A character and a control sequence that they do not finish do nothing.
    ///
    /// Without memory some of the bytes may have been obeyed.
    pub fn obey(&mut self, bytes: &[u8]) -> Result<(), NoMemory>
        ensures obeyed { OnOk result (self.new ≡ obeyed_bytes self.old bytes.now) }
        ensures kept { IsTerminal self.new }
    {
        self.state.obey(bytes)?;
        Ok(())
    }

    /// Takes another size. Each line is cut or padded to its columns. The window moves down where
    /// it has become too low for the cursor's line, and lines below it are dropped.
    ///
    /// Where the columns stay, its time is that of the rows that come or go. Else it goes through all lines, those above the
    /// window included.
    pub fn resize(&mut self, size: Size) -> Result<(), NoMemory>
        ensures resized { OnOk result (self.new ≡ resized self.old size) }
        ensures err { OnErr result (self.new ≡ self.old) }
        ensures kept { IsTerminal self.new }
    {
        self.state.resize(size)?;
        Ok(())
    }

    /// Returns the size of the window.
    pub fn size(&self) -> Size
        ensures { result ≡ record { rows = self.now.rows; cols = self.now.cols } }
    {
        match Size::new(self.state.rows as u32, self.state.cols as u32) {
            Some(size) => size,
            None => unreachable!(),
        }
    }

    /// Returns how many lines there are, those above the window included.
    pub fn lines(&self) -> usize
        ensures value { result ≡ length self.now.lines }
        ensures kept { IsTerminal self.now }
    {
        self.state.lines.len()
    }

    /// Returns the first line that the window shows.
    pub fn top(&self) -> usize
        ensures { result ≡ self.now.top }
    {
        self.state.top
    }

    /// Returns one of the lines, from the first on.
    pub fn line(&self, i: usize) -> &CellRow
        requires { i < length self.now.lines }
        ensures { slice_get self.now.lines i ≡ Some result.now }
    {
        &self.state.lines[i]
    }

    /// Returns the cursor's row in the window, and its column.
    pub fn cursor(&self) -> (u32, u32)
        ensures row { result.0 ≡ self.now.row }
        ensures col { result.1 ≡ self.now.col }
    {
        (self.state.row as u32, self.state.col as u32)
    }

    /// Returns the attributes of what is printed next.
    pub fn pen(&self) -> Attrs
        ensures { result ≡ self.now.pen }
    {
        self.state.pen
    }

    /// Tells whether a line goes on behind its last column.
    pub fn wraps(&self) -> bool
        ensures { result ≡ self.now.wraps }
    {
        self.state.wraps
    }

    /// Tells whether the cursor is visible.
    pub fn shows_cursor(&self) -> bool
        ensures { result ≡ self.now.visible }
    {
        self.state.visible
    }

    /// Tells whether pasted text comes between marks.
    pub fn marks_pastes(&self) -> bool
        ensures { result ≡ self.now.pasting }
    {
        self.state.pasting
    }
}
