//! The state of a terminal, and what each control does to it.
use crate::fitting::fit_lines;
use crate::lines::{erase_in, erase_lines, join_in, put_in, wiped_row};
use crate::reading::{Control, first_control};
use crate::rendition::styled;
use cell_grid::{Attrs, Cell, CellRow, CellText, NoMemory, Size};
use unicode_width::UnicodeWidthChar;

/// All that a terminal keeps.
#[derive(Debug, Drop)]
pub(crate) struct State {
    pub(crate) rows: usize,
    pub(crate) cols: usize,
    pub(crate) lines: Vec<CellRow>,
    pub(crate) top: usize,
    pub(crate) row: usize,
    pub(crate) col: usize,
    pub(crate) pen: Attrs,
    pub(crate) wraps: bool,
    pub(crate) visible: bool,
    pub(crate) pasting: bool,
    pub(crate) pending: bool,
    pub(crate) last: Option<(usize, usize)>,
}

impl State {
    ghost use Rattle.std.specs.Prelude.{◌≡◌, ◌+◌, ◌<◌, ◌⊎◌, OnOk, OnErr};
    ghost use Rattle.term_model.specs.Term.{IsTerminal};
    ghost use Rattle.term_model.specs.Fields.{term_of};
    ghost use Rattle.term_model.specs.Obeying.{forgotten, moved, fed, erased_in_line, erased_in_page, wrapped, placed, joined, printed, act, obeyed_bytes};
    ghost use Rattle.cell_grid.specs.Size.{IsScreen};
    ghost use Rattle.term_model.specs.Resizing.{resized};
    ghost use Rattle.term_model.specs.Controls.{DECAWM, DECTCEM, BracketedPaste};
    ghost use Rattle.term_model.specs.Meaning.{meant};

    /// Forgets the pending wrap and the place printed last.
    fn forget(&mut self)
        ensures { term_of self.new ≡ forgotten (term_of self.old) }
    {
        self.pending = false;
        self.last = None;
    }

    /// Moves the cursor.
    fn go(&mut self, row: usize, col: usize)
        ensures { term_of self.new ≡ moved (term_of self.old) row col }
    {
        self.row = row;
        self.col = col;
        self.forget();
    }

    /// Moves the cursor a row down, to a new line where there is none.
    fn line_feed(&mut self) -> Result<(), NoMemory>
        requires { IsTerminal (term_of self.old) }
        ensures ok { OnOk result (term_of self.new ≡ fed (term_of self.old)) }
        ensures err { OnErr result (term_of self.new ≡ term_of self.old) }
    {
        if self.row + 1 < self.rows {
            self.row += 1;
            self.forget();
            return Ok(());
        }
        let alloc = *self.lines.allocator();
        let row = wiped_row(alloc, self.cols, self.pen)?;
        self.lines.push(row)?;
        self.top += 1;
        self.forget();
        Ok(())
    }

    /// Erases from the cursor to the end of its row.
    fn erase_in_line(&mut self)
        requires { IsTerminal (term_of self.old) }
        ensures { term_of self.new ≡ erased_in_line (term_of self.old) }
    {
        erase_in(&mut self.lines, self.top + self.row, self.col, self.pen);
        self.forget();
    }

    /// Does a pending wrap, where autowrap is on.
    fn wrap(&mut self) -> Result<(), NoMemory>
        requires { IsTerminal (term_of self.old) }
        ensures ok { OnOk result (term_of self.new ≡ wrapped (term_of self.old)) }
        ensures err { OnErr result (term_of self.new ≡ term_of self.old) }
    {
        if !self.pending || !self.wraps {
            return Ok(());
        }
        self.line_feed()?;
        self.col = 0;
        Ok(())
    }

    /// Puts a character at the cursor, where there are columns enough for it.
    fn place(&mut self, c: char, width: u8)
        requires terminal { IsTerminal (term_of self.old) }
        requires width { (width ≡ 1) ⊎ (width ≡ 2) }
        ensures { term_of self.new ≡ placed (term_of self.old) c width }
    {
        let behind = self.col + usize::from(width);
        if self.cols < behind {
            return;
        }
        let line = self.top + self.row;
        let lead = Cell::Lead {
            text: CellText::new(c),
            width,
            attrs: self.pen,
        };
        put_in(&mut self.lines, line, self.col, lead);
        self.last = Some((line, self.col));
        self.pending = self.cols <= behind;
        self.col = behind.min(self.cols - 1);
    }

    /// Joins a character to the place printed last.
    fn join(&mut self, c: char)
        requires { IsTerminal (term_of self.old) }
        ensures { term_of self.new ≡ joined (term_of self.old) c }
    {
        if let Some((line, at)) = self.last {
            join_in(&mut self.lines, line, at, c);
        }
    }

    /// Erases from the cursor to the end of its row, and all rows below.
    fn erase_in_page(&mut self)
        requires { IsTerminal (term_of self.old) }
        ensures { term_of self.new ≡ erased_in_page (term_of self.old) }
    {
        let line = self.top + self.row;
        erase_in(&mut self.lines, line, self.col, self.pen);
        erase_lines(&mut self.lines, line + 1, self.cols, self.pen);
        self.forget();
    }

    /// Puts a character of 1 or 2 columns behind a pending wrap.
    fn put(&mut self, c: char, width: u8) -> Result<(), NoMemory>
        requires terminal { IsTerminal (term_of self.old) }
        requires width { (width ≡ 1) ⊎ (width ≡ 2) }
        ensures ok { OnOk result (term_of self.new ≡ placed (wrapped (term_of self.old)) c width) }
        ensures err { OnErr result (term_of self.new ≡ term_of self.old) }
    {
        self.wrap()?;
        self.place(c, width);
        Ok(())
    }

    /// Prints a character.
    fn print(&mut self, c: char) -> Result<(), NoMemory>
        requires { IsTerminal (term_of self.old) }
        ensures ok { OnOk result (term_of self.new ≡ printed (term_of self.old) c) }
        ensures err { OnErr result (term_of self.new ≡ term_of self.old) }
    {
        match c.width() {
            None | Some(0) => {
                self.join(c);
                Ok(())
            }
            Some(1) => self.put(c, 1),
            Some(2) => self.put(c, 2),
            Some(_) => self.put('\u{FFFD}', 1),
        }
    }

    /// Does what a control says.
    pub(crate) fn act(&mut self, control: Control<'_>) -> Result<(), NoMemory>
        requires { IsTerminal (term_of self.old) }
        ensures ok { OnOk result (term_of self.new ≡ act (term_of self.old) (meant control.entry)) }
        ensures err { OnErr result (term_of self.new ≡ term_of self.old) }
    {
        match control {
            Control::CarriageReturn => self.go(self.row, 0),
            Control::LineFeed => return self.line_feed(),
            Control::CursorUp(n) => self.go(self.row.saturating_sub(n as usize), self.col),
            Control::CursorRight(n) => {
                self.go(self.row, (self.col + n as usize).min(self.cols - 1))
            }
            Control::CursorLeft(n) => self.go(self.row, self.col.saturating_sub(n as usize)),
            Control::EraseInLine => self.erase_in_line(),
            Control::EraseInPage => self.erase_in_page(),
            Control::Rendition(params) => self.pen = styled(self.pen, params),
            Control::AutoWrap(on) => self.set_wraps(on),
            Control::CursorVisible(on) => self.set_visible(on),
            Control::BracketedPaste(on) => self.set_pasting(on),
            Control::Ignored => self.forget(),
            Control::Print(c) => return self.print(c),
        }
        Ok(())
    }

    fn set_wraps(&mut self, on: bool)
        ensures { term_of self.new ≡ act (term_of self.old) (DECAWM on) }
    {
        self.wraps = on;
        self.forget();
    }

    fn set_visible(&mut self, on: bool)
        ensures { term_of self.new ≡ act (term_of self.old) (DECTCEM on) }
    {
        self.visible = on;
        self.forget();
    }

    fn set_pasting(&mut self, on: bool)
        ensures { term_of self.new ≡ act (term_of self.old) (BracketedPaste on) }
    {
        self.pasting = on;
        self.forget();
    }

    /// Does what some bytes say.
    pub(crate) fn obey(&mut self, bytes: &[u8]) -> Result<(), NoMemory>
        requires { IsTerminal (term_of self.old) }
        ensures obeyed { OnOk result (term_of self.new
            ≡ obeyed_bytes (term_of self.old) bytes.now) }
        ensures kept { IsTerminal (term_of self.new) }
    {
        let mut rest = bytes;
        while let Some((control, size)) = first_control(rest) {
            self.act(control)?;
            let (_, behind) = rest.split_at(size);
            rest = behind;
        }
        Ok(())
    }

    /// Takes another size.
    pub(crate) fn resize(&mut self, size: Size) -> Result<(), NoMemory>
        requires { IsTerminal (term_of self.old) }
        ensures ok { OnOk result (term_of self.new ≡ resized (term_of self.old) size) }
        ensures err { OnErr result (term_of self.new ≡ term_of self.old) }
        ensures screen { IsScreen size.rows size.cols }
    {
        let rows = size.rows() as usize;
        let cols = size.cols() as usize;
        let lost = (self.row + 1).saturating_sub(rows);
        let top = self.top + lost;
        fit_lines(&mut self.lines, self.cols, top + rows, cols)?;
        self.rows = rows;
        self.cols = cols;
        self.top = top;
        self.row -= lost;
        self.col = self.col.min(cols - 1);
        self.forget();
        Ok(())
    }
}
