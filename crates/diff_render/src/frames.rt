//! The bytes of a frame.
ghost use Rattle.std.specs.Prelude.{◌≡◌, ◌++◌, ◌+◌, ◌-◌, ◌≤◌, ◌<◌, ◌↔◌, [], ◌&&◌, not, true, false, IsTrue, IfOk};
ghost use Rattle.std.specs.Prelude.{OnOk, OnErr, length};
ghost use Rattle.std.specs.String.{string_bytes};
ghost use Rattle.cell_grid.specs.Attrs.{plain};
ghost use Rattle.cell_grid.specs.Grid.{columns};
ghost use Rattle.cell_grid.specs.Drawable.{AllRowsDrawable};
ghost use Rattle.diff_render.specs.Frames.{FitsScreen, HasCursor, IsFrame, WasDrawnAt, screen_after};
ghost use Rattle.diff_render.specs.ScreenFields.{IsKept};
ghost use Rattle.diff_render.specs.Opening.{opening_of};
ghost use Rattle.diff_render.specs.Turning.{BeginsAnew, Closes, Turns};
ghost use Rattle.diff_render.specs.Writer.{IsPlaced, Moves};

use crate::kept::keep;
use crate::lines::redraw;
use crate::shown::{OnScreen, Shown};
use crate::spelling::push_arrow;
use crate::writer::Writer;
use cell_grid::{Attrs, Drawing, Grid, Size};
use std::alloc::{AllocError, Global};
use text_doc::Bytes;

/// Returns the bytes that a frame begins with where the cursor is so many rows below the base line.
fn opening(alloc: Global, up: u32, asks: bool) -> Result<String, AllocError>
    ensures { IfOk result (λ bytes. string_bytes bytes ≡ opening_of up asks) }
{
    let mut out = String::new(alloc);
    if up > 0 {
        push_arrow(&mut out, up, 'A')?;
    }
    out.push_str("\r\x1b[m\x1b[J\x1b[?7l\x1b[?2004h\x1b[?25h")?;
    if asks {
        out.push_str("\x1b[6n")?;
    }
    Ok(out)
}

/// Leaves the writer at a place with a plain pen.
fn settle(w: &mut Writer, row: u32, col: u32) -> Result<(), AllocError>
    requires placed { IsPlaced w.old }
    requires in_rows { row < w.old.height }
    requires in_cols { col < w.old.cols }
    ensures { OnOk result (Moves w.old w.new row col plain (row - w.old.row + 16)) }
{
    w.go_row(row)?;
    w.go_col(col)?;
    w.use_plain_pen()?;
    Ok(())
}

/// Closes a prompt behind the last of its rows.
fn close(w: &mut Writer, rows: u32) -> Result<(), AllocError>
    requires placed { IsPlaced w.old }
    requires some { 1 ≤ rows }
    requires within { rows ≤ w.old.height }
    ensures { OnOk result (Closes w.old w.new rows) }
{
    w.go_row(rows - 1)?;
    w.use_plain_pen()?;
    w.out.push_str("\r\n\x1b[?7h\x1b[?2004l")?;
    Ok(())
}

/// Returns the bytes that make the rows of a grid, with the cursor at a place and a plain pen, a drawing.
fn turned(
    alloc: Global,
    old: &Grid,
    row: u32,
    col: u32,
    drawing: &Drawing,
    size: Size,
    done: bool,
) -> Result<String, AllocError>
    requires old_cols { columns old.now ≡ size.cols }
    requires old_rows { length old.now ≤ size.rows }
    requires in_rows { row < length old.now }
    requires in_cols { col < size.cols }
    requires fits { FitsScreen size drawing.now }
    requires cursor { done ≡ false → HasCursor drawing.now }
    requires cells { AllRowsDrawable drawing.now.grid }
    ensures { IfOk result (λ bytes. Turns size.rows size.cols old.now row col drawing.now done
        (string_bytes bytes)) }
{
    let blank = Grid::blank(alloc, 1, size.cols())?;
    let mut w = Writer {
        out: String::new(alloc),
        rows: size.rows(),
        cols: size.cols(),
        height: old.rows(),
        row,
        col,
        pen: Attrs::plain(),
    };
    redraw(&mut w, old, &drawing.grid, blank.row(0))?;
    if done {
        close(&mut w, drawing.grid.rows())?;
        return Ok(w.out);
    }
    settle(&mut w, drawing.row, drawing.col)?;
    Ok(w.out)
}

/// Returns the bytes that begin a drawing anew, where the cursor is so many rows below the base line.
fn anew(
    alloc: Global,
    up: u32,
    drawing: &Drawing,
    size: Size,
    done: bool,
    asks: bool,
) -> Result<String, AllocError>
    requires fits { FitsScreen size drawing.now }
    requires cursor { done ≡ false → HasCursor drawing.now }
    requires cells { AllRowsDrawable drawing.now.grid }
    ensures { IfOk result (λ bytes. BeginsAnew size up drawing.now done asks (string_bytes bytes)) }
{
    let mut out = opening(alloc, up, asks)?;
    let blank = Grid::blank(alloc, 1, size.cols())?;
    let rest = turned(alloc, &blank, 0, 0, drawing, size, done)?;
    out.push_str(rest.as_str())?;
    Ok(out)
}

/// Tells whether two grids have the same cells.
fn is_same_grid(a: &Grid, b: &Grid) -> bool
    ensures { IsTrue result ↔ (a.now ≡ b.now) }
{
    if a.rows() != b.rows() {
        return false;
    }
    for row in 0..a.rows() {
        if a.row(row) != b.row(row) {
            return false;
        }
    }
    true
}

/// Tells whether two drawings are the same.
fn is_same(a: &Drawing, b: &Drawing) -> bool
    ensures { IsTrue result ↔ (a.now ≡ b.now) }
{
    a.row == b.row && a.col == b.col && is_same_grid(&a.grid, &b.grid)
}

/// Tells whether a frame that begins a drawing anew asks for the cursor's place.
fn asks(done: bool, ask: bool) -> bool
    ensures { result ≡ (ask && not done) }
{
    ask && !done
}

/// Returns the bytes of a frame.
fn bytes_of(
    alloc: Global,
    screen: &OnScreen,
    drawing: &Drawing,
    size: Size,
    done: bool,
    ask: bool,
) -> Result<String, AllocError>
    requires kept { IsKept screen.now }
    requires was { WasDrawnAt size screen.now }
    requires fits { FitsScreen size drawing.now }
    requires cursor { done ≡ false → HasCursor drawing.now }
    requires cells { AllRowsDrawable drawing.now.grid }
    ensures { IfOk result (λ bytes. IsFrame size screen.now drawing.now done ask
        (string_bytes bytes)) }
{
    match screen {
        OnScreen::Nothing => {
            let asks = asks(done, ask);
            let bytes = anew(alloc, 0, drawing, size, done, asks)?;
            Ok(bytes)
        }
        OnScreen::Drawn { drawing: old, .. } => {
            if !done && is_same(old, drawing) {
                return Ok(String::new(alloc));
            }
            let bytes = turned(alloc, &old.grid, old.row, old.col, drawing, size, done)?;
            Ok(bytes)
        }
        OnScreen::Resized { row } => {
            let asks = asks(done, ask);
            let bytes = anew(alloc, *row, drawing, size, done, asks)?;
            Ok(bytes)
        }
    }
}

/// Returns the bytes that turn what is on the screen into a drawing, which is on the screen then. With
/// `done` the drawing is the last one of its prompt: the cursor goes behind it, the terminal's modes are
/// those outside a prompt, and nothing is on the screen then. With `ask` a drawing that is begun anew asks
/// the terminal for its cursor's place, by DEVICE STATUS REPORT (ECMA-48, 8.3.35).
///
/// Where the same drawing is on the screen, there are no bytes. Where no memory is found, what is on the
/// screen stays as it is.
pub fn frame(
    alloc: Global,
    shown: &mut Shown,
    drawing: &Drawing,
    size: Size,
    done: bool,
    ask: bool,
) -> Result<Bytes, AllocError>
    requires was { WasDrawnAt size shown.old }
    requires fits { FitsScreen size drawing.now }
    requires cursor { done ≡ false → HasCursor drawing.now }
    requires cells { AllRowsDrawable drawing.now.grid }
    ensures frame { IfOk result (IsFrame size shown.old drawing.now done ask) }
    ensures screen { OnOk result (shown.new ≡ screen_after done drawing.now size) }
    ensures err { OnErr result (shown.new ≡ shown.old) }
{
    let bytes = bytes_of(alloc, &shown.screen, drawing, size, done, ask)?;
    if done {
        shown.screen = OnScreen::Nothing;
    } else {
        keep(alloc, &mut shown.screen, drawing, size)?;
    }
    Ok(Bytes::from_vec(bytes.into_bytes()))
}
