//! Lines that are cut or padded to another number of columns.
ghost use Rattle.std.specs.Prelude.{◌≡◌, ◌≤◌, ◌-◌, ◌++◌, ℕ, length, map, take, IfOk, OnOk, OnErr, vec_len, if◌then◌else◌};
ghost use Rattle.cell_grid.specs.Cell.{blank};
ghost use Rattle.cell_grid.specs.Row.{IsWhole, blank_row, mend_end};
ghost use Rattle.cell_grid.specs.Grid.{AllRows, blank_rows};
ghost use Rattle.term_model.specs.Resizing.{fitted_line, fitted_lines};

use crate::lines::blank_rows;
use cell_grid::{Cell, CellRow, NoMemory};
use std::alloc::Global;

/// Returns the cell, or a blank in its place where it does not fit.
fn cell_or_blank(cell: Cell, fits: bool) -> Cell
    ensures { result ≡ (if fits then cell else blank) }
{
    if fits { cell } else { Cell::blank() }
}

/// Returns the first cells of a row, where a wide character that is cut becomes blank.
fn cut_row(alloc: Global, row: &CellRow, cols: usize) -> Result<CellRow, NoMemory>
    requires { IsWhole row.now }
    ensures { IfOk result (λ cut. cut ≡ mend_end (take cols row.now)) }
{
    let mut cut = CellRow::new(alloc);
    let mut at = 0;
    while at < row.len() && at < cols {
        let cell = *row.cell(at);
        at += cell.columns();
        cut.push(cell_or_blank(cell, at <= cols))?;
    }
    Ok(cut)
}

/// Adds blanks up to a number of columns.
fn pad_row(row: &mut CellRow, cols: usize) -> Result<(), NoMemory>
    ensures { OnOk result (row.new ≡ row.old ++ blank_row (cols - length row.old)) }
{
    for _ in row.len()..cols {
        row.push(Cell::blank())?;
    }
    Ok(())
}

/// Returns the row cut or padded to a number of columns.
fn fitted_row(alloc: Global, row: &CellRow, cols: usize) -> Result<CellRow, NoMemory>
    requires { IsWhole row.now }
    ensures { IfOk result (λ fitted. fitted ≡ fitted_line cols row.now) }
{
    let mut fitted = cut_row(alloc, row, cols)?;
    pad_row(&mut fitted, cols)?;
    Ok(fitted)
}

/// Returns the first lines, each cut or padded to a number of columns.
fn first_fitted(
    alloc: Global,
    lines: &Vec<CellRow>,
    count: usize,
    cols: usize,
) -> Result<Vec<CellRow>, NoMemory>
    requires wide { (from : ℕ) × AllRows from lines.now.items }
    requires within { count ≤ vec_len lines.now }
    ensures { IfOk result (λ fitted. fitted.items
        ≡ map (fitted_line cols) (take count lines.now.items)) }
{
    let mut fitted = Vec::new(alloc);
    for line in 0..count {
        let row = fitted_row(alloc, &lines[line], cols)?;
        fitted.push(row)?;
    }
    Ok(fitted)
}

/// Drops the lines behind so many, and adds blank ones where there are fewer.
fn fit_count(lines: &mut Vec<CellRow>, count: usize, cols: usize) -> Result<(), NoMemory>
    ensures ok { OnOk result (lines.new.items ≡ take count lines.old.items
        ++ blank_rows (count - length lines.old.items) cols) }
    ensures err { OnErr result (lines.new.items ≡ lines.old.items) }
{
    if count <= lines.len() {
        lines.truncate(count);
        return Ok(());
    }
    let mut added = blank_rows(*lines.allocator(), count - lines.len(), cols)?;
    lines.append(&mut added)?;
    Ok(())
}

/// Returns so many lines of a number of columns: the first of some lines, and blank ones behind them.
fn fitted_lines(
    alloc: Global,
    lines: &Vec<CellRow>,
    count: usize,
    cols: usize,
) -> Result<Vec<CellRow>, NoMemory>
    requires { (from : ℕ) × AllRows from lines.now.items }
    ensures { IfOk result (λ fitted. fitted.items ≡ fitted_lines count cols lines.now.items) }
{
    let mut fitted = first_fitted(alloc, lines, count.min(lines.len()), cols)?;
    fit_count(&mut fitted, count, cols)?;
    Ok(fitted)
}

/// Gives lines of some columns another number of lines and of columns. Where the columns stay, no line is made anew.
pub(crate) fn fit_lines(
    lines: &mut Vec<CellRow>,
    from: usize,
    count: usize,
    cols: usize,
) -> Result<(), NoMemory>
    requires { AllRows from lines.old.items }
    ensures ok { OnOk result (lines.new.items ≡ fitted_lines count cols lines.old.items) }
    ensures err { OnErr result (lines.new.items ≡ lines.old.items) }
{
    if from == cols {
        fit_count(lines, count, cols)?;
        return Ok(());
    }
    let fitted = fitted_lines(*lines.allocator(), lines, count, cols)?;
    *lines = fitted;
    Ok(())
}
