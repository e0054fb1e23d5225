//! A grid of cells. A clause sees it as the list of its rows.
ghost use Rattle.std.specs.Prelude.{◌≡◌, ◌*◌, ◌<◌, ◌≤◌, ◌+◌, ◌++◌, length, take, drop};
ghost use Rattle.cell_grid.specs.Row.{laid_at};

use crate::row_edits::lay_cells;
use crate::{Cell, NoMemory};
use std::alloc::Global;
use std::marker::Model;

/// A rectangle of cells in one block of memory, in each row of which a Tail stands exactly behind each wide Lead.
#[derive(Debug, Drop)]
pub struct Grid {
    rows: u32,
    cols: u32,
    cells: Vec<Cell>,
}

impl Model for Grid {
    ghost use Rattle.std.specs.Prelude.{List};
    ghost use Rattle.cell_grid.specs.declared.cell.Cell.{Cell};
    ghost use Rattle.cell_grid.specs.GridFields.{cut_in_rows, IsBlock};

    ghost Value = { List (List Cell) };

    ghost view = { λ g. cut_in_rows g.rows g.cols g.cells.items };

    ghost invariant = { λ g. IsBlock g.rows g.cols g.cells.items };
}

impl Grid {
    ghost use Rattle.std.specs.Prelude.{◌≡◌, ◌<◌, ◌≤◌, ◌+◌, IfOk, IsOkAnd, Some, length, slice_get, slice_set};
    ghost use Rattle.cell_grid.specs.Cell.{IsLead, spread};
    ghost use Rattle.cell_grid.specs.Row.{IsWhole, laid_at};
    ghost use Rattle.cell_grid.specs.Grid.{AllRows, blank_rows, blitted, columns, put_in, row_at};

    /// Returns a grid of blanks.
    pub fn blank(alloc: Global, rows: u32, cols: u32) -> Result<Grid, NoMemory>
        requires some_rows { 1 ≤ rows }
        requires few_rows { rows ≤ 1000 }
        requires some_cols { 1 ≤ cols }
        requires few_cols { cols ≤ 1000 }
        ensures { IfOk result (λ grid. grid ≡ blank_rows rows cols) }
    {
        let cells = Vec::from_elem(alloc, Cell::blank(), start_of(rows, cols))?;
        Ok(Grid { rows, cols, cells })
    }

    /// Returns how many rows the grid has.
    pub fn rows(&self) -> u32
        ensures value { result ≡ length self.now }
        ensures some { 1 ≤ result }
        ensures few { result ≤ 1000 }
    {
        self.rows
    }

    /// Returns how many columns each row has.
    pub fn cols(&self) -> u32
        ensures value { result ≡ columns self.now }
        ensures every { AllRows result self.now }
        ensures some { 1 ≤ result }
        ensures few { result ≤ 1000 }
    {
        self.cols
    }

    /// Returns the cells of a row, from the left.
    pub fn row(&self, row: u32) -> &[Cell]
        requires { row < length self.now }
        ensures value { result.now ≡ row_at self.now row }
        ensures long { length result.now ≡ columns self.now }
        ensures whole { IsWhole result.now }
    {
        let cells = self.cells.as_slice();
        let (_above, rest) = cells.split_at(start_of(row, self.cols));
        let (line, _below) = rest.split_at(self.cols as usize);
        line
    }

    /// Returns the cell at a row and a column.
    pub fn cell(&self, row: u32, col: u32) -> &Cell
        requires row_within { row < length self.now }
        requires col_within { col < columns self.now }
        ensures { slice_get (row_at self.now row) col ≡ Some result.now }
    {
        &self.row(row)[col as usize]
    }

    /// Puts a Lead, and its Tail where it is wide, in place of the cells there. A half of a wide
    /// character that stays uncovered becomes blank.
    pub fn put(&mut self, row: u32, col: u32, lead: Cell)
        requires lead { IsLead lead }
        requires row_within { row < length self.old }
        requires fits { col + length (spread lead) ≤ columns self.old }
        ensures put { self.new ≡ put_in self.old row col lead }
        ensures cols { columns self.new ≡ columns self.old }
    {
        let columns = lead.columns();
        let places = [lead, Cell::Tail];
        self.lay(row, col, &places[..columns]);
    }

    /// Puts the cells of `part` in place of those there, its first one at this row and column. A half
    /// of a wide character that stays uncovered becomes blank. It takes no memory, so it never fails.
    pub fn blit(&mut self, part: &Grid, row: u32, col: u32) -> Result<(), NoMemory>
        requires rows_fit { row + length part.now ≤ length self.old }
        requires cols_fit { col + columns part.now ≤ columns self.old }
        ensures blits { IsOkAnd result (λ _. self.new ≡ blitted self.old part.now row col) }
        ensures cols { columns self.new ≡ columns self.old }
    {
        prove!(row <= self.rows());
        for i in 0..part.rows() {
            self.lay(row + i, col, part.row(i));
        }
        Ok(())
    }

    /// Puts whole cells in place of those of a row from a column on. A half of a wide character that stays uncovered
    /// becomes blank.
    pub fn lay(&mut self, row: u32, col: u32, cells: &[Cell])
        requires whole { IsWhole cells.now }
        requires row_within { row < length self.old }
        requires fits { col + length cells.now ≤ columns self.old }
        ensures laid { self.new
            ≡ slice_set self.old row (laid_at (row_at self.old row) col cells.now) }
        ensures cols { columns self.new ≡ columns self.old }
    {
        let start = start_of(row, self.cols);
        lay_in_block(
            &mut self.cells,
            start,
            self.cols as usize,
            col as usize,
            cells,
        );
    }
}

/// Tells where a row of this many columns starts in the block.
fn start_of(row: u32, cols: u32) -> usize
    requires few_rows { row ≤ 1000 }
    requires few_cols { cols ≤ 1000 }
    ensures { result ≡ row * cols }
{
    row as usize * cols as usize
}

/// Lays cells over those of the part of a block that starts at a place and has this many columns.
fn lay_in_block(block: &mut Vec<Cell>, start: usize, cols: usize, at: usize, cells: &[Cell])
    requires within { start + cols ≤ length block.old.items }
    requires fits { at + length cells.now ≤ cols }
    ensures { block.new.items
        ≡ take start block.old.items
        ++ (laid_at (take cols (drop start block.old.items)) at cells.now
        ++ drop cols (drop start block.old.items)) }
{
    let all = block.as_mut_slice();
    let (_above, rest) = all.split_at_mut(start);
    let (line, _below) = rest.split_at_mut(cols);
    lay_cells(line, at, cells);
}
