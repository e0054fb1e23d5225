//! The rows of a content, laid one by one into a part of a grid.
use crate::Viewport;
use crate::cuts::lay_columns;
use crate::first_rows::first_row;
use crate::narrow_cells::narrowed;
use cell_grid::{Cell, CellRow, Grid, NoMemory};
use std::alloc::Global;

/// Where in a grid the next row of a content is laid.
#[derive(Drop)]
pub struct Laying {
    /// As many spaces as the part has columns. The last of them stand behind the cells of each row.
    pub spaces: Vec<Cell>,
    /// How many rows to come are above the part.
    pub above: u32,
    /// The grid's row for the first row that is in it.
    pub row: u32,
    /// The grid's row below the part.
    pub end: u32,
    /// The first column of the part.
    pub col: u32,
}

impl Laying {
    ghost use Rattle.std.specs.Prelude.{◌≡◌, ◌+◌, ◌-◌, ◌<◌, ◌≤◌, ◌↔◌, IfOk, IsTrue, drop, flat_map, fold, length, map};
    ghost use Rattle.std.specs.Prelude.{replicate, slice_set};
    ghost use Rattle.std.specs.List.{All};
    ghost use Rattle.cell_grid.specs.Grid.{blitted, columns, row_at};
    ghost use Rattle.cell_grid.specs.Row.{IsWhole, laid_at};
    ghost use Rattle.win_view.specs.Greedy.{IsHeld};
    ghost use Rattle.win_view.specs.Rows.{holdable, rows_of};
    ghost use Rattle.win_view.specs.Showing.{HasRoom, IsStart, passed, shown_of, with_row};
    ghost use Rattle.win_view.specs.Views.{columns_from};

    /// Begins to lay the first row of a content into the first row of a part of this grid.
    pub fn new(alloc: Global, viewport: &Viewport, grid: &Grid) -> Result<Laying, NoMemory>
        requires rows_fit { viewport.now.row + viewport.now.size.rows ≤ length grid.now }
        requires cols_fit { viewport.now.col + viewport.now.size.cols ≤ columns grid.now }
        ensures start { IfOk result (IsStart viewport.now) }
        ensures room { IfOk result (λ laying. HasRoom laying grid.now) }
    {
        prove!(viewport.row <= grid.rows());
        prove!(viewport.col <= grid.cols());
        let space = Cell::narrow(' ', viewport.behind);
        let spaces = Vec::from_elem(alloc, space, viewport.size.cols() as usize)?;
        Ok(Laying {
            spaces,
            above: 0,
            row: viewport.row,
            end: viewport.row + viewport.size.rows(),
            col: viewport.col,
        })
    }

    /// Tells whether the rows to come are all below the part.
    fn is_full(&self) -> bool
        ensures { IsTrue result ↔ ((self.now.above ≡ 0) × (self.now.end ≤ self.now.row)) }
    {
        self.above == 0 && self.row >= self.end
    }

    /// Lays the rows of these lines.
    pub fn show_lines(&mut self, lines: &[CellRow], grid: &mut Grid)
        requires room { HasRoom self.old grid.old }
        ensures passed { (self.new, grid.new)
            ≡ fold passed (self.old, grid.old)
            (flat_map (rows_of (length self.old.spaces.items)) lines.now) }
        ensures held { All (IsHeld (length self.old.spaces.items))
            (shown_of self.old self.old.above
            (flat_map (rows_of (length self.old.spaces.items)) lines.now)) }
        ensures room { HasRoom self.new grid.new }
        ensures cols { columns grid.new ≡ columns grid.old }
    {
        for line in lines {
            if self.is_full() {
                return;
            }
            self.show_line(line.as_slice(), grid);
        }
    }

    /// Lays the rows of a line.
    fn show_line(&mut self, cells: &[Cell], grid: &mut Grid)
        requires whole { IsWhole cells.now }
        requires room { HasRoom self.old grid.old }
        ensures passed { (self.new, grid.new)
            ≡ fold passed (self.old, grid.old) (rows_of (length self.old.spaces.items) cells.now) }
        ensures room { HasRoom self.new grid.new }
        ensures cols { columns grid.new ≡ columns grid.old }
    {
        let width = self.spaces.len();
        let mut rest = cells;
        let mut count = first_row(rest, width);
        while count < rest.len() {
            let (row, behind) = rest.split_at(count);
            self.show_held(row, grid);
            rest = behind;
            count = first_row(rest, width);
        }
        self.show_held(rest, grid);
    }

    /// Lays a row of a line: the line's own cells of it, which stand there as the width can hold them.
    fn show_held(&mut self, row: &[Cell], grid: &mut Grid)
        requires whole { IsWhole row.now }
        requires fits { length (holdable (length self.old.spaces.items) row.now)
            ≤ length self.old.spaces.items }
        requires room { HasRoom self.old grid.old }
        ensures passed { (self.new, grid.new)
            ≡ passed (self.old, grid.old) (holdable (length self.old.spaces.items) row.now) }
        ensures room { HasRoom self.new grid.new }
        ensures cols { columns grid.new ≡ columns grid.old }
    {
        if self.spaces.len() == 1 && !row.is_empty() {
            self.show_row(&[narrowed(&row[0])], grid);
        } else {
            self.show_row(row, grid);
        }
    }

    /// Lays the next row of the content into the grid, unless it is above or below the part.
    fn show_row(&mut self, cells: &[Cell], grid: &mut Grid)
        requires whole { IsWhole cells.now }
        requires fits { length cells.now ≤ length self.old.spaces.items }
        requires room { HasRoom self.old grid.old }
        ensures passed { (self.new, grid.new) ≡ passed (self.old, grid.old) cells.now }
        ensures room { HasRoom self.new grid.new }
        ensures cols { columns grid.new ≡ columns grid.old }
    {
        if self.above > 0 {
            self.above -= 1;
            return;
        }
        if self.row >= self.end {
            return;
        }
        prove!(self.col <= grid.cols());
        grid.lay(self.row, self.col, cells);
        self.end_row(cells.len(), grid);
    }

    /// Lays the columns of these lines, each as a row.
    pub fn show_columns(&mut self, lines: &[CellRow], across: usize, grid: &mut Grid)
        requires inside { self.old.above ≡ 0 }
        requires room { HasRoom self.old grid.old }
        ensures passed { (self.new, grid.new)
            ≡ fold passed (self.old, grid.old)
            (map (columns_from across (length self.old.spaces.items)) lines.now) }
        ensures held { All (IsHeld (length self.old.spaces.items))
            (shown_of self.old 0
            (map (columns_from across (length self.old.spaces.items)) lines.now)) }
        ensures room { HasRoom self.new grid.new }
        ensures cols { columns grid.new ≡ columns grid.old }
    {
        for line in lines {
            if self.is_full() {
                return;
            }
            self.show_cut(line.as_slice(), across, grid);
        }
    }

    /// Lays the columns of a line as the next row.
    fn show_cut(&mut self, line: &[Cell], across: usize, grid: &mut Grid)
        requires whole { IsWhole line.now }
        requires inside { self.old.row < self.old.end }
        requires room { HasRoom self.old grid.old }
        ensures laying { self.new ≡ record self.old { row = self.old.row + 1 } }
        ensures laid { grid.new
            ≡ with_row self.old grid.old
            (columns_from across (length self.old.spaces.items) line.now) }
        ensures room { HasRoom self.new grid.new }
        ensures cols { columns grid.new ≡ columns grid.old }
    {
        prove!(self.col <= grid.cols());
        let count = lay_columns(line, across, self.spaces.len(), self.row, self.col, grid);
        self.end_row(count, grid);
    }

    /// Ends a row whose cells are laid: spaces are laid behind them now.
    fn end_row(&mut self, count: usize, grid: &mut Grid)
        requires inside { self.old.row < self.old.end }
        requires fits { count ≤ length self.old.spaces.items }
        requires room { HasRoom self.old grid.old }
        ensures laying { self.new ≡ record self.old { row = self.old.row + 1 } }
        ensures laid { grid.new
            ≡ slice_set grid.old self.old.row
            (laid_at (row_at grid.old self.old.row) (self.old.col + count)
            (drop count self.old.spaces.items)) }
        ensures room { HasRoom self.new grid.new }
        ensures cols { columns grid.new ≡ columns grid.old }
    {
        let (_, behind) = self.spaces.as_slice().split_at(count);
        grid.lay(self.row, self.col + count as u32, behind);
        self.row += 1;
    }

    /// Lays spaces into the rows that are left, where no row comes any more.
    pub fn show_spaces(&self, grid: &mut Grid)
        requires room { HasRoom self.now grid.old }
        ensures laid { grid.new
            ≡ blitted grid.old (replicate (self.now.end - self.now.row) self.now.spaces.items)
            self.now.row self.now.col }
        ensures cols { columns grid.new ≡ columns grid.old }
    {
        for at in 0..self.end - self.row {
            grid.lay(self.row + at, self.col, self.spaces.as_slice());
        }
    }
}
