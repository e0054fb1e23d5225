//! A row of cells. A clause sees it as the list of its cells.
ghost use Rattle.std.specs.Prelude.{◌≡◌, ◌+◌, ◌≤◌, ◌++◌, OnOk, OnErr, length};
ghost use Rattle.cell_grid.specs.Cell.{IsLead, spread};
ghost use Rattle.cell_grid.specs.Row.{IsWhole, put_at};
ghost use Rattle.cell_grid.specs.TextCells.{joined_last};

use crate::row_edits::lay_cells;
use crate::{Attrs, Cell, NoMemory};
use sequences::{Item, Sequence};
use std::alloc::Global;
use std::marker::Model;

/// A list of rows.
pub type CellRows = Sequence<CellRow>;

/// A row of cells, in which a Tail stands exactly behind each wide Lead.
#[derive(Debug, Drop)]
pub struct CellRow {
    cells: Vec<Cell>,
}

impl Model for CellRow {
    ghost use Rattle.std.specs.Prelude.{List};
    ghost use Rattle.cell_grid.specs.declared.cell.Cell.{Cell};
    ghost use Rattle.cell_grid.specs.Row.{IsWhole};

    ghost Value = { List Cell };

    ghost view = { λ r. r.cells.items };

    ghost invariant = { λ r. IsWhole r.cells.items };
}

impl CellRow {
    ghost use Rattle.std.specs.Prelude.{◌≡◌, ◌<◌, ◌↔◌, ◌+◌, ◌≤◌, ◌++◌, IsTrue, IfOk, OnOk, OnErr, Some, [], length, replicate, slice_get};
    ghost use Rattle.cell_grid.specs.Cell.{IsLead, narrow, spread};
    ghost use Rattle.cell_grid.specs.Row.{IsWhole, put_at};
    ghost use Rattle.cell_grid.specs.TextCells.{joined_last};

    /// Returns a row of no cells.
    pub fn new(alloc: Global) -> CellRow
        ensures { result ≡ [] }
    {
        CellRow {
            cells: Vec::new(alloc),
        }
    }

    /// Returns a row of so many cells of one column, each with this character.
    pub fn filled(alloc: Global, c: char, attrs: Attrs, cols: usize) -> Result<CellRow, NoMemory>
        ensures { IfOk result (λ row. row ≡ replicate cols (narrow c attrs)) }
    {
        let cells = Vec::from_elem(alloc, Cell::narrow(c, attrs), cols)?;
        Ok(CellRow { cells })
    }

    /// Returns how many cells the row has, Tails included.
    pub fn len(&self) -> usize
        ensures { result ≡ length self.now }
    {
        self.cells.len()
    }

    /// Tells whether the row has no cells.
    pub fn is_empty(&self) -> bool
        ensures { IsTrue result ↔ (self.now ≡ []) }
    {
        self.cells.is_empty()
    }

    /// Returns the cell at a place.
    pub fn cell(&self, at: usize) -> &Cell
        requires { at < length self.now }
        ensures { slice_get self.now at ≡ Some result.now }
    {
        &self.cells[at]
    }

    /// Returns all cells from the first on.
    pub fn as_slice(&self) -> &[Cell]
        ensures value { result.now ≡ self.now }
        ensures whole { IsWhole result.now }
    {
        self.cells.as_slice()
    }
    /// Adds a Lead behind the other cells, and its Tail where it is wide.
    pub fn push(&mut self, lead: Cell) -> Result<(), NoMemory>
        requires { IsLead lead }
        ensures ok { OnOk result (self.new ≡ self.old ++ spread lead) }
        ensures err { OnErr result (self.new ≡ self.old) }
    {
        push_lead(&mut self.cells, lead)?;
        Ok(())
    }

    /// Puts a Lead, and its Tail where it is wide, in place of the cells there. A half of a wide
    /// character that stays uncovered becomes blank.
    pub fn put(&mut self, at: usize, lead: Cell)
        requires lead { IsLead lead }
        requires fits { at + length (spread lead) ≤ length self.old }
        ensures { self.new ≡ put_at self.old at lead }
    {
        put_in_cells(&mut self.cells, at, lead);
    }

    /// Joins a character to the last Lead, where there is one and it has room.
    pub fn join_last(&mut self, next: char)
        ensures { self.new ≡ joined_last self.old next }
    {
        join_last_of(&mut self.cells, next);
    }

    /// Returns a row of equal cells.
    pub fn copy(&self) -> Result<CellRow, NoMemory>
        ensures { IfOk result (λ copy. copy ≡ self.now) }
    {
        let cells = Vec::from_slice(*self.cells.allocator(), self.cells.as_slice())?;
        Ok(CellRow { cells })
    }
}

impl Item for CellRow {
    fn copied(&self) -> Result<CellRow, NoMemory> {
        self.copy()
    }
}

fn push_lead(cells: &mut Vec<Cell>, lead: Cell) -> Result<(), NoMemory>
    requires { IsLead lead }
    ensures ok { OnOk result (cells.new.items ≡ cells.old.items ++ spread lead) }
    ensures err { OnErr result (cells.new.items ≡ cells.old.items) }
{
    let columns = lead.columns();
    let places = [lead, Cell::Tail];
    cells.extend_from_slice(&places[..columns])?;
    Ok(())
}

fn put_in_cells(cells: &mut Vec<Cell>, at: usize, lead: Cell)
    requires lead { IsLead lead }
    requires fits { at + length (spread lead) ≤ length cells.old.items }
    ensures { cells.new.items ≡ put_at cells.old.items at lead }
{
    let columns = lead.columns();
    let places = [lead, Cell::Tail];
    let row = cells.as_mut_slice();
    lay_cells(row, at, &places[..columns]);
}

fn join_last_of(cells: &mut Vec<Cell>, next: char)
    requires { IsWhole cells.old.items }
    ensures { cells.new.items ≡ joined_last cells.old.items next }
{
    let len = cells.len();
    if len == 0 {
        return;
    }
    let last = if cells[len - 1].is_tail() {
        len - 2
    } else {
        len - 1
    };
    let lead = cells[last].joined(next);
    cells[last] = lead;
}
