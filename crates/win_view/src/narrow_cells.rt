//! Cells on rows of one column.
ghost use Rattle.std.specs.Prelude.{◌≡◌, [], ◌∷◌};
ghost use Rattle.cell_grid.specs.Cell.{IsLead, spread};
ghost use Rattle.cell_grid.specs.Row.{IsWhole};
ghost use Rattle.win_view.specs.Rows.{narrowed_cell};

use cell_grid::Cell;

/// Returns a Lead as a row of one column can hold it.
pub fn narrowed(lead: &Cell) -> Cell
    requires { IsLead lead.now }
    ensures value { result ∷ [] ≡ narrowed_cell lead.now }
    ensures whole { IsWhole (result ∷ []) }
    ensures lead { IsLead result }
    ensures one { spread result ≡ result ∷ [] }
{
    match lead {
        Cell::Lead {
            width: 2,
            attrs,
            ..
        } => Cell::narrow(char::REPLACEMENT_CHARACTER, *attrs),
        _ => *lead,
    }
}
