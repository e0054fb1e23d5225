//! Bindings of keys to commands, and tables of them.
use crate::bound_keys::BoundKeys;
use crate::filters::Filter;
use std::marker::Model;

/// Whether what is edited is saved for undo before a command runs.
#[derive(Clone, Copy, Debug, PartialEq, Eq)]
pub enum Save {
    /// It is saved always.
    Always,
    /// It is never saved.
    Never,
    /// It is saved unless the command that fired before was the same.
    UnlessRepeat,
}

/// A command that fires where certain keys are pressed.
#[derive(Debug, Drop)]
pub struct Binding {
    /// What is pressed, in order; `Key::Any` stands for each key.
    pub keys: BoundKeys,
    /// When the binding is active.
    pub filter: Filter,
    /// An eager binding fires at once, even where longer ones may still match.
    pub eager: bool,
    pub save: Save,
    /// The number of the command.
    pub command: u32,
}

/// A table of `N` bindings in the order in which they were added, each of one to three keys.
#[derive(Debug, Drop)]
pub struct Bindings<const N: usize> {
    rows: Vec<Binding>,
}

impl<const N: usize> Model for Bindings<N> {
    ghost use Rattle.std.specs.Prelude.{◌≡◌, List, length};
    ghost use Rattle.std.specs.Coded.{codes};
    ghost use Rattle.key_proc.specs.declared.bindings.Binding.{Binding};
    ghost use Rattle.key_proc.specs.contracts.filters.Filter as filter;

    ghost Value = { List Binding };

    ghost coded = { Prim.hlevel (codes, filter.the_row.coded) };

    ghost use Rattle.key_proc.specs.Sizes.{AllSized};

    ghost view = { λ table. table.rows.items };

    ghost invariant = { λ table. (length table.rows.items ≡ N) × AllSized table.rows.items };
}

impl<const N: usize> Bindings<N> {
    ghost use Rattle.std.specs.Prelude.{◌≡◌, length};
    ghost use Rattle.key_proc.specs.Sizes.{AllSized};

    /// Returns the table of these bindings.
    pub fn from_rows(rows: Vec<Binding>) -> Bindings<N>
        requires count { length rows.items ≡ N }
        requires keys { AllSized rows.items }
        ensures { result ≡ rows.items }
    {
        Bindings { rows }
    }

    /// Returns the bindings, in the order in which they were added.
    pub fn as_slice(&self) -> &[Binding]
        ensures rows { result.now ≡ self.now }
        ensures count { length self.now ≡ N }
        ensures keys { AllSized self.now }
    {
        self.rows.as_slice()
    }
}
