//! Constant tables of bindings, and the tables that are made of them.
ghost use Rattle.std.specs.Prelude.{◌≡◌, length, map, IfOk};
ghost use Rattle.key_proc.specs.Rows.{keys_of_row, test_filter, all_filter, filter_of, binding_of};

use crate::bindings::{Binding, Bindings, Save};
use crate::bound_keys::BoundKeys;
use crate::facts::Fact;
use crate::filters::Filter;
use key_names::Key;
use sequences::NoMemory;
use std::alloc::Global;

/// The keys of a row, in the order in which they are pressed; `Key::Any` stands for each key.
#[derive(Clone, Copy, Debug)]
pub enum RowKeys {
    One(Key),
    Two(Key, Key),
    Three(Key, Key, Key),
}

/// A fact, or that it does not hold.
#[derive(Clone, Copy, Debug)]
pub enum FactTest {
    /// The fact holds.
    Is(Fact),
    /// The fact does not hold.
    Not(Fact),
}

/// When a row is active.
#[derive(Clone, Copy, Debug)]
pub enum FactFilter {
    /// All these tests hold. Where there is none, the row is always active.
    All(&'static [FactTest]),
    /// All of the first tests hold, or all of the second.
    Either(&'static [FactTest], &'static [FactTest]),
}

/// A row of a constant table of bindings: its keys, when it is active, what is saved, and the number of its command.
#[derive(Clone, Copy, Debug)]
pub enum BindingRow {
    /// It fires where no longer binding may still match.
    Plain(RowKeys, FactFilter, Save, u32),
    /// It fires at once, even where longer ones may still match.
    Eager(RowKeys, FactFilter, Save, u32),
}

/// Returns the table of these rows, in their order.
pub fn bindings_of<const N: usize>(
    alloc: Global,
    rows: &[BindingRow],
) -> Result<Bindings<N>, NoMemory>
    requires { length rows.now ≡ N }
    ensures { IfOk result (λ table. table ≡ map binding_of rows.now) }
{
    let bindings = bindings_in(alloc, rows)?;
    Ok(Bindings::from_rows(bindings))
}

/// Returns the bindings of the rows.
fn bindings_in(alloc: Global, rows: &[BindingRow]) -> Result<Vec<Binding>, NoMemory>
    ensures { IfOk result (λ bindings. bindings.items ≡ map binding_of rows.now) }
{
    let mut bindings = Vec::with_capacity(alloc, rows.len())?;
    for row in rows {
        bindings.push(binding_of(alloc, *row)?)?;
    }
    Ok(bindings)
}

/// Returns the binding of a row.
fn binding_of(alloc: Global, row: BindingRow) -> Result<Binding, NoMemory>
    ensures { IfOk result (λ binding. binding ≡ binding_of row) }
{
    match row {
        BindingRow::Plain(keys, filter, save, command) => Ok(Binding {
            keys: keys_of_row(alloc, keys)?,
            filter: filter_of(alloc, filter)?,
            eager: false,
            save,
            command,
        }),
        BindingRow::Eager(keys, filter, save, command) => Ok(Binding {
            keys: keys_of_row(alloc, keys)?,
            filter: filter_of(alloc, filter)?,
            eager: true,
            save,
            command,
        }),
    }
}

/// Returns the keys of a row.
fn keys_of_row(alloc: Global, keys: RowKeys) -> Result<BoundKeys, NoMemory>
    ensures { IfOk result (λ bound. bound ≡ keys_of_row keys) }
{
    match keys {
        RowKeys::One(first) => BoundKeys::from_slice(alloc, &[first]),
        RowKeys::Two(first, second) => BoundKeys::from_slice(alloc, &[first, second]),
        RowKeys::Three(first, second, third) => {
            BoundKeys::from_slice(alloc, &[first, second, third])
        },
    }
}

/// Returns the filter of a row.
fn filter_of(alloc: Global, filter: FactFilter) -> Result<Filter, NoMemory>
    ensures { IfOk result (λ read. read ≡ filter_of filter) }
{
    match filter {
        FactFilter::All(tests) => all_filter(alloc, tests),
        FactFilter::Either(first, second) => {
            let first = all_filter(alloc, first)?;
            Filter::either(alloc, first, all_filter(alloc, second)?)
        },
    }
}

/// Returns the filter that holds where all these tests do.
fn all_filter(alloc: Global, tests: &[FactTest]) -> Result<Filter, NoMemory>
    ensures { IfOk result (λ filter. filter ≡ all_filter tests.now) }
{
    match tests {
        [] => Ok(Filter::Always),
        [test, rest @ ..] => {
            let first = test_filter(alloc, *test)?;
            Filter::both(alloc, first, all_filter(alloc, rest)?)
        },
    }
}

/// Returns the filter that holds where the test does.
fn test_filter(alloc: Global, test: FactTest) -> Result<Filter, NoMemory>
    ensures { IfOk result (λ filter. filter ≡ test_filter test) }
{
    match test {
        FactTest::Is(fact) => Ok(Filter::Is(fact)),
        FactTest::Not(fact) => Filter::unless(alloc, Filter::Is(fact)),
    }
}
