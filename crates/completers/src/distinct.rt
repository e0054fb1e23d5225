//! Completions that give a text of their own.
ghost use Rattle.std.specs.Prelude.{◌≡◌, ◌≤◌, ◌++◌, length, take, drop, OnOk, IfOk};
ghost use Rattle.completers.specs.Gathered.{own_texts, chosen};

use std::alloc::Global;
use std::collections::BTreeSet;
use text_doc::{Completion, NoMemory};

/// Takes those of the completions from `start` on away that give no text of their own. They all replace what is typed: so
/// they give the same text where their own texts are equal, and the present one where theirs is what is typed.
pub fn keep_distinct(
    alloc: Global,
    items: &mut Vec<Completion>,
    start: usize,
    typed: &[char],
) -> Result<(), NoMemory>
    requires { start ≤ length items.old.items }
    ensures { OnOk result (items.new.items ≡ take start items.old.items
        ++ own_texts typed.now (drop start items.old.items)) }
{
    let listed = items.split_off(start)?;
    let choice = first_with_text(alloc, listed.as_slice(), typed)?;
    put_chosen(items, listed, choice.as_slice())?;
    Ok(())
}

/// Tells of each completion whether it is the first with its text, and has not the text that is typed. The texts are
/// compared where they stand.
fn first_with_text(
    alloc: Global,
    listed: &[Completion],
    typed: &[char],
) -> Result<Vec<bool>, NoMemory>
    ensures choice { IfOk result (λ choice. chosen choice.items listed.now
        ≡ own_texts typed.now listed.now) }
    ensures len { IfOk result (λ choice. length choice.items ≡ length listed.now) }
{
    let mut seen = BTreeSet::new(alloc);
    seen.insert(typed)?;
    let mut choice = Vec::new(alloc);
    for item in listed {
        let is_new = seen.insert(item.text.as_slice())?;
        choice.push(is_new)?;
    }
    Ok(choice)
}

/// Puts those completions behind the others whose place in `choice` holds true.
fn put_chosen(
    items: &mut Vec<Completion>,
    listed: Vec<Completion>,
    choice: &[bool],
) -> Result<(), NoMemory>
    requires { length choice.now ≡ length listed.items }
    ensures { OnOk result (items.new.items ≡ items.old.items ++ chosen choice.now listed.items) }
{
    let mut left = choice;
    for item in listed {
        if let [is_chosen, rest @ ..] = left {
            if *is_chosen {
                items.push(item)?;
            }
            left = rest;
        }
    }
    Ok(())
}
