//! The completions of a document, in their order.
ghost use Rattle.std.specs.Prelude.{◌≡◌, ◌≤◌, length, IfOk, OnOk};
ghost use Rattle.std.specs.List.{All};
ghost use Rattle.completers.specs.Listed.{before_cursor, all_items, listed_items};
ghost use Rattle.completers.specs.Gathered.{IsNext, Takes};
ghost use Rattle.completers.specs.Typed.{typed_word};

use crate::Completer;
use crate::distinct::keep_distinct;
use crate::matching::put_words;
use crate::nesting::put_nested;
use crate::trees::Node;
use crate::typed::typed_word;
use std::alloc::Global;
use text_doc::{Completion, Completions, Doc, NoMemory, Text};

/// The most completions that a document gets.
pub const MAX_COMPLETIONS: usize = 10_000;

/// Returns the first completions of a document, at most `MAX_COMPLETIONS`, in the order of the completer.
///
/// Each list of words is gone through once, and a word costs steps in proportion to its characters, whatever is typed.
/// What makes the completions apart costs as many comparisons of texts for each as their number has binary digits.
pub fn completions(alloc: Global, completer: &Completer, doc: &Doc) -> Result<Completions, NoMemory>
    ensures items { IfOk result (λ items. items ≡ listed_items completer.now doc.now) }
    ensures reach { IfOk result (λ items. All (λ item. item.back ≤ doc.now.cursor) items) }
{
    let mut items = all_items(alloc, completer, doc)?;
    items.truncate(MAX_COMPLETIONS);
    Ok(Completions::from_vec(items))
}

/// Returns all completions of a document.
fn all_items(alloc: Global, completer: &Completer, doc: &Doc) -> Result<Vec<Completion>, NoMemory>
    ensures items { IfOk result (λ items. items.items ≡ all_items completer.now doc.now) }
    ensures reach { IfOk result (λ items. All (λ item. item.back ≤ doc.now.cursor) items.items) }
{
    let typed = typed_word(doc)?;
    let mut items = Vec::new(alloc);
    let mut starts = Vec::new(alloc);
    for node in completer.nodes() {
        take_node(alloc, node, doc, typed.as_slice(), &mut items, &mut starts)?;
    }
    Ok(items)
}

/// Returns the text before the cursor.
fn before_cursor(doc: &Doc) -> Result<Text, NoMemory>
    ensures { IfOk result (λ text. text ≡ before_cursor doc.now) }
{
    doc.part(0, doc.cursor())
}

/// Takes one more node. The completions of the nodes so far stand in lists, one behind the other; `starts` holds where
/// each starts.
fn take_node(
    alloc: Global,
    node: &Node,
    doc: &Doc,
    typed: &[char],
    items: &mut Vec<Completion>,
    starts: &mut Vec<usize>,
) -> Result<(), NoMemory>
    requires within { doc.now.cursor ≤ length doc.now.text }
    requires typed { typed.now ≡ typed_word (before_cursor doc.now) }
    requires next { IsNext doc.now node.now items.old.items starts.old.items }
    ensures { OnOk result (Takes doc.now node.now items.old.items starts.old.items
        items.new.items starts.new.items) }
{
    match node {
        Node::Words { words, middle } => {
            starts.push(items.len())?;
            put_words(alloc, items, words.as_slice(), *middle, typed)?;
        }
        Node::Nested(options) => {
            starts.push(items.len())?;
            let before = before_cursor(doc)?;
            put_nested(alloc, items, options.as_slice(), before.as_slice(), typed)?;
        }
        Node::Merged => {
            let _ = starts.pop();
        }
        Node::Distinct => {
            if let Some(start) = starts.last() {
                keep_distinct(alloc, items, *start, typed)?;
            }
        }
    }
    Ok(())
}
