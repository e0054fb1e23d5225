//! The menu of completions.
ghost use Rattle.std.specs.Prelude.{◌≡◌, ◌≢◌, ◌<◌, ◌≤◌, ◌+◌, ◌-◌, ◌↔◌, ◌++◌, [], take, length, IsOk, IsTrue, IfOk, OnOk, OnErr};
ghost use Rattle.text_doc.specs.Document.{IsDocument};
ghost use Rattle.edit_buffer.specs.BufferState.{IsMenu, ReachWithin};
ghost use Rattle.edit_buffer.specs.Menus.{completed, choice, CanChoose, CanAdd, IsTooLongChoice, chosen_in, with_items, with_items_in, cancelled_in, menu_of};

use crate::replacements::replace_range;
use crate::{Buffer, EditFault};
use std::mem;
use text_doc::{Completion, Completions, Doc, MAX_LENGTH, NoMemory};

/// The most items that a menu holds.
pub const MAX_ITEMS: usize = 10_000;

/// Completions of a document, and the one that is chosen.
#[derive(Debug, Drop)]
pub struct Menu {
    /// The document that the items complete.
    pub original: Doc,
    pub items: Completions,
    /// The number of the chosen item, from 0.
    pub chosen: Option<usize>,
}

impl Buffer {
    /// Shows a menu of these items for the document, at most `MAX_ITEMS` of them. Returns whether there is an item.
    pub fn start_menu(&mut self, items: Completions) -> Result<bool, NoMemory>
        requires { ReachWithin self.old.doc.cursor items }
        ensures answer { IfOk result (λ shown. IsTrue shown ↔ (0 < length items)) }
        ensures ok { OnOk result (self.new
            ≡ record self.old { menu = menu_of self.old.doc items }) }
        ensures err { OnErr result (self.new ≡ self.old) }
        ensures sure { items ≡ [] → IsOk result }
    {
        if items.is_empty() {
            self.menu = None;
            return Ok(false);
        }
        let original = self.doc.copy()?;
        let mut items = items.into_vec();
        items.truncate(MAX_ITEMS);
        self.menu = Some(Menu {
            original,
            items: Completions::from_vec(items),
            chosen: None,
        });
        Ok(true)
    }

    /// Puts further items into the menu, as long as it has fewer than `MAX_ITEMS`.
    pub fn add_items(&mut self, items: Completions) -> Result<(), NoMemory>
        requires { CanAdd self.old.menu items }
        ensures ok { OnOk result (self.new ≡ with_items_in self.old.menu self.old items) }
        ensures err { OnErr result (self.new ≡ self.old) }
    {
        if let Some(menu) = &mut self.menu {
            add_to_menu(menu, items)?;
        }
        Ok(())
    }

    /// Puts the document of a choice in place of the present one: the menu's original for none.
    pub fn choose(&mut self, which: Option<usize>) -> Result<(), EditFault>
        requires { CanChoose self.old.menu which }
        ensures ok { OnOk result (self.new ≡ chosen_in self.old.menu self.old which) }
        ensures err { OnErr result (self.new ≡ self.old) }
        ensures too_long { (result ≡ Err EditFault.TooLong) ↔ IsTooLongChoice self.old.menu which }
    {
        if let Some(menu) = &mut self.menu {
            let doc = chosen_doc(menu, which)?;
            menu.chosen = which;
            self.doc = doc;
            self.is_kept = false;
        }
        Ok(())
    }

    /// Puts the menu's original back and closes the menu.
    pub fn cancel_menu(&mut self)
        ensures { self.new ≡ cancelled_in self.old.menu self.old }
    {
        if let Some(menu) = self.menu.take() {
            let Menu { original, .. } = menu;
            self.doc = original;
            self.doc.set_mark(None);
            self.is_kept = false;
        }
    }

    /// Closes the menu and keeps the document.
    pub fn close_menu(&mut self)
        ensures { self.new ≡ record self.old { menu = None } }
    {
        self.menu = None;
    }
}

fn chosen_doc(menu: &Menu, which: Option<usize>) -> Result<Doc, EditFault>
    requires within { CanChoose (Some menu.now) which }
    requires menu { IsMenu menu.now }
    ensures ok { IfOk result (λ doc. doc ≡ choice menu.now which) }
    ensures document { IfOk result IsDocument }
    ensures too_long { (result ≡ Err EditFault.TooLong) ↔ IsTooLongChoice (Some menu.now) which }
{
    match which {
        Some(i) => complete(&menu.original, &menu.items.as_slice()[i]),
        None => copy_without_mark(&menu.original),
    }
}

fn copy_without_mark(original: &Doc) -> Result<Doc, EditFault>
    ensures ok { IfOk result (λ doc. doc ≡ record original.now { mark = None }) }
    ensures document { IfOk result IsDocument }
    ensures fits { result ≢ Err EditFault.TooLong }
{
    let mut doc = original.copy()?;
    doc.set_mark(None);
    Ok(doc)
}

/// Returns the document with the item's text in place of what it completes, and without a mark.
fn complete(original: &Doc, item: &Completion) -> Result<Doc, EditFault>
    requires { item.now.back ≤ original.now.cursor }
    ensures ok { IfOk result (λ doc. doc ≡ completed original.now (Some item.now)) }
    ensures document { IfOk result IsDocument }
    ensures too_long { (result ≡ Err EditFault.TooLong)
        ↔ (32768 < length (completed original.now (Some item.now)).text) }
{
    let to = original.cursor();
    let kept = original.len() - item.back;
    if item.text.len() > MAX_LENGTH - kept {
        return Err(EditFault::TooLong);
    }
    let mut doc = copy_without_mark(original)?;
    replace_range(&mut doc, to - item.back, to, item.text.as_slice())?;
    Ok(doc)
}

fn add_to_menu(menu: &mut Menu, more: Completions) -> Result<(), NoMemory>
    requires menu { IsMenu menu.old }
    requires reach { ReachWithin menu.old.original.cursor more }
    ensures ok { OnOk result (menu.new ≡ with_items menu.old more) }
    ensures err { OnErr result (menu.new ≡ menu.old) }
    ensures menu { IsMenu menu.new }
{
    append_items(&mut menu.items, more)?;
    Ok(())
}

/// Puts further items behind those of a list, as many as a menu can hold.
fn append_items(items: &mut Completions, more: Completions) -> Result<(), NoMemory>
    requires { length items.old ≤ 10000 }
    ensures ok { OnOk result (items.new ≡ take 10000 (items.old ++ more)) }
    ensures err { OnErr result (items.new ≡ items.old) }
{
    let room = MAX_ITEMS - items.len();
    let none = Completions::new(items.allocator());
    let mut all = mem::replace(items, none).into_vec();
    let mut added = more.into_vec();
    added.truncate(room);
    let answer = all.append(&mut added);
    *items = Completions::from_vec(all);
    answer
}
