//! The attributes of the classes that a sheet was asked for last.
ghost use Rattle.std.specs.Prelude.{◌≡◌, [], List, IfOk, IfSome};
ghost use Rattle.style_sheet.specs.Cascade.{class_attrs};
ghost use Rattle.style_sheet.specs.Known.{AreKnown};
ghost use Rattle.style_sheet.specs.StyleRule.{StyleRule};

use cell_grid::Attrs;
use lru::LruCache;
use sequences::NoMemory;
use std::alloc::Global;
use std::num::NonZeroUsize;

/// How many classes are kept.
const MOST_KNOWN: usize = 64;

/// Returns a cache that holds no class.
pub(crate) fn no_classes(alloc: Global) -> Result<LruCache<String, Attrs>, NoMemory>
    ensures { IfOk result (λ known. known.entries ≡ []) }
{
    LruCache::new(alloc, NonZeroUsize::new(MOST_KNOWN).unwrap())
}

/// Returns the attributes of the class, if it is held, and makes it the one that was asked for last.
pub(crate) fn recall(known: &mut LruCache<String, Attrs>, class: &str) -> Option<Attrs>
    ensures attrs { (rules : List StyleRule) → AreKnown rules known.old.entries
        → IfSome result (λ attrs. attrs ≡ class_attrs rules class.now) }
    ensures known { (rules : List StyleRule) → AreKnown rules known.old.entries
        → AreKnown rules known.new.entries }
{
    if !known.promote(class) {
        return None;
    }
    known.peek(class).copied()
}

/// Holds the class, where there is memory for it.
pub(crate) fn remember(known: &mut LruCache<String, Attrs>, class: &str, attrs: Attrs)
    ensures { (rules : List StyleRule) → AreKnown rules known.old.entries
        → attrs ≡ class_attrs rules class.now
        → AreKnown rules known.new.entries }
{
    let alloc = *known.allocator();
    if let Ok(name) = String::from_str(alloc, class) {
        let _ = known.put(name, attrs);
    }
}
