//! `Item`, what a list can hold and copy.
ghost use Rattle.std.specs.Prelude.{◌≡◌, IfOk};

use crate::NoMemory;
use std::alloc::Global;

/// What a `Sequence` can hold and copy.
pub trait Item: Drop {
    /// Returns a value equal to this one.
    fn copied(&self) -> Result<Self, NoMemory>
        ensures { IfOk result (λ copy. copy ≡ self.now) };

    /// Returns copies of these items. Plain values are copied as one block, others one by one.
    fn copied_all(alloc: Global, items: &[Self]) -> Result<Vec<Self>, NoMemory>
        ensures { IfOk result (λ copies. copies.items ≡ items.now) }
    {
        let mut copies = Vec::with_capacity(alloc, items.len())?;
        for item in items {
            copies.push(item.copied()?)?;
        }
        Ok(copies)
    }
}

impl Item for char {
    fn copied(&self) -> Result<Self, NoMemory> {
        Ok(*self)
    }

    fn copied_all(alloc: Global, items: &[Self]) -> Result<Vec<Self>, NoMemory> {
        let copies = Vec::from_slice(alloc, items)?;
        Ok(copies)
    }
}

impl Item for u8 {
    fn copied(&self) -> Result<Self, NoMemory> {
        Ok(*self)
    }

    fn copied_all(alloc: Global, items: &[Self]) -> Result<Vec<Self>, NoMemory> {
        let copies = Vec::from_slice(alloc, items)?;
        Ok(copies)
    }
}

impl Item for u32 {
    fn copied(&self) -> Result<Self, NoMemory> {
        Ok(*self)
    }

    fn copied_all(alloc: Global, items: &[Self]) -> Result<Vec<Self>, NoMemory> {
        let copies = Vec::from_slice(alloc, items)?;
        Ok(copies)
    }
}

impl Item for u64 {
    fn copied(&self) -> Result<Self, NoMemory> {
        Ok(*self)
    }

    fn copied_all(alloc: Global, items: &[Self]) -> Result<Vec<Self>, NoMemory> {
        let copies = Vec::from_slice(alloc, items)?;
        Ok(copies)
    }
}

impl Item for usize {
    fn copied(&self) -> Result<Self, NoMemory> {
        Ok(*self)
    }

    fn copied_all(alloc: Global, items: &[Self]) -> Result<Vec<Self>, NoMemory> {
        let copies = Vec::from_slice(alloc, items)?;
        Ok(copies)
    }
}
