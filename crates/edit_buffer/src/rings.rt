//! A ring of clips, the texts that were cut or copied. A clause sees it as the list of its clips, the newest first.
ghost use Rattle.std.specs.Prelude.{◌≡◌, ◌≤◌, ◌↔◌, [], false, length, slice_get, option_copied, IfOk, IsTrue};
ghost use Rattle.std.specs.List.{prefix_len};
ghost use Rattle.edit_buffer.specs.Rings.{with_clip, rotated, same_clip};

use circular_buffer::HeapCircularBuffer;
use std::alloc::Global;
use std::marker::Model;
use text_doc::{NoMemory, Text};

/// The most clips that a ring holds.
pub const MAX_CLIPS: usize = 60;

/// A text that was cut or copied.
#[derive(Debug, Drop)]
pub struct Clip {
    pub text: Text,
    /// Whether the text is made of whole rows.
    pub lines: bool,
}

impl Clip {
    /// Returns whether text and kind are equal to those of `other`.
    pub fn is_same(&self, other: &Clip) -> bool
        ensures value { result ≡ same_clip self.now other.now }
        ensures equal { IsTrue result ↔ (self.now ≡ other.now) }
    {
        self.lines == other.lines && self.text.as_slice() == other.text.as_slice()
    }
}

/// The clips that were put last.
#[derive(Drop)]
pub struct Ring {
    clips: HeapCircularBuffer<Clip>,
}

impl Model for Ring {
    ghost use Rattle.std.specs.Prelude.{List, ◌≡◌, ◌≤◌, ◌<◌, length};
    ghost use Rattle.edit_buffer.specs.declared.rings.Clip.{Clip};

    ghost Value = { List Clip };

    ghost view = { λ r. r.clips.items };

    ghost invariant = { λ r. (r.clips.capacity ≡ 60) × (length r.clips.items ≤ 60) };
}

impl Ring {
    /// Returns a ring without clips, with room for all that it can hold.
    pub fn new(alloc: Global) -> Result<Ring, NoMemory>
        ensures { IfOk result (λ ring. ring ≡ []) }
    {
        let clips = HeapCircularBuffer::with_capacity(alloc, MAX_CLIPS)?;
        Ok(Ring { clips })
    }

    /// Puts a clip before the others. A full ring drops its oldest one.
    pub fn put(&mut self, clip: Clip)
        ensures { self.new ≡ with_clip self.old clip }
    {
        self.clips.push_front(clip);
    }

    /// Returns the clip that was put last, or the one that `rotate` made the first since.
    pub fn first(&self) -> Option<&Clip>
        ensures { option_copied result ≡ slice_get self.now 0 }
    {
        self.clips.front()
    }

    /// Returns the clip that `rotate` would make the first.
    pub fn second(&self) -> Option<&Clip>
        ensures { option_copied result ≡ slice_get (rotated self.now) 0 }
    {
        if self.clips.len() > 1 {
            self.clips.nth_front(1)
        } else {
            self.clips.front()
        }
    }

    /// Tells whether `rotate` changes the ring: not where all clips are alike.
    pub fn turns(&self) -> bool
        ensures { (result ≡ false) ↔ (rotated self.now ≡ self.now) }
    {
        match self.clips.front() {
            Some(first) => count_same(&self.clips, first) < self.clips.len(),
            None => false,
        }
    }

    /// Moves the first clip to the end.
    pub fn rotate(&mut self)
        ensures { self.new ≡ rotated self.old }
    {
        if let Some(clip) = self.clips.pop_front() {
            self.clips.push_back(clip);
        }
    }
}

/// Counts the first clips that are the same as this one.
fn count_same(clips: &HeapCircularBuffer<Clip>, first: &Clip) -> usize
    ensures { result ≡ prefix_len (same_clip first.now) clips.now.items }
{
    clips.iter().take_while(|clip| first.is_same(clip)).count()
}
