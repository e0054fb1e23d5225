//! The keys of a binding.
use key_names::Key;
use sequences::Sequence;

/// The keys of a binding, in the order in which they are pressed.
pub type BoundKeys = Sequence<Key>;
