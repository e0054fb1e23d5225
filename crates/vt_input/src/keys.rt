//! A list of key presses.
use key_names::KeyPress;
use sequences::Sequence;

/// Key presses, in the order in which they came.
pub type Keys = Sequence<KeyPress>;
