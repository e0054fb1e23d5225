//! Frames: the bytes that turn the drawing on a terminal into a new one.
//!
//! The way of a frame. `frame` looks at what is shown. Where that is nothing, or its size was forgotten, the
//! bytes begin with an opening (`frames`): up to the base line, all erased, and the modes of a prompt. Then
//! the rows become those of the new drawing (`lines`): first the lines that are there, in which only the
//! cells that differ are printed (`rows`), with one erasure where all becomes blank from a place on; then
//! the lines below them, which line feeds begin. At last the cursor goes to its place, or the prompt is
//! closed (`frames`).
//!
//! All of this is written by a `Writer` (`writer`): the bytes so far, and the place and the pen that every
//! terminal has after them. The contract of each of its steps says where it leads from any canvas
//! (`specs/Canvas.antt`), so nothing above it knows a byte, and a shorter spelling changes no contract.
//! `moving` takes the shorter of two ways to a place, `pens` finds what a pen lacks, and `spelling` has the
//! bytes of each piece (`specs/Pieces.antt`).
#![tactic(auto)]

mod frames;
mod kept;
pub mod laws;
mod lines;
mod moving;
mod pens;
mod rows;
mod shown;
mod spelling;
#[cfg(test)]
mod tests;
mod writer;

pub use frames::frame;
pub use shown::Shown;
pub use std::alloc::AllocError as NoMemory;
