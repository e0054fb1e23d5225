//! Letters: what the threads of a prompt send to its loop.
use cell_grid::Size;
use requests::Batch;
use text_doc::Bytes;

/// What one thread tells the loop.
#[derive(Debug, Drop)]
pub enum Letter {
    /// These bytes were read, at least one.
    Piece(Bytes),
    /// Nothing more will be read.
    InputEnd,
    /// A read failed.
    InputFault,
    /// A tick of the clock, with the moment in milliseconds.
    Tick(u64),
    /// The terminal has this size now.
    Sized(Size),
    /// A part of the answer to a request.
    Answer(Batch),
    /// The sender found no memory.
    NoMemory,
    /// The last letter of its sender.
    Gone,
}

/// A letter with the number of its sender.
#[derive(Debug, Drop)]
pub struct Mail {
    pub sender: u32,
    pub letter: Letter,
}
