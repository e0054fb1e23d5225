//! What comes to a session.
ghost use Rattle.std.specs.Prelude.{◌≡◌, IfOk};

use cell_grid::Size;
use requests::Batch;
use text_doc::{Bytes, NoMemory};

/// One thing that comes to a session.
#[derive(Debug, Drop)]
pub enum Event {
    /// A prompt begins.
    Start,
    /// Bytes were read from the terminal.
    Piece(Bytes),
    /// The clock says this moment, in milliseconds since 1970.
    Tick(u64),
    /// The terminal has this size now.
    Resize(Size),
    /// A part of the answer to a request came.
    Answer(Batch),
    /// Nothing more will be read.
    End,
}

impl Event {
    /// Returns an equal event. The tools of an answer's request are shared.
    pub fn copy(&self) -> Result<Event, NoMemory>
        ensures equal { IfOk result (λ copy. copy ≡ self.now) }
    {
        match self {
            Event::Start => Ok(Event::Start),
            Event::Piece(bytes) => {
                let bytes = bytes.copy()?;
                Ok(Event::Piece(bytes))
            }
            Event::Tick(moment) => Ok(Event::Tick(*moment)),
            Event::Resize(size) => Ok(Event::Resize(*size)),
            Event::Answer(batch) => {
                let batch = batch.copy()?;
                Ok(Event::Answer(batch))
            }
            Event::End => Ok(Event::End),
        }
    }
}
