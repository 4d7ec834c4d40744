//! Sinks over the writers of std, as standard output and standard error. They say nothing of
//! what they hold, and count their faults.

ghost use Rattle.std.specs.Prelude.{◌≡◌, None};

use crate::{Sink, SinkError};
use std::io::Write;

/// A sink over a writer of std.
#[derive(Drop)]
pub struct WriterSink<W: Write + Drop> {
    writer: W,
    faults: u64,
}

impl<W: Write + Drop> WriterSink<W> {
    /// Writes to the writer, which should hold nothing back.
    pub fn new(writer: W) -> WriterSink<W>
        ensures { result.faults ≡ 0 }
    {
        WriterSink { writer, faults: 0 }
    }
}

impl<W: Write + Drop> Sink for WriterSink<W> {
    ghost state = { λ s. record { held = None; faults = s.faults } };

    fn write(&mut self, piece: &[u8]) -> Result<usize, SinkError> {
        match self.writer.write(piece) {
            Ok(0) => {
                if piece.is_empty() {
                    return Ok(0);
                }
                self.faults = self.faults.saturating_add(1);
                Ok(0)
            }
            Ok(count) => Ok(count),
            Err(_) => {
                self.faults = self.faults.saturating_add(1);
                Err(SinkError::Failed)
            }
        }
    }
}
