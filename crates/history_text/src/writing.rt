//! What is shown is written behind the bytes of a line, without a text of its own.

ghost use Rattle.std.specs.Prelude.{◌≡◌, ◌++◌, OnOk, IfSome};

use crate::message_text::push_text;
use std::alloc::{AllocError, Global};
use std::fmt::Write;
use std::{fmt, mem};

/// Bytes that texts are written behind.
#[derive(Drop)]
pub(crate) struct Sink {
    bytes: Vec<u8>,
}

impl Write for Sink {
    ghost write_str_gives = { λ before text after. after.bytes.items ≡ before.bytes.items ++ text };

    fn write_str(&mut self, s: &str) -> fmt::Result {
        match push_text(&mut self.bytes, s) {
            Ok(()) => Ok(()),
            Err(_) => Err(fmt::Error),
        }
    }
}

/// These bytes with what is shown behind them, and whether there was memory for it.
fn written<A: fmt::Display + Copy>(before: Vec<u8>, shown: A) -> (Vec<u8>, fmt::Result)
    ensures { OnOk result.1 (IfSome (A.output shown) (λ a. result.0.items ≡ before.items ++ a)) }
{
    let mut sink = Sink { bytes: before };
    let wrote = sink.write(&shown);
    let Sink { bytes } = sink;
    (bytes, wrote)
}

/// Adds what is shown.
pub(crate) fn push_written<A: fmt::Display + Copy>(
    alloc: Global,
    out: &mut Vec<u8>,
    shown: A,
) -> Result<(), AllocError>
    ensures { OnOk result (IfSome (A.output shown) (λ a. out.new.items ≡ out.old.items ++ a)) }
{
    let before = mem::replace(out, Vec::new(alloc));
    let (bytes, wrote) = written(before, shown);
    *out = bytes;
    match wrote {
        Ok(()) => Ok(()),
        Err(_) => Err(AllocError),
    }
}
