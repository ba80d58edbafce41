//! A record's bytes, ready for one write.
ghost use Rattle.std.specs.Prelude.{◌≡◌, IfOk};
ghost use Rattle.slo_journal.specs.File.{frame_of, IsRecord};

use crate::numbers::four;
use std::alloc::{AllocError, Global};
use std::marker::Model;

/// A record's length and bytes, and the closed gate behind it. It is seen as the record.
#[derive(Drop)]
pub struct Frame {
    bytes: Vec<u8>,
}

impl Model for Frame {
    ghost use Rattle.std.specs.Prelude.{List, ℕ};
    ghost use Rattle.slo_journal.specs.File.{record_in, IsFrame};

    ghost Value = { List ℕ };

    ghost view = { λ f. record_in f.bytes.items };

    ghost invariant = { λ f. IsFrame f.bytes.items };
}

impl Frame {
    /// The bytes that are written behind a record's gate.
    pub fn bytes(&self) -> &[u8]
        ensures bytes { result.now ≡ frame_of self.now }
        ensures is_record { IsRecord self.now }
    {
        &self.bytes
    }
}

/// The frame of a record of 1 to 1,100,000 bytes.
pub fn frame_of(alloc: Global, bytes: &[u8]) -> Result<Frame, AllocError>
    requires { IsRecord bytes.now }
    ensures { IfOk result (λ frame. frame ≡ bytes.now) }
{
    let mut frame = Vec::new(alloc);
    frame.extend_from_slice(&four(bytes.len() as u32))?;
    frame.extend_from_slice(bytes)?;
    frame.push(0)?;
    Ok(Frame { bytes: frame })
}
