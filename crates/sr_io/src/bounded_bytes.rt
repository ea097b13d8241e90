ghost use Rattle.std.specs.Prelude.{◌≡◌, ◌≤◌, [], ◌++◌, length, IfOk};
ghost use Rattle.sr_io.specs.BoundedBytes.{room_left};

use std::alloc::{AllocError, Global};
use std::marker::Model;

/// Bytes of which there is room for so many.
#[derive(Drop)]
pub struct BoundedBytes {
    bytes: Vec<u8>,
    room: usize,
}

impl Model for BoundedBytes {
    ghost use Rattle.std.specs.Prelude.{◌≤◌, vec_len, vec_capacity};
    ghost use Rattle.sr_io.specs.BoundedBytes.{BoundedBytesView};

    ghost Value = { BoundedBytesView };

    ghost view = { λ b. record { bytes = b.bytes.items; room = b.room } };

    ghost invariant = { λ b. (vec_len b.bytes ≤ b.room) × (b.room ≤ vec_capacity b.bytes) };
}

impl BoundedBytes {
    /// No bytes, and room for so many.
    pub fn new(alloc: Global, room: usize) -> Result<BoundedBytes, AllocError>
        ensures { IfOk result (λ b. b ≡ record { bytes = []; room = room }) }
    {
        let bytes = Vec::with_capacity(alloc, room)?;
        Ok(BoundedBytes { bytes, room })
    }

    /// The bytes that were put.
    pub fn bytes(&self) -> &[u8]
        ensures { result.now ≡ self.now.bytes }
    {
        &self.bytes
    }

    /// How many more bytes there is room for.
    pub fn left(&self) -> usize
        ensures { result ≡ room_left self.now }
    {
        self.room - self.bytes.len()
    }

    /// Puts bytes for which there is room behind those that are there.
    pub fn put(&mut self, bytes: &[u8])
        requires { length bytes.now ≤ room_left self.old }
        ensures bytes { self.new.bytes ≡ self.old.bytes ++ bytes.now }
        ensures room { self.new.room ≡ self.old.room }
    {
        match self.bytes.extend_from_slice(bytes) {
            Ok(()) => {}
            Err(_) => unreachable!(),
        }
    }
}
