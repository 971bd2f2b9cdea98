// A sink that has its bytes in memory.
ghost use Rattle.std.specs.Prelude.{◌≡◌, length, ◌<◌, ◌≤◌, min, ◌-◌, ◌+◌, IfOk, []};
ghost use Rattle.std.specs.Io.{WritesAtMost};
ghost use Rattle.std.specs.Io.KnownBytes.{WriteAppends};
ghost use Rattle.wt_io.specs.Causes.{HasCause, Progresses, count_after, next_count};

use crate::{Failed, Sink};
use std::alloc::{AllocError, Global};
use std::marker::Model;

/// Bytes in memory, as many as there is room for, that are taken in pieces, while the calls of a list fail.
///
/// Its calls are numbered from 0. The number stays at the last value of a `u64`, and so does the count of faults. It
/// has the memory for all of its room from the start, so a write takes none.
#[derive(Drop)]
pub struct MemSink {
    bytes: Vec<u8>,
    room: usize,
    piece: usize,
    fail: Vec<u64>,
    calls: u64,
    faults: u64,
}

impl Model for MemSink {
    ghost use Rattle.std.specs.Prelude.{length, ◌≤◌, ◌<◌, vec_capacity};
    ghost use Rattle.wt_io.specs.Devices.{Writing};

    ghost Value = { Writing };

    ghost view = { λ s. record { held = s.bytes.items; room = s.room; piece = s.piece; fail = s.fail.items; calls = s.calls; faults = s.faults } };

    ghost invariant = { λ s. (0 < s.piece) × (length s.bytes.items ≤ s.room) × (s.room ≤ vec_capacity s.bytes) };
}

impl MemSink {
    /// A sink with room for n bytes, which takes at most `piece` for each call. The calls whose numbers are in
    /// `fail` fail. Its one refusal is that memory runs out.
    pub fn new(
        alloc: Global,
        room: usize,
        piece: usize,
        fail: Vec<u64>,
    ) -> Result<MemSink, AllocError>
        requires { 0 < piece }
        ensures { IfOk result (λ s. s ≡ record { held = []; room = room; piece = piece; fail = fail.items; calls = 0; faults = 0 }) }
    {
        Ok(MemSink {
            bytes: Vec::with_capacity(alloc, room)?,
            room,
            piece,
            fail,
            calls: 0,
            faults: 0,
        })
    }

    /// The bytes that were written so far.
    pub fn held(&self) -> &[u8]
        ensures { result.now ≡ self.now.held }
    {
        &self.bytes
    }
}

impl Sink for MemSink {
    ghost use Rattle.std.specs.Prelude.{Some, ◌↔◌, IsErr, Contains, ◌⊎◌};

    ghost held = { λ s. Some s.held };

    ghost faults = { λ s. s.faults };

    /// Appends as many bytes as a piece has, the given bytes have and there is room for. The call fails exactly where
    /// bytes are given and its number is in the list, or the room is full.
    fn write(&mut self, buf: &[u8]) -> Result<usize, Failed>
        ensures bound { WritesAtMost result buf.now }
        ensures moves { Progresses result buf.now }
        ensures bytes { WriteAppends (Some self.old.held) (Some self.new.held) result buf.now }
        ensures cause { HasCause self.old.faults self.new.faults result }
        ensures fails { IsErr result ↔ ((0 < length buf.now) × (Contains self.old.fail self.old.calls ⊎ (length self.old.held ≡ self.old.room))) }
        ensures count { IfOk result (λ n. n ≡ min (length buf.now) (min self.old.piece (self.old.room - length self.old.held))) }
        ensures calls { self.new.calls ≡ next_count self.old.calls }
        ensures counted { self.new.faults ≡ count_after self.old.faults result }
        ensures same { (self.new.fail ≡ self.old.fail) × (self.new.piece ≡ self.old.piece) × (self.new.room ≡ self.old.room) }
    {
        let call = self.calls;
        self.calls = call.saturating_add(1);
        if buf.is_empty() {
            return Ok(0);
        }
        if self.bytes.len() == self.room || self.fail.contains(&call) {
            self.faults = self.faults.saturating_add(1);
            return Err(Failed);
        }
        let count = buf.len().min(self.piece).min(self.room - self.bytes.len());
        self.bytes.extend_from_slice(&buf[..count]).unwrap();
        Ok(count)
    }
}
