ghost use Rattle.std.specs.Prelude.{◌≡◌, ◌⊎◌, ℕ, ◌+◌, ◌-◌, ◌<◌, ◌≤◌, ◌↔◌, List, Option, Some, [], ◌++◌, length, take, min, IsErr, IfOk, OnOk, OnErr, Contains};
ghost use Rattle.std.specs.Io.KnownBytes.{WriteAppends};
ghost use Rattle.tri_io.specs.Faults.{Rose, raised};

use crate::{Failed, Sink};
use std::alloc::{AllocError, Global};
use std::marker::Model;

/// A sink in memory with a limited room, which fails at the calls it was told to.
#[derive(Debug, Drop)]
pub struct MemSink {
    bytes: Vec<u8>,
    room: usize,
    most: usize,
    fails: Vec<u64>,
    calls: u64,
    faults: u64,
}

impl Model for MemSink {
    ghost use Rattle.std.specs.Prelude.{◌<◌, ◌≤◌, length};
    ghost use Rattle.std.specs.Vec.{vec_capacity};
    ghost use Rattle.tri_io.specs.States.{MemSinkState};

    ghost Value = { MemSinkState };

    ghost view = { λ s. record {
      taken = s.bytes.items;
      room = s.room;
      most = s.most;
      fails = s.fails.items;
      calls = s.calls;
      faults = s.faults;
    } };

    // The room lies within the memory that was taken at the start.
    ghost invariant = { λ s.
        (0 < s.most) × (length s.bytes.items ≤ s.room) × (s.room ≤ vec_capacity s.bytes) };
}

impl MemSink {
    /// An empty sink that takes `room` bytes in all, at most `most` a call, and fails at the
    /// calls `fails`, counted from 1.
    pub fn new(alloc: Global, room: usize, most: usize, fails: Vec<u64>) -> Result<Self, AllocError>
        requires { 1 ≤ most }
        ensures taken { IfOk result (λ s. s.taken ≡ []) }
        ensures room { IfOk result (λ s. s.room ≡ room) }
        ensures most { IfOk result (λ s. s.most ≡ most) }
        ensures fails { IfOk result (λ s. s.fails ≡ fails.items) }
        ensures calls { IfOk result (λ s. s.calls ≡ 0) }
        ensures faults { IfOk result (λ s. s.faults ≡ 0) }
    {
        Ok(MemSink {
            bytes: Vec::with_capacity(alloc, room)?,
            room,
            most,
            fails,
            calls: 0,
            faults: 0,
        })
    }

    /// What was taken.
    pub fn bytes(&self) -> &[u8]
        ensures { result.now ≡ self.now.taken }
    {
        &self.bytes
    }
}

impl Sink for MemSink {
    ghost taken = { λ s. Some s.taken };

    ghost faults = { λ s. s.faults };

    fn write(&mut self, piece: &[u8]) -> Result<usize, Failed>
        ensures bound { IfOk result (λ n. n ≤ length piece.now) }
        ensures some { IfOk result (λ n. 0 < length piece.now → 0 < n) }
        ensures bytes { WriteAppends (Some self.old.taken) (Some self.new.taken) result piece.now }
        ensures never_falls { self.old.faults ≤ self.new.faults }
        ensures cause { OnErr result (Rose self.old.faults self.new.faults) }
        ensures kept { OnOk result (self.new.faults ≡ self.old.faults) }

        // The call fails exactly where its number is listed, or the room for a piece is used up.
        ensures fails { IsErr result ↔ (Contains self.old.fails (raised self.old.calls)
            ⊎ ((0 < length piece.now) × (self.old.room ≤ length self.old.taken))) }

        // It takes as much as the piece, one call and the room left allow.
        ensures count { IfOk result (λ n. n ≡ min (length piece.now)
            (min self.old.most (self.old.room - length self.old.taken))) }

        // Nothing else changes.
        ensures ok { IfOk result (λ n. self.new ≡ record self.old {
          taken = self.old.taken ++ take n piece.now;
          calls = raised self.old.calls;
        }) }
        ensures err { OnErr result (self.new ≡ record self.old {
          calls = raised self.old.calls;
          faults = raised self.old.faults;
        }) }
    {
        self.calls = self.calls.saturating_add(1);
        let left = self.room - self.bytes.len();
        if self.fails.contains(&self.calls) || (left == 0 && !piece.is_empty()) {
            self.faults = self.faults.saturating_add(1);
            return Err(Failed);
        }
        let count = piece.len().min(self.most).min(left);
        match self.bytes.extend_from_slice(&piece[..count]) {
            Ok(()) => Ok(count),
            Err(_) => unreachable!(),
        }
    }
}
