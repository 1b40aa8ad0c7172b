// Ends that never fail.
ghost use Rattle.std.specs.Prelude.{◌≡◌, ℕ, ◌+◌, ◌-◌, ◌^◌, ◌<◌, ◌≤◌, List, [], ◌++◌, length, take, min, IfOk, IsOk};

use super::{Failed, Sink, Source};
use std::marker::Model;

/// Holds bytes, gives as many as there is room for, and never fails. Contracts see the bytes left, and it tells them.
#[derive(Drop)]
pub struct NeverSource {
    bytes: Vec<u8>,
    at: usize,
}

impl Model for NeverSource {
    ghost use Rattle.std.specs.Prelude.{ℕ, List, ◌≤◌, drop, vec_len};

    ghost Value = { List ℕ };

    ghost view = { λ s. drop s.at s.bytes.items };

    ghost invariant = { λ s. s.at ≤ vec_len s.bytes };
}

impl NeverSource {
    /// The source of these bytes.
    pub fn new(bytes: Vec<u8>) -> NeverSource
        ensures { result ≡ bytes.items }
    {
        NeverSource { bytes, at: 0 }
    }
}

impl Source for NeverSource {
    ghost use Rattle.std.specs.Prelude.{Some};

    ghost left = { Some };

    ghost faults = { λ _. 0 };

    fn read(&mut self, into: &mut [u8]) -> Result<usize, Failed>
        requires { 0 < length into.old }
        ensures never_fails { IsOk result }
        ensures amount { IfOk result (λ n. n ≡ min (length into.new) (length self.old)) }
        ensures none_at_end { IfOk result (λ n. n ≡ 0 → self.new ≡ []) }
        ensures gives { IfOk result (λ n. self.old ≡ take n into.new ++ self.new) }
    {
        let count = into.len().min(self.bytes.len() - self.at);
        into[..count].copy_from_slice(&self.bytes[self.at..self.at + count]);
        self.at += count;
        Ok(count)
    }
}

/// Counts bytes, keeps none, and never fails. Contracts see the count. It doesn't tell what was written.
#[derive(Drop)]
pub struct NeverSink {
    count: u64,
}

impl Model for NeverSink {
    ghost use Rattle.std.specs.Prelude.{ℕ};

    ghost Value = { ℕ };

    ghost view = { λ s. s.count };
}

impl NeverSink {
    /// A sink that has taken nothing.
    pub fn new() -> NeverSink
        ensures { result ≡ 0 }
    {
        NeverSink { count: 0 }
    }

    /// How many bytes were written, or the last value of a u64 where there were more.
    pub fn count(&self) -> u64
        ensures { result ≡ self.now }
    {
        self.count
    }
}

impl Sink for NeverSink {
    ghost use Rattle.std.specs.Prelude.{None};

    ghost written = { λ _. None };

    ghost faults = { λ _. 0 };

    fn write(&mut self, piece: &[u8]) -> Result<usize, Failed>
        requires { 0 < length piece.now }
        ensures takes_all { result ≡ Ok (length piece.now) }
        ensures counts { self.new ≡ min (self.old + length piece.now) (2 ^ 64 - 1) }
    {
        self.count = self.count.saturating_add(piece.len() as u64);
        Ok(piece.len())
    }
}
