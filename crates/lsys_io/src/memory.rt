// A source and a sink over memory, which fail at the calls that they are told.
ghost use Rattle.std.specs.Prelude.{◌≡◌, ◌+◌, [], ◌++◌, ◌<◌, ◌≤◌, ◌↔◌, length, drop, take, IfOk, OnOk, OnErr, IsErr, Contains, IsTrue};
ghost use Rattle.lsys_io.specs.Causes.{counted};
ghost use Rattle.lsys_io.specs.Memory.{HasSameLimits, IsListedOrFull, amount_given, amount_taken, uncalled_input, uncalled_output};

use super::{Failed, Sink, Source};
use std::alloc::{AllocError, Global};
use std::marker::Model;

/// Holds bytes, gives at most `piece` a call, and fails exactly at the listed calls, counted from 1. It tells what is left.
#[derive(Drop)]
pub struct MemorySource {
    bytes: Vec<u8>,
    at: usize,
    piece: usize,
    failing: Vec<u64>,
    calls: u64,
    faults: u64,
}

impl Model for MemorySource {
    ghost use Rattle.std.specs.Prelude.{drop, vec_len, ◌<◌, ◌≤◌};
    ghost use Rattle.lsys_io.specs.Memory.{MemoryInput};

    ghost Value = { MemoryInput };

    ghost view = { λ s. record { left = drop s.at s.bytes.items; piece = s.piece; failing = s.failing.items; calls = s.calls; faults = s.faults } };

    ghost invariant = { λ s. (s.at ≤ vec_len s.bytes) × (0 < s.piece) };
}

impl MemorySource {
    /// The source of these bytes; `piece` is at least 1.
    pub fn new(bytes: Vec<u8>, piece: usize, failing: Vec<u64>) -> MemorySource
        requires { 0 < piece }
        ensures { result ≡ uncalled_input bytes.items piece failing.items }
    {
        MemorySource {
            bytes,
            at: 0,
            piece,
            failing,
            calls: 0,
            faults: 0,
        }
    }
}

impl Source for MemorySource {
    ghost use Rattle.std.specs.Prelude.{Some};

    ghost left = { λ s. Some s.left };

    ghost faults = { λ s. s.faults };

    fn read(&mut self, into: &mut [u8]) -> Result<usize, Failed>
        requires { 0 < length into.old }
        ensures fails_exactly_at_listed { IsErr result ↔ Contains self.old.failing (self.old.calls + 1) }
        ensures amount { IfOk result (λ n. n ≡ amount_given self.old into.new) }
        ensures gives { IfOk result (λ n. self.old.left ≡ take n into.new ++ self.new.left) }
        ensures none_at_end { IfOk result (λ n. n ≡ 0 → self.new.left ≡ []) }
        ensures failed_takes_nothing { OnErr result (self.new.left ≡ self.old.left) }

        ensures call_counted { self.new.calls ≡ counted self.old.calls }
        ensures never_falls { self.old.faults ≤ self.new.faults }
        ensures fault_counted { OnErr result (self.new.faults ≡ counted self.old.faults) }
        ensures ok_leaves_count { OnOk result (self.new.faults ≡ self.old.faults) }
        ensures stays { (self.new.piece ≡ self.old.piece) × (self.new.failing ≡ self.old.failing) }
    {
        if fails_now(&mut self.calls, &self.failing) {
            self.faults = self.faults.saturating_add(1);
            return Err(Failed);
        }
        let count = self.piece.min(into.len()).min(self.bytes.len() - self.at);
        into[..count].copy_from_slice(&self.bytes[self.at..self.at + count]);
        self.at += count;
        Ok(count)
    }
}

/// Counts a call, and says whether it is one of the listed.
fn fails_now(calls: &mut u64, failing: &[u64]) -> bool
    ensures listed { IsTrue result ↔ Contains failing.now (calls.old + 1) }
    ensures call_counted { calls.new ≡ counted calls.old }
{
    match calls.checked_add(1) {
        Some(call) => {
            *calls = call;
            failing.contains(&call)
        }
        None => false,
    }
}

/// Has room for `room` bytes, takes at most `piece` a call and no more than is free, and fails exactly at the listed
/// calls, counted from 1, and where no byte is free. It tells what was written.
#[derive(Drop)]
pub struct MemorySink {
    bytes: Vec<u8>,
    room: usize,
    piece: usize,
    failing: Vec<u64>,
    calls: u64,
    faults: u64,
}

impl Model for MemorySink {
    ghost use Rattle.std.specs.Prelude.{vec_len, vec_capacity, ◌<◌, ◌≤◌};
    ghost use Rattle.lsys_io.specs.Memory.{MemoryOutput};

    ghost Value = { MemoryOutput };

    ghost view = { λ s. record { written = s.bytes.items; room = s.room; piece = s.piece; failing = s.failing.items; calls = s.calls; faults = s.faults } };

    ghost invariant = { λ s. (vec_len s.bytes ≤ s.room) × (s.room ≤ vec_capacity s.bytes) × (0 < s.piece) };
}

impl MemorySink {
    /// A sink that has taken nothing, with its whole room; `piece` is at least 1.
    pub fn new(
        alloc: Global,
        room: usize,
        piece: usize,
        failing: Vec<u64>,
    ) -> Result<MemorySink, AllocError>
        requires { 0 < piece }
        ensures { IfOk result (λ sink. sink ≡ uncalled_output room piece failing.items) }
    {
        Ok(MemorySink {
            bytes: Vec::with_capacity(alloc, room)?,
            room,
            piece,
            failing,
            calls: 0,
            faults: 0,
        })
    }

    /// What was written.
    pub fn bytes(&self) -> &[u8]
        ensures { result.now ≡ self.now.written }
    {
        self.bytes.as_slice()
    }
}

impl Sink for MemorySink {
    ghost use Rattle.std.specs.Prelude.{Some};

    ghost written = { λ s. Some s.written };

    ghost faults = { λ s. s.faults };

    fn write(&mut self, piece: &[u8]) -> Result<usize, Failed>
        requires { 0 < length piece.now }
        ensures fails_exactly_at_listed_or_full { IsErr result ↔ IsListedOrFull self.old }
        ensures amount { IfOk result (λ n. n ≡ amount_taken self.old piece.now) }
        ensures some { IfOk result (λ n. 0 < n) }
        ensures appends { IfOk result (λ n. self.new.written ≡ self.old.written ++ take n piece.now) }
        ensures failed_writes_nothing { OnErr result (self.new.written ≡ self.old.written) }

        ensures call_counted { self.new.calls ≡ counted self.old.calls }
        ensures never_falls { self.old.faults ≤ self.new.faults }
        ensures fault_counted { OnErr result (self.new.faults ≡ counted self.old.faults) }
        ensures ok_leaves_count { OnOk result (self.new.faults ≡ self.old.faults) }
        ensures stays { HasSameLimits self.old self.new }
    {
        let listed = fails_now(&mut self.calls, &self.failing);
        let count = self
            .piece
            .min(piece.len())
            .min(self.room - self.bytes.len());
        if listed || count == 0 {
            self.faults = self.faults.saturating_add(1);
            return Err(Failed);
        }
        match self.bytes.extend_from_slice(&piece[..count]) {
            Ok(()) => Ok(count),
            Err(_) => unreachable!(),
        }
    }
}
