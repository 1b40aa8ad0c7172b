// A buffer before a sink.
ghost use Rattle.std.specs.Prelude.{◌≡◌, ℕ, List, [], ◌≤◌, IfOk, OnOk, OnErr};
ghost use Rattle.std.specs.Fmt.{signed_decimal};
ghost use Rattle.std.specs.Io.KnownBytes.{Appends};
ghost use Rattle.lsys_io.specs.Causes.{Rose};
ghost use Rattle.lsys_io.specs.Writes.{WritesFront};
ghost use Rattle.lsys_io.specs.Putting.{Puts};

use super::{Failed, Sink, send_all};
use itoa::Buffer;
use std::alloc::{AllocError, Global};
use std::marker::Model;

/// So many bytes are held at most.
const ROOM: usize = 4096;

/// Holds bytes on their way to a sink. Contracts see the bytes held. After a call that failed nothing is held.
#[derive(Drop)]
pub struct Buffered {
    held: Vec<u8>,
}

impl Model for Buffered {
    ghost use Rattle.std.specs.Prelude.{ℕ, List, ◌≤◌, vec_len, vec_capacity};

    ghost Value = { List ℕ };

    ghost view = { λ b. b.held.items };

    ghost invariant = { λ b. (vec_len b.held ≤ 4096) × (4096 ≤ vec_capacity b.held) };
}

impl Buffered {
    /// A buffer of 4,096 bytes, which holds nothing.
    pub fn new(alloc: Global) -> Result<Buffered, AllocError>
        ensures { IfOk result (λ buffered. buffered ≡ []) }
    {
        Ok(Buffered {
            held: Vec::with_capacity(alloc, ROOM)?,
        })
    }

    /// Puts the bytes after those held, and writes where there is no room.
    #[tactic(auto, using(crate::proofs::Known::front_after))]
    pub fn put<K: Sink>(&mut self, sink: &mut K, bytes: &[u8]) -> Result<(), Failed>
        ensures { Puts K.Sink sink self bytes.now result }
    {
        if bytes.len() > ROOM - self.held.len() {
            self.flush(sink)?;
            if bytes.len() > ROOM {
                return send_all(sink, bytes);
            }
        }
        match self.held.extend_from_slice(bytes) {
            Ok(()) => Ok(()),
            Err(_) => unreachable!(),
        }
    }

    /// Puts the number in decimal, with `-` before a negative one.
    pub fn put_number<K: Sink>(&mut self, sink: &mut K, n: i128) -> Result<(), Failed>
        ensures { Puts K.Sink sink self (signed_decimal n) result }
    {
        let mut digits = Buffer::new();
        self.put(sink, digits.format(n).as_bytes())
    }

    /// Writes the bytes held.
    pub fn flush<K: Sink>(&mut self, sink: &mut K) -> Result<(), Failed>
        ensures written { OnOk result (Appends (K.written sink.old) (K.written sink.new) self.old) }
        ensures failed_writes_front { OnErr result (WritesFront K.written sink self.old) }
        ensures holds_nothing { self.new ≡ [] }

        ensures never_falls { K.faults sink.old ≤ K.faults sink.new }
        ensures failed_only_where_rose { OnErr result (Rose (K.faults sink.old) (K.faults sink.new)) }
        ensures ok_leaves_count { OnOk result (K.faults sink.new ≡ K.faults sink.old) }
    {
        let sent = send_all(sink, &self.held);
        self.held.clear();
        sent
    }
}
