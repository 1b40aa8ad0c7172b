// The piece that was read last, and what of it is left.
ghost use Rattle.std.specs.Prelude.{◌≡◌, ℕ, List, [], ◌<◌, ◌≤◌, length, drop, true, false, IfOk, OnOk, OnErr};
ghost use Rattle.lsys_io.specs.Causes.{Rose};
ghost use Rattle.lsys_io.specs.Gathering.{GivesNothing, HoldsMore, IsDrained};

use super::{Failed, Source};
use std::alloc::{AllocError, Global};
use std::marker::Model;

/// At most so many bytes are read at once.
const PIECE: usize = 4096;

/// Bytes that were read ahead. Contracts see those that are left.
#[derive(Drop)]
pub(crate) struct Pieces {
    bytes: Vec<u8>,
    from: usize,
    to: usize,
}

impl Model for Pieces {
    ghost use Rattle.std.specs.Prelude.{ℕ, List, ◌<◌, ◌≤◌, slice_range, vec_len};

    ghost Value = { List ℕ };

    ghost view = { λ p. slice_range p.bytes.items p.from p.to };

    ghost invariant = { λ p. (p.from ≤ p.to) × (p.to ≤ vec_len p.bytes) × (0 < vec_len p.bytes) };
}

impl Pieces {
    pub fn new(alloc: Global) -> Result<Pieces, AllocError>
        ensures { IfOk result (λ pieces. pieces ≡ []) }
    {
        Ok(Pieces {
            bytes: vec![in alloc; 0; PIECE]?,
            from: 0,
            to: 0,
        })
    }

    pub fn held(&self) -> &[u8]
        ensures { result.now ≡ self.now }
    {
        &self.bytes[self.from..self.to]
    }

    /// Takes n bytes off the front.
    pub fn skip(&mut self, n: usize)
        requires { n ≤ length self.old }
        ensures { self.new ≡ drop n self.old }
    {
        self.from += n;
    }

    /// Reads the next piece where nothing is held. False is the end of the input.
    pub fn fill<S: Source>(&mut self, source: &mut S) -> Result<bool, Failed>
        ensures read { OnOk result (HoldsMore S.left source self) }
        ensures no_read_while_held { 0 < length self.old → source.new ≡ source.old }
        ensures some { IfOk result (λ some. some ≡ true → 0 < length self.new) }
        ensures none_at_end { IfOk result (λ some. some ≡ false → IsDrained S.left source self) }
        ensures failed_takes_nothing { OnErr result (GivesNothing S.left source self) }

        ensures never_falls { S.faults source.old ≤ S.faults source.new }
        ensures failed_only_where_rose { OnErr result (Rose (S.faults source.old) (S.faults source.new)) }
        ensures ok_leaves_count { OnOk result (S.faults source.new ≡ S.faults source.old) }
    {
        if self.from < self.to {
            return Ok(true);
        }
        self.from = 0;
        self.to = 0;
        let count = source.read(&mut self.bytes)?;
        self.to = count;
        Ok(count > 0)
    }
}
