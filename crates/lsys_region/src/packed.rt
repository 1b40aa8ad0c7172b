//! What a run keeps in eight bytes, the number of a part or none; and what a small entry keeps in four, the state of its part.
ghost use Rattle.std.specs.Prelude.{◌≡◌, ◌<◌, ◌≤◌, Some, None, IfSome};
ghost use Rattle.lsys_region.specs.Layout.{small_places, all_places};
ghost use Rattle.lsys_region.specs.Links.{number_by_bits};
ghost use Rattle.lsys_region.specs.States.{HasNumbersWithin};

use std::marker::Model;
use std::mem::size_of;

/// The bits of a link to no part.
const NONE: usize = 0xFFFF_FFFF_FFFF_FFFF;

/// How many places a vector has at most while a packed state tells of each of its parts.
pub(crate) const SMALL_PLACES: usize = 0x7FFF_FFFF;

/// The bits of a link to no part, in a packed state.
const SMALL_NONE: u32 = 0x7FFF_FFFF;

/// What is added to the bits of its link in the bits of a free part.
const FREE: u32 = 0x8000_0000;

/// The number of a part, or none.
#[derive(Clone, Copy, Debug, Drop)]
pub(crate) struct Link(usize);

impl Model for Link {
    ghost use Rattle.std.specs.Prelude.{ℕ, Option};

    ghost Value = { Option ℕ };

    ghost use Rattle.lsys_region.specs.Links.{linked_number, IsLink, link_to, link_kept};

    ghost view = { linked_number };

    ghost invariant = { IsLink };

    ghost inverse = { link_to };

    ghost inverse_ok = { link_kept };
}

impl Link {
    /// To no part.
    pub(crate) fn none() -> Link
        ensures { result ≡ None }
    {
        Link(NONE)
    }

    /// To the part with this number.
    pub(crate) fn to(number: usize) -> Link
        requires { number < all_places }
        ensures { result ≡ Some number }
    {
        Link(number)
    }

    /// The number of the part.
    pub(crate) fn number(self) -> Option<usize>
        ensures same { result ≡ self }
        ensures below { IfSome result (λ number. number < all_places) }
    {
        if self.0 < NONE { Some(self.0) } else { None }
    }

    /// Its bits.
    fn bits(self) -> usize
        ensures { number_by_bits all_places result ≡ self }
    {
        self.0
    }

    /// The link with these bits.
    fn by_bits(bits: usize) -> Link
        ensures { result ≡ number_by_bits all_places bits }
    {
        Link(bits)
    }
}

/// Whether a part holds a list.
#[derive(Clone, Copy, Drop)]
pub(crate) enum State {
    /// It holds a list of this length.
    Taken(usize),
    /// It holds none; and the free part of its class that comes next.
    Free(Link),
}

/// The state of a part, while its numbers are small.
#[derive(Clone, Copy, Drop)]
pub(crate) struct PackedState(u32);

impl Model for PackedState {
    ghost use Rattle.lsys_region.specs.declared.packed.State.{State};

    ghost Value = { State };

    ghost use Rattle.lsys_region.specs.PackedStates.{state_in, IsPackedState, packed_as, state_kept};

    ghost view = { state_in };

    ghost invariant = { IsPackedState };

    ghost inverse = { packed_as };

    ghost inverse_ok = { state_kept };
}

impl PackedState {
    /// This state.
    pub(crate) fn of(state: State) -> PackedState
        requires { HasNumbersWithin small_places state }
        ensures { result ≡ state }
    {
        match state {
            State::Taken(len) => PackedState(len as u32),
            State::Free(next) => PackedState(FREE + small_bits(next)),
        }
    }

    /// The state.
    pub(crate) fn get(self) -> State
        ensures { result ≡ self }
    {
        if self.0 < FREE {
            State::Taken(self.0 as usize)
        } else {
            State::Free(link_by(self.0 - FREE))
        }
    }
}

/// A part of the vector: where it begins, and its state. It ends where the next part begins.
#[derive(Clone, Copy, Drop)]
pub(crate) struct PackedPart {
    pub(crate) start: usize,
    pub(crate) state: State,
}

/// The same, while the numbers are small.
#[derive(Clone, Copy, Drop)]
pub(crate) struct SmallEntry {
    start: u32,
    state: PackedState,
}

const _: () = prove!(size_of::<SmallEntry>() == 8);

impl Model for SmallEntry {
    ghost use Rattle.lsys_region.specs.declared.packed.PackedPart.{PackedPart};

    ghost Value = { PackedPart };

    ghost view = { λ e. record { start = e.start; state = e.state } };

    ghost inverse = { λ e. record { start = e.start; state = e.state } };
}

impl SmallEntry {
    /// The entry with this state of a part that begins here.
    pub(crate) fn of(start: usize, state: State) -> SmallEntry
        requires start { start ≤ small_places }
        requires state { HasNumbersWithin small_places state }
        ensures { result ≡ record { start = start; state = state } }
    {
        SmallEntry {
            start: start as u32,
            state: PackedState::of(state),
        }
    }

    /// The entry.
    pub(crate) fn get(self) -> PackedPart
        ensures { result ≡ self }
    {
        PackedPart {
            start: self.start as usize,
            state: self.state.get(),
        }
    }

    /// The entry with this state.
    pub(crate) fn with(self, state: State) -> SmallEntry
        requires { HasNumbersWithin small_places state }
        ensures { result ≡ record self { state = state } }
    {
        SmallEntry {
            start: self.start,
            state: PackedState::of(state),
        }
    }
}

/// The same, whatever the numbers.
#[derive(Clone, Copy, Drop)]
pub(crate) struct LargeEntry {
    start: usize,
    is_free: bool,
    bits: usize,
}

impl Model for LargeEntry {
    ghost use Rattle.lsys_region.specs.declared.packed.PackedPart.{PackedPart};

    ghost Value = { PackedPart };

    ghost use Rattle.lsys_region.specs.LargeEntries.{large_entry, IsLargeEntry, as_large, large_kept};

    ghost view = { large_entry };

    ghost invariant = { IsLargeEntry };

    ghost inverse = { as_large };

    ghost inverse_ok = { large_kept };
}

impl LargeEntry {
    /// The entry with this state of a part that begins here.
    pub(crate) fn of(start: usize, state: State) -> LargeEntry
        ensures { result ≡ record { start = start; state = state } }
    {
        match state {
            State::Taken(len) => LargeEntry {
                start,
                is_free: false,
                bits: len,
            },
            State::Free(next) => LargeEntry {
                start,
                is_free: true,
                bits: next.bits(),
            },
        }
    }

    /// The entry.
    pub(crate) fn get(self) -> PackedPart
        ensures { result ≡ self }
    {
        PackedPart {
            start: self.start,
            state: if self.is_free {
                State::Free(Link::by_bits(self.bits))
            } else {
                State::Taken(self.bits)
            },
        }
    }

    /// The entry with this state.
    pub(crate) fn with(self, state: State) -> LargeEntry
        ensures { result ≡ record self { state = state } }
    {
        LargeEntry::of(self.start, state)
    }
}

/// The bits of a link in a packed state.
fn small_bits(link: Link) -> u32
    requires { IfSome link (λ number. number < small_places) }
    ensures bits { number_by_bits small_places result ≡ link }
    ensures small { result ≤ small_places }
{
    match link.number() {
        Some(number) => number as u32,
        None => SMALL_NONE,
    }
}

/// The link with these bits in a packed state.
fn link_by(bits: u32) -> Link
    requires { bits ≤ small_places }
    ensures { result ≡ number_by_bits small_places bits }
{
    if bits < SMALL_NONE {
        Link::to(bits as usize)
    } else {
        Link::none()
    }
}
