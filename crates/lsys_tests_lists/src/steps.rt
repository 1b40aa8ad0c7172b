//! A derivation step beside an old one: mates, tags, what is moved, and the level after a level.
ghost use Rattle.std.specs.Prelude.{◌≡◌, ◌+◌, ◌<◌, ◌≤◌, ◌^◌, length};
ghost use Rattle.std.specs.List.{All};
ghost use Rattle.lsys_text.specs.Texts.{IsNameBytes};
ghost use Rattle.lsys_flat.specs.Moves.{AreWithin};
ghost use Rattle.lsys_flat.specs.Supplies.{tags_held};

use crate::same::{is_row, is_true};
use lsys_draw::{axiom_key, child_key};
use lsys_flat::{Level, NextLevel, Origin, TagSupply, move_kept, pair};
use lsys_level::Tag;
use lsys_module::{Module, Params, Symbol};
use lsys_reading::Lineage;
use lsys_text::Name;
use std::alloc::Global;
use std::process::Abort;

/// The child at a place.
fn child(parent: u32, place: u32) -> Origin
    ensures { result ≡ record { parent = parent; code = 0; count = place } }
{
    Origin {
        parent,
        code: 0,
        count: place,
    }
}

/// The child with this letter after `count` children with the same.
fn named(parent: u32, letter: u8, count: u32) -> Origin
    ensures { result ≡ record { parent = parent; code = letter; count = count } }
{
    Origin {
        parent,
        code: u64::from(letter),
        count,
    }
}

/// A module without parameters.
fn letter(text: &[u8]) -> Symbol
    requires { IsNameBytes text.now }
{
    Symbol::Module(Module {
        name: Name::from_text(text),
        params: Params::of(&[]),
    })
}

#[test]
fn children_are_paired_by_their_number(rt: HostRuntime) {
    let old = [child(0, 0), child(0, 2), child(1, 0)];
    let new = [
        child(0, 0),
        child(0, 1),
        child(0, 2),
        child(1, 0),
        child(1, 1),
    ];
    let mates = pair(rt.alloc(), &old, &new, &[Some(0), Some(1)]).expect(&rt, "memory");
    let want = [Some(0), None, Some(1), Some(2), None];
    is_row(&rt, mates.as_slice(), &want);
}

#[test]
fn ancestry_counts_and_not_the_place(rt: HostRuntime) {
    let old = [child(0, 0), child(0, 1), child(1, 0)];
    let new = [child(0, 0), child(1, 0), child(1, 1), child(2, 0)];
    let mates = pair(rt.alloc(), &old, &new, &[None, Some(0), Some(1)]).expect(&rt, "memory");
    let want = [None, Some(0), Some(1), Some(2)];
    is_row(&rt, mates.as_slice(), &want);
}

/// `AABC` of one parent after `BACAD`, and `AB` of another after `BA`.
#[test]
fn names_count_and_not_the_order(rt: HostRuntime) {
    let old = [
        named(0, b'B', 0),
        named(0, b'A', 0),
        named(0, b'C', 0),
        named(0, b'A', 1),
        named(0, b'D', 0),
        named(1, b'B', 0),
        named(1, b'A', 0),
    ];
    let new = [
        named(0, b'A', 0),
        named(0, b'A', 1),
        named(0, b'B', 0),
        named(0, b'C', 0),
        named(1, b'A', 0),
        named(1, b'B', 0),
        named(2, b'A', 0),
    ];
    let mates = pair(rt.alloc(), &old, &new, &[Some(0), Some(1), Some(2)]).expect(&rt, "memory");
    let want = [Some(1), Some(3), Some(0), Some(2), Some(6), Some(5), None];
    is_row(&rt, mates.as_slice(), &want);
}

/// Symbols of 4,096 names below one parent, in an order or in the other.
fn axiom(rt: &impl Abort, alloc: Global, is_turned: bool) -> Vec<Origin>
    ensures parents { All (λ o. o.parent < 1) result.items }
    ensures few { length result.items ≡ 4096 }
{
    let mut row = Vec::with_capacity(alloc, 4096).expect(rt, "memory");
    for place in 0..4096u64 {
        let origin = Origin {
            parent: 0,
            code: if is_turned { 4095 - place } else { place },
            count: 0,
        };
        row.push(origin).expect(rt, "memory");
    }
    row
}

#[test]
fn an_axiom_is_paired_with_one_turned_round(rt: HostRuntime) {
    let old = axiom(&rt, rt.alloc(), false);
    let new = axiom(&rt, rt.alloc(), true);
    let mates = pair(rt.alloc(), old.as_slice(), new.as_slice(), &[Some(0)]);
    are_turned_round(&rt, mates.expect(&rt, "memory").as_slice());
}

/// The mates of the symbols of 4,096 names stand in the other order.
fn are_turned_round(rt: &impl Abort, mates: &[Option<u32>]) {
    for place in 0..4096u32 {
        is_true(
            rt,
            mates.get(place as usize).copied() == Some(Some(4095 - place)),
        );
    }
}

#[test]
fn free_tags_are_given_from_the_least_on(rt: HostRuntime) {
    let mut tags = TagSupply::new(rt.alloc());
    tags.mark(Tag(4)).expect(&rt, "memory");
    tags.mark(Tag(0)).expect(&rt, "memory");
    tags.mark(Tag(2)).expect(&rt, "memory");
    let old = [Tag(4), Tag(0), Tag(2)];
    let mates = [None, Some(2), None];
    are_named(
        &rt,
        rt.alloc(),
        &mut tags,
        &mates,
        &old,
        &[Tag(1), Tag(2), Tag(3)],
    );
    are_named(
        &rt,
        rt.alloc(),
        &mut tags,
        &[None, None],
        &[],
        &[Tag(5), Tag(6)],
    );
}

/// The symbols of a level that have these mates are given these tags.
fn are_named(
    rt: &impl Abort,
    alloc: Global,
    tags: &mut TagSupply,
    mates: &[Option<u32>],
    old: &[Tag],
    want: &[Tag],
)
    requires within { AreWithin (length old.now) mates.now }
    requires room { tags_held tags.old + length mates.now < 2 ^ 32 }
    ensures { tags_held tags.new ≤ tags_held tags.old + length mates.now }
{
    let given = tags.name_level(alloc, mates, old).expect(rt, "memory");
    is_row(rt, given.as_slice(), want);
}

#[test]
fn what_is_kept_goes_to_its_new_place(rt: HostRuntime) {
    let mut old = [Some(7u64), Some(8)];
    let mut new = [Some(1u64), None];
    move_kept(&mut old, &mut new, &[None, Some(0)]);
    is_row(&rt, &new, &[Some(1), Some(7)]);
    is_row(&rt, &old, &[None, Some(8)]);
}

/// What replaces a symbol with this key is added.
fn add(rt: &impl Abort, level: &mut NextLevel, key: u64, successor: &[Symbol])
    requires parents { level.old.grown.parents < 1000 }
    requires few { length successor.now ≤ 4096 }
    ensures { level.new.grown.parents ≡ level.old.grown.parents + 1 }
{
    level.add_children(key, successor).expect(rt, "memory");
}

#[test]
fn a_cut_goes_on_after_the_children_of_one_symbol(rt: HostRuntime) {
    let mut level = NextLevel::new(rt.alloc(), Lineage::Places, 4);
    add(&rt, &mut level, 70, &[Symbol::Push]);
    let with_cut = [letter(b"A"), Symbol::Cut, letter(b"B"), Symbol::Push];
    add(&rt, &mut level, 71, &with_cut);
    add(&rt, &mut level, 72, &[letter(b"C"), Symbol::Pop]);
    add(&rt, &mut level, 73, &[Symbol::Pop, letter(b"D")]);
    is_made_after_a_cut(&rt, &level.finish().expect(&rt, "it has room"));
}

/// A level is `[A]D`, of the first, the second and the fourth symbol.
fn is_made_after_a_cut(rt: &impl Abort, made: &Level) {
    let symbols = [Symbol::Push, letter(b"A"), Symbol::Pop, letter(b"D")];
    is_true(rt, made.symbols.symbols() == symbols.as_slice());
    let origins = [child(0, 0), child(1, 0), child(3, 0), child(3, 1)];
    is_row(rt, made.origins.as_slice(), &origins);
    let keys = [
        child_key(70, 0, 0),
        child_key(71, 0, 0),
        child_key(73, 0, 0),
        child_key(73, 0, 1),
    ];
    is_row(rt, made.keys.as_slice(), &keys);
}

/// `A[%A` and `]ABA` by names: what was cut off is counted, and brackets have codes too.
#[test]
fn children_by_names_are_counted_by_letter(rt: HostRuntime) {
    let mut level = NextLevel::new(rt.alloc(), Lineage::Names, 6);
    let with_cut = [letter(b"A"), Symbol::Push, Symbol::Cut, letter(b"A")];
    add(&rt, &mut level, 70, &with_cut);
    let after = [Symbol::Pop, letter(b"A"), letter(b"B"), letter(b"A")];
    add(&rt, &mut level, 71, &after);
    is_counted_by_letter(&rt, &level.finish().expect(&rt, "it has room"));
}

/// A level is `A[]ABA`, of two symbols.
fn is_counted_by_letter(rt: &impl Abort, made: &Level) {
    let origins = [
        named(0, b'A', 0),
        named(0, b'[', 0),
        named(1, b']', 0),
        named(1, b'A', 0),
        named(1, b'B', 0),
        named(1, b'A', 1),
    ];
    is_row(rt, made.origins.as_slice(), &origins);
    let keys = [
        child_key(70, 65, 0),
        child_key(70, 91, 0),
        child_key(71, 93, 0),
        child_key(71, 65, 0),
        child_key(71, 66, 0),
        child_key(71, 65, 1),
    ];
    is_row(rt, made.keys.as_slice(), &keys);
}

#[test]
fn the_axiom_is_what_replaces_the_seed(rt: HostRuntime) {
    let axiom = [letter(b"A"), letter(b"B")];
    let mut level = NextLevel::new(rt.alloc(), Lineage::Places, 2);
    add(&rt, &mut level, 5, &axiom);
    let made = level.finish().expect(&rt, "it has room");
    is_row(
        &rt,
        made.keys.as_slice(),
        &[axiom_key(5, 0, 0), axiom_key(5, 0, 1)],
    );
    has_no_room(&rt, rt.alloc(), &axiom);
}

/// A level that may have one symbol has no room for these two.
fn has_no_room(rt: &impl Abort, alloc: Global, axiom: &[Symbol; 2]) {
    let mut over = NextLevel::new(alloc, Lineage::Places, 1);
    add(rt, &mut over, 5, axiom);
    is_true(rt, over.finish().is_none());
}
