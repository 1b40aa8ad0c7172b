use crate::same::{is_same, is_same_at};
use lsys_draw::{axiom_key, child_key, draw, pick};
use std::process::Abort;

// The words were computed by an independent program.
#[test]
fn draws_are_first_words(rt: HostRuntime) {
    for (key, word) in rows_of_draws() {
        is_same_at(&rt, &draw(*key), word, key);
    }
}

fn rows_of_draws() -> &'static [(u64, u64)] {
    &[
        (0x0, 0xe220a8397b1dcdaf),
        (0x1, 0x910a2dec89025cc1),
        (0x2, 0x975835de1c9756ce),
        (0x2a, 0xbdd732262feb6e95),
        (0x3039, 0x22118258a9d111a0),
        (0x100000000, 0xc42c5a1aa3820138),
        (0x123456789abcdef, 0x157a3807a48faa9d),
        (0x8000000000000000, 0x481ec0a212a9f3db),
        (0xfffffffffffffffe, 0xf3203e9039f4a821),
        (0xffffffffffffffff, 0xe4d971771b652c20),
    ]
}

// The keys were computed by the same program: by places with the code 0, by names with the code of the name.
#[test]
fn keys_follow_lineages(rt: HostRuntime) {
    for (seed, code, count, key) in rows_of_keys() {
        is_the_key(&rt, *seed, *code, *count, *key);
    }
    let child = child_key(axiom_key(9, 0, 2), 0, 0);
    is_same(&rt, &child, &0x967dba0b719c2f41);
    is_same(&rt, &child_key(child, 0, 5), &0xa4cedb55731a246d);
    is_same(&rt, &child_key(child, 66, 1), &0x1761db0462a087b9);
}

/// The key of a symbol of the axiom is this.
fn is_the_key(rt: &impl Abort, seed: u64, code: u64, count: u32, key: u64) {
    assert!(rt; count < 4096);
    is_same_at(
        rt,
        &axiom_key(seed, code, count),
        &key,
        &(seed, code, count),
    );
}

fn rows_of_keys() -> &'static [(u64, u64, u32, u64)] {
    &[
        (0, 0, 0, 0x910a2dec89025cc1),
        (7, 0, 3, 0x50f5647d2380309d),
        (0xffffffffffffffff, 0, 0, 0xe220a8397b1dcdaf),
        (0xffffffffffffffff, 0, 4095, 0xc41030440c4e0d03),
        (0, 65, 0, 0x63a0c1e500cec4de),
        (7, 65, 3, 0x39d9ff4166a7d9ad),
        (0xffffffffffffffff, 91, 4095, 0x4019beeabf9697cd),
        (5, 0x6665646362615f46, 0, 0x85c2dddb55ea0b1a),
    ]
}

#[test]
fn picks_weigh(rt: HostRuntime) {
    for (draw, weights, place) in rows_of_picks() {
        is_picked(&rt, *draw, weights, *place);
    }
}

/// By this draw the place is picked of these weights.
fn is_picked(rt: &impl Abort, draw: u64, weights: &[u64; 2], place: Option<usize>) {
    assert!(rt; weights[0] < 8 && weights[1] < 8);
    is_same_at(rt, &pick(draw, weights), &place, &draw);
}

fn rows_of_picks() -> &'static [(u64, [u64; 2], Option<usize>)] {
    &[
        (0, [1, 1], Some(0)),
        (0x7fff_ffff_ffff_ffff, [1, 1], Some(0)),
        (0x8000_0000_0000_0000, [1, 1], Some(1)),
        (0, [0, 5], Some(1)),
        (0xffff_ffff_ffff_ffff, [0, 5], Some(1)),
        (77, [0, 0], None),
    ]
}
