//! Draws: keys of symbols, the draw of a key, and the weighted pick of a place.
//!
//! A symbol's key comes from its lineage and the system's seed alone, so that an edit elsewhere never changes a draw.
#![tactic(auto)]

ghost use Rattle.std.specs.Prelude.{◌≡◌, ◌+◌, ◌*◌, ◌^◌, ◌<◌, sum};
ghost use Rattle.lsys_spec.specs.Draws.{number_base, word, word_past, axiom_key_of, child_key_of, draw_of, IsPick, pick_of};

use rand_core::{Rng, SeedableRng};
use rand_xoshiro::SplitMix64;

/// The first word of SplitMix64 whose state is `state`.
fn first_word(state: u64) -> u64
    ensures { result ≡ word state }
{
    let mut generator = SplitMix64::from_seed(state.to_le_bytes());
    generator.next_u64()
}

/// The word `n` words after that of a state.
fn word_after(state: u64, n: u64) -> u64
    ensures { result ≡ word_past state n }
{
    first_word(state.wrapping_add(1).wrapping_add(n))
}

/// The key of the axiom's symbol with this code and count, in a system with this seed. A place has the code 0.
pub fn axiom_key(seed: u64, code: u64, count: u32) -> u64
    requires { count < number_base }
    ensures { result ≡ axiom_key_of seed (number_base * code + count) }
{
    child_key(seed, code, count)
}

/// The key of the child with this code and count of a symbol with this key. A place has the code 0.
pub fn child_key(key: u64, code: u64, count: u32) -> u64
    requires { count < number_base }
    ensures { result ≡ child_key_of key (number_base * code + count) }
{
    let from = if code == 0 {
        key
    } else {
        word_after(key, code)
    };
    word_after(from, u64::from(count))
}

/// The draw of a module with this key.
pub fn draw(key: u64) -> u64
    ensures { result ≡ draw_of key }
{
    first_word(key)
}

/// The place that a draw picks among rules with these weights, each with a chance in proportion to its weight: the
/// least place up to which the weights sum to more than `draw * W / 2^64`, where `W` is their sum. None where `W` is 0.
///
/// The weights sum to less than 2^63.
pub fn pick(draw: u64, weights: &[u64]) -> Option<usize>
    requires { sum weights.now < 2 ^ 63 }
    ensures picks { IsPick draw weights.now result }
    ensures value { result ≡ pick_of draw weights.now }
{
    let whole = total(weights);
    if whole == 0 {
        return None;
    }
    let aim = ((u128::from(draw) * u128::from(whole)) >> 64) as u64;
    let mut reached = 0u64;
    for (place, weight) in weights.iter().enumerate() {
        reached += *weight;
        if reached > aim {
            return Some(place);
        }
    }
    None
}

/// The sum of the weights.
fn total(weights: &[u64]) -> u64
    requires { sum weights.now < 2 ^ 63 }
    ensures { result ≡ sum weights.now }
{
    weights.iter().sum()
}
