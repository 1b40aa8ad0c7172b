//! What was kept of old symbols.
ghost use Rattle.std.specs.Prelude.{◌≡◌, ◌<◌, length, set, get_or, None};
ghost use Rattle.lsys_flat.specs.Moves.{moved, AreTakenOnce, AreWithin, AreSwapped};

use std::mem::swap;

/// Takes what was kept at old places over to the new places that tell them, in exchange for what is new there. Takes no
/// memory.
pub fn move_kept<A>(old: &mut [Option<A>], new: &mut [Option<A>], places: &[Option<u32>])
    requires apart { AreTakenOnce places.now }
    requires within { AreWithin (length old.old) places.now }
    requires each { length new.old ≡ length places.now }
    ensures moved { new.new ≡ moved old.old new.old places.now }
    ensures left { AreSwapped old.old new.old places.now old.new }
{
    for place in 0..places.len() {
        if let Some(from) = places[place] {
            hand_over(old, new, from as usize, place);
        }
    }
}

// What is kept at `from` comes to `place`, and what was there takes its place.
fn hand_over<A>(old: &mut [Option<A>], new: &mut [Option<A>], from: usize, place: usize)
    requires from { from < length old.old }
    requires place { place < length new.old }
    ensures taken { old.new ≡ set old.old from (get_or new.old place None) }
    ensures put { new.new ≡ set new.old place (get_or old.old from None) }
{
    swap(&mut old[from], &mut new[place]);
}
