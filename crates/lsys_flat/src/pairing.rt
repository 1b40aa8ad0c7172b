//! The old symbols of the lineages of new ones.
ghost use Rattle.std.specs.Prelude.{◌≡◌, ◌<◌, ◌^◌, length, IfOk};
ghost use Rattle.std.specs.List.{All};
ghost use Rattle.lsys_flat.specs.Origins.{ArePaired};
ghost use Rattle.lsys_flat.specs.Moves.{AreWithin};

use crate::origin::Origin;
use crate::places::Places;
use std::alloc::{AllocError, Global};

/// For each new symbol the place of the old symbol of the same lineage, where there is one.
///
/// `above` tells the same of the level above. Level 0 has the one symbol above it from which all lineages come. Symbols
/// that stand in the order of the old ones take one step each; where one doesn't, the old ones are sorted once.
///
/// # Errors
///
/// Out of memory.
pub fn pair(
    alloc: Global,
    old: &[Origin],
    new: &[Origin],
    above: &[Option<u32>],
) -> Result<Vec<Option<u32>>, AllocError>
    requires parents { All (λ o. o.parent < length above.now) new.now }
    requires few { length old.now < 2 ^ 32 }
    ensures each { IfOk result (λ mates. length mates.items ≡ length new.now) }
    ensures within { IfOk result (λ mates. AreWithin (length old.now) mates.items) }
    ensures paired { IfOk result (λ mates. ArePaired old.now new.now above.now mates.items) }
{
    let mut places = Places::new(alloc);
    let mut mates = Vec::with_capacity(alloc, new.len())?;
    for origin in new {
        let mate = match above[origin.parent as usize] {
            None => None,
            Some(parent) => places.find(alloc, old, Origin { parent, ..*origin })?,
        };
        mates.push(mate)?;
    }
    Ok(mates)
}
