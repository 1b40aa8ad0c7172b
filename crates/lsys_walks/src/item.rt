//! The items of a right context.
ghost use Rattle.std.specs.Prelude.{◌≡◌, ◌≢◌, ◌+◌, ◌<◌, ◌≤◌, true, false, length, slice_get, Some, option_copied};
ghost use Rattle.lsys_spec.specs.Bodies.{Done};
ghost use Rattle.lsys_walks.specs.Items.{EndsBranch, patterns_from, pattern_due};

use lsys_bodies::{Item, Pattern};

/// Whether anything is wanted at a place: neither all items end there nor the branch around it.
pub(crate) fn is_wanted(items: &[Item], at: usize) -> bool
    ensures within { result ≡ true → at < length items.now }
    ensures wanted { result ≡ true → patterns_from items.now at ≢ Done }
    ensures done { result ≡ false → patterns_from items.now at ≡ Done }
{
    if at >= items.len() {
        return false;
    }
    match &items[at] {
        Item::Pop => false,
        _ => true,
    }
}

/// The pattern of a module, where the item is one.
pub(crate) fn pattern_in(item: &Item) -> Option<&Pattern>
    ensures { option_copied result ≡ pattern_due item.now }
{
    match item {
        Item::Pattern(pattern) => Some(pattern),
        Item::Push | Item::Pop => None,
    }
}

/// The place after the bracket that ends the branch that begins at a place.
pub(crate) fn after(items: &[Item], at: usize) -> usize
    requires { slice_get items.now at ≡ Some Item.Push }
    ensures later { at < result }
    ensures within { result ≤ length items.now }
    ensures branch { EndsBranch items.now at result }
{
    let mut place = at + 1;
    let mut inside = 0usize;
    while place < items.len() {
        match &items[place] {
            Item::Push => inside += 1,
            Item::Pop => {
                if inside == 0 {
                    return place + 1;
                }
                inside -= 1;
            }
            Item::Pattern(_) => {}
        }
        place += 1;
    }
    place
}
