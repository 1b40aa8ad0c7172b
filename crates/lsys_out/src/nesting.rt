//! How deep an image is nested.
ghost use Rattle.std.specs.Prelude.{◌≡◌, ◌<◌};
ghost use Rattle.lsys_syntax.specs.Limits.{most_image_symbols};
ghost use Rattle.lsys_hom.specs.Looks.{looked_at};
ghost use Rattle.lsys_turtle.specs.Ways.{saved_after};
ghost use Rattle.lsys_out.specs.Nesting.{HasLast, IsNesting};

use lsys_hom::{Glance, Image, ImageRefusal};
use lsys_level::LevelView;
use lsys_rules::System;

/// The most branches that are open at once in the image of the last level: the room that a turtle needs to draw it. It takes no
/// memory.
///
/// # Errors
///
/// The image's refusal.
pub fn image_nesting<W: LevelView>(view: &W, system: &System) -> Result<usize, ImageRefusal>
    requires { HasLast system.now (W.levels view.now) }
    ensures { IsNesting system.now (W.levels view.now) result }
{
    let mut image = Image::new(view, system, system.depth());
    let mut open = 0usize;
    let mut most = 0usize;
    while let Some(seen) = image.look()? {
        open = open_after(open, seen);
        most = most.max(open);
    }
    Ok(most)
}

/// How many branches are open after a symbol, where so many are before it.
fn open_after(before: usize, seen: Glance) -> usize
    requires { before < most_image_symbols }
    ensures { result ≡ saved_after (looked_at seen) before }
{
    match seen {
        Glance::Push => before + 1,
        Glance::Pop => before.saturating_sub(1),
        _ => before,
    }
}
