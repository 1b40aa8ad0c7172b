//! The tags of new levels.
ghost use Rattle.std.specs.Prelude.{◌≡◌, ◌+◌, ◌<◌, ◌≤◌, ◌^◌, [], length, false, IfOk, OnOk, OnErr};
ghost use Rattle.lsys_flat.specs.Moves.{AreWithin};
ghost use Rattle.lsys_flat.specs.Supplies.{in_use, tags_given, tags_used, tags_held, MarksTag, MarksAll, KeepsMarks, GivesTags};

use lsys_level::Tag;
use std::alloc::{AllocError, Global};
use std::marker::Model;

/// Which tags are in use, and which are given next: from the least one on, those that aren't.
///
/// So no tag that is given is higher than the tags that are in use and those that were given are many, however many edits
/// there were: tags of symbols that are gone are given again.
#[derive(Drop)]
pub struct TagSupply {
    used: Vec<bool>,
    next: u32,
}

impl Model for TagSupply {
    ghost use Rattle.lsys_flat.specs.Supplies.{Supply};

    ghost Value = { Supply };

    ghost view = { λ a. record { used = a.used.items; next = a.next } };
}

impl TagSupply {
    /// No tag is in use. Takes no memory.
    pub fn new(alloc: Global) -> TagSupply
        ensures { result ≡ record { used = []; next = 0 } }
    {
        TagSupply {
            used: Vec::new(alloc),
            next: 0,
        }
    }

    /// Marks a tag as in use.
    ///
    /// # Errors
    ///
    /// Out of memory. The same tags are in use then.
    pub fn mark(&mut self, tag: Tag) -> Result<(), AllocError>
        ensures marked { OnOk result (MarksTag tag self.old self.new) }
        ensures refused { OnErr result (KeepsMarks self.old self.new) }
    {
        let place = tag.0 as usize;
        while self.used.len() <= place {
            self.used.push(false)?;
        }
        self.used[place] = true;
        Ok(())
    }

    /// Marks all these tags as in use.
    ///
    /// # Errors
    ///
    /// Out of memory. Some of the tags are marked then.
    pub fn mark_all(&mut self, tags: &[Tag]) -> Result<(), AllocError>
        ensures { OnOk result (MarksAll tags.now self.old self.new) }
    {
        for tag in tags {
            self.mark(*tag)?;
        }
        Ok(())
    }

    /// The tags of a new level, whose symbols have these mates among the old ones with these tags: a symbol that has a
    /// mate has its tag, and each other one the next tag that isn't in use.
    ///
    /// # Errors
    ///
    /// Out of memory. The same tags are in use then.
    pub fn name_level(
        &mut self,
        alloc: Global,
        mates: &[Option<u32>],
        old: &[Tag],
    ) -> Result<Vec<Tag>, AllocError>
        requires within { AreWithin (length old.now) mates.now }
        requires room { tags_held self.old + length mates.now < 2 ^ 32 }
        ensures named { IfOk result (λ tags. GivesTags mates.now old.now self.old self.new tags.items) }
        ensures taken { OnOk result (tags_held self.new ≤ tags_held self.old + length mates.now) }
        ensures used { self.new.used ≡ self.old.used }
    {
        let mut tags = Vec::with_capacity(alloc, mates.len())?;
        for mate in mates {
            let tag = match *mate {
                Some(place) => old[place as usize],
                None => self.give(),
            };
            tags.push(tag)?;
        }
        Ok(tags)
    }

    // The next tag that isn't in use.
    fn give(&mut self) -> Tag
        requires room { tags_held self.old + 1 < 2 ^ 32 }
        ensures onward { self.old.next ≤ result }
        ensures free { in_use self.old.used result ≡ false }
        ensures after { self.new.next ≡ result + 1 }
        ensures one { tags_held self.new ≡ tags_held self.old + 1 }
        ensures used { self.new.used ≡ self.old.used }
    {
        let tag = free_from(self.used.as_slice(), self.next);
        self.next = tag + 1;
        Tag(tag)
    }
}

// The least number from `next` on that isn't marked.
fn free_from(used: &[bool], next: u32) -> u32
    requires { tags_given used.now next + tags_used used.now < 2 ^ 32 }
    ensures onward { next ≤ result }
    ensures free { in_use used.now result ≡ false }
    ensures same { tags_given used.now result ≡ tags_given used.now next }
{
    let mut tag = next;
    while (tag as usize) < used.len() && used[tag as usize] {
        tag += 1;
    }
    tag
}
