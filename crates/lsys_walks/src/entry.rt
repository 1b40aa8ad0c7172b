//! Entries of a trace.
ghost use Rattle.std.specs.Prelude.{◌≡◌, ◌≤◌, [], length};
ghost use Rattle.lsys_walks.specs.Noted as noted;
ghost use Rattle.lsys_walks.specs.Parts.{entry_kind, mark_in, entry_rule, depth_of, tag_of, mate_of, entry_name, arity_of};
ghost use Rattle.lsys_walks.specs.Views.{noted_of, mark_of, compared_of, ignored_of};

use crate::mark::Mark;
use lsys_level::Tag;
use lsys_text::Name;
use std::mem::size_of;

/// What a walk did at an entry.
#[derive(Clone, Copy, PartialEq, Eq)]
pub enum EntryKind {
    /// A module that isn't ignored was met.
    Compared,
    /// An ignored module was passed.
    Ignored,
    /// The left walk left a branch, by its `[`.
    Out,
    /// A branch was passed or entered, by its two brackets.
    Branch,
}

/// What was read at one step of a walk, in 16 bytes. Of what its kind doesn't carry its calls tell 0, or the name `+`.
#[derive(Clone, Copy, PartialEq, Eq)]
pub enum Entry {
    /// A module that isn't ignored was met. Its parameters, so many, stand in the trace's list of them.
    Compared {
        mark: Mark,
        arity: u8,
        tag: Tag,
        name: Name,
    },
    /// An ignored module was passed. Its parameters stand in the list too.
    Ignored {
        mark: Mark,
        arity: u8,
        tag: Tag,
        name: Name,
    },
    /// The left walk left a branch, by its `[`.
    Out {
        mark: Mark,
        tag: Tag,
    },
    /// A branch was passed or entered, by its `[` and its `]`.
    Branch {
        mark: Mark,
        tag: Tag,
        mate: Tag,
    },
}

const _: () = prove!(size_of::<Entry>() == 16);

impl Entry {
    /// What the walk did.
    pub fn kind(&self) -> EntryKind
        ensures { result ≡ entry_kind self.now }
    {
        match *self {
            Entry::Compared { .. } => EntryKind::Compared,
            Entry::Ignored { .. } => EntryKind::Ignored,
            Entry::Out { .. } => EntryKind::Out,
            Entry::Branch { .. } => EntryKind::Branch,
        }
    }

    /// The place in its group, from 0 on, of the rule for which it was read.
    pub fn rule(&self) -> u8
        ensures { result ≡ entry_rule self.now }
    {
        self.mark().rule
    }

    /// The number of branches that the right walk has entered and not left.
    pub fn depth(&self) -> u8
        ensures { result ≡ depth_of self.now }
    {
        self.mark().depth
    }

    /// Of the module, or of the branch's `[`.
    pub fn tag(&self) -> Tag
        ensures { result ≡ tag_of self.now }
    {
        match *self {
            Entry::Compared { tag, .. }
            | Entry::Ignored { tag, .. }
            | Entry::Out { tag, .. }
            | Entry::Branch { tag, .. } => tag,
        }
    }

    /// Of a branch's `]`.
    pub fn mate(&self) -> Tag
        ensures { result ≡ mate_of self.now }
    {
        match *self {
            Entry::Branch { mate, .. } => mate,
            Entry::Compared { .. } | Entry::Ignored { .. } | Entry::Out { .. } => Tag(0),
        }
    }

    /// Of the module.
    pub fn name(&self) -> Name
        ensures { result ≡ entry_name self.now }
    {
        match *self {
            Entry::Compared { name, .. } | Entry::Ignored { name, .. } => name,
            Entry::Out { .. } | Entry::Branch { .. } => Name::from_mark(b'+'),
        }
    }

    /// How many parameters the module has; they stand in the trace's list of them.
    pub fn arity(&self) -> u8
        ensures { result ≡ arity_of self.now }
    {
        match *self {
            Entry::Compared { arity, .. } | Entry::Ignored { arity, .. } => arity,
            Entry::Out { .. } | Entry::Branch { .. } => 0,
        }
    }

    /// The walk left a branch by this bracket.
    pub(crate) fn out(mark: Mark, tag: Tag) -> Entry
        ensures arity { arity_of result ≡ 0 }
        ensures noted { noted_of result [] ≡ noted.Out (mark_of mark) tag }
    {
        Entry::Out { mark, tag }
    }

    /// A branch with these brackets was met.
    pub(crate) fn branch(mark: Mark, tag: Tag, mate: Tag) -> Entry
        ensures arity { arity_of result ≡ 0 }
        ensures noted { noted_of result [] ≡ noted.Branched (mark_of mark) tag mate }
    {
        Entry::Branch { mark, tag, mate }
    }

    /// A module was compared.
    pub(crate) fn compared(mark: Mark, tag: Tag, name: Name, params: &[i64]) -> Entry
        requires { length params.now ≤ 8 }
        ensures arity { arity_of result ≡ length params.now }
        ensures noted { noted_of result params.now ≡ compared_of mark tag name params.now }
    {
        Entry::Compared {
            mark,
            arity: params.len() as u8,
            tag,
            name,
        }
    }

    /// An ignored module was passed.
    pub(crate) fn ignored(mark: Mark, tag: Tag, name: Name, params: &[i64]) -> Entry
        requires { length params.now ≤ 8 }
        ensures arity { arity_of result ≡ length params.now }
        ensures noted { noted_of result params.now ≡ ignored_of mark tag name params.now }
    {
        Entry::Ignored {
            mark,
            arity: params.len() as u8,
            tag,
            name,
        }
    }

    /// For which rule it was read, and how deep.
    fn mark(&self) -> Mark
        ensures { result ≡ mark_in self.now }
    {
        match *self {
            Entry::Compared { mark, .. }
            | Entry::Ignored { mark, .. }
            | Entry::Out { mark, .. }
            | Entry::Branch { mark, .. } => mark,
        }
    }
}
