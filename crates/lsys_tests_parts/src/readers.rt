//! The relations through their public calls.
use crate::same::is_same_at;
use lsys_level::Tag;
use lsys_reads::Reads;
use std::process::Abort;

/// What has this tag is read by these.
fn has_readers(rt: &impl Abort, reads: &Reads, tag: Tag, readers: &[Tag]) {
    is_same_at(rt, &reads.readers_of(tag), &readers, &tag);
}

/// Adds for each pair that the first one reads the second.
fn add_all(rt: &impl Abort, reads: &mut Reads, pairs: &[(u32, u32)]) {
    for (reader, read) in pairs {
        reads.add(Tag(*reader), Tag(*read)).expect(rt, "memory");
    }
}

/// Two edits are settled and one is taken back, and each time what is read by whom is as it should be.
fn settle_as_they_should(rt: &impl Abort, reads: &mut Reads) {
    add_all(rt, reads, &[(7, 2), (5, 2), (5, 2), (5, 3)]);
    has_readers(rt, reads, Tag(2), &[]);
    reads.settle(&[]);
    has_readers(rt, reads, Tag(2), &[Tag(5), Tag(7)]);

    add_all(rt, reads, &[(5, 9)]);
    reads.retract();
    has_readers(rt, reads, Tag(9), &[]);

    add_all(rt, reads, &[(5, 9), (6, 2)]);
    reads.settle(&[Tag(5), Tag(5)]);
    has_readers(rt, reads, Tag(2), &[Tag(6), Tag(7)]);
    has_readers(rt, reads, Tag(3), &[]);
    has_readers(rt, reads, Tag(9), &[Tag(5)]);
}

#[test]
fn a_settled_edit_replaces_what_its_readers_read(rt: HostRuntime) {
    let mut reads = Reads::new(rt.alloc());
    settle_as_they_should(&rt, &mut reads);
}
