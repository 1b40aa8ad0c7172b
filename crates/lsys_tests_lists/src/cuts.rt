//! Which places of a string a cut keeps.
use crate::same::is_row;
use lsys_io::{Buffered, MemorySink};
use lsys_module::{SymbolList, build_string, print_string, scan_string};
use lsys_rewrite::cut;
use lsys_text::tokens;
use std::alloc::Global;
use std::process::Abort;

/// The string of an axiom's line.
fn string_of(rt: &impl Abort, alloc: Global, line: &str) -> SymbolList {
    assert!(rt; line.len() <= 65536);
    let found = tokens(alloc, line.as_bytes()).expect(rt, "tokens");
    let read = found.as_slice();
    assert!(rt; !read.is_empty() && scan_string(read, 1).is_ok());
    build_string(alloc, read, 1).expect(rt, "memory")
}

/// The text of a string is this one.
fn is_printed(rt: &impl Abort, alloc: Global, symbols: &SymbolList, want: &str) {
    let mut sink = MemorySink::new(alloc, 65536, 7, Vec::new(alloc)).expect(rt, "memory");
    let mut out = Buffered::new(alloc).expect(rt, "memory");
    print_string(&mut out, &mut sink, symbols).expect(rt, "room");
    out.flush(&mut sink).expect(rt, "room");
    is_row(rt, sink.bytes(), want.as_bytes());
}

/// `x` for each place that is kept, `.` for each other.
fn shown(rt: &impl Abort, alloc: Global, kept: &[bool]) -> Vec<u8> {
    let mut text = Vec::new(alloc);
    for is_kept in kept {
        let mark = if *is_kept { b'x' } else { b'.' };
        text.push(mark).expect(rt, "memory");
    }
    text
}

/// A cut makes this of a line's string, and keeps these places.
fn a_cut_leaves(rt: &impl Abort, alloc: Global, line: &str, want: &str, places: &str) {
    let mut symbols = string_of(rt, alloc, line);
    let mut kept = vec![in alloc; false; symbols.len()].expect(rt, "memory");
    cut(&mut symbols, kept.as_mut_slice());
    is_printed(rt, alloc, &symbols, want);
    let text = shown(rt, alloc, kept.as_slice());
    is_row(rt, text.as_slice(), places.as_bytes());
}

fn cut_rows() -> &'static [(&'static str, &'static str, &'static str)] {
    &[
        ("axiom A[B%C[D]]E", "A[B]E", "xxx.....xx"),
        ("axiom %B", "", ".."),
        ("axiom [A%B]C", "[A]C", "xx..xx"),
        ("axiom [AB]C", "[AB]C", "xxxxx"),
        ("axiom A%", "A", "x."),
        ("axiom", "", ""),
        ("axiom A[B[%C]D]E", "A[B[]D]E", "xxxx..xxxx"),
        ("axiom A%[B]%C", "A", "x......"),
        ("axiom [%[A]%[B]]%[C]", "[]", "x........x...."),
        ("axiom A[%]B[%C]D", "A[]B[]D", "xx.xxx..xx"),
    ]
}

#[test]
fn a_cut_takes_the_rest_of_its_branch(rt: HostRuntime) {
    for (line, want, places) in cut_rows() {
        a_cut_leaves(&rt, rt.alloc(), *line, *want, *places);
    }
}
