//! Edits, each with its reply.

use crate::scripts::has_replies;
use std::test::Fail;

fn a_signal() -> &'static [(&'static str, &'static str)] {
    &[
        ("axiom F_b[+F_a]F_a[-F_a]F_a[+F_a]F_a", "ok 0/0"),
        ("ignore +-", "ok 0/0"),
        ("production s: F_b < F_a => F_b", "ok 0/0"),
        ("depth 3", "ok 12/12"),
        ("string", "F_b[+F_b]F_b[-F_b]F_b[+F_b]F_b"),
        ("axiom F_a[+F_a]F_a[-F_a]F_a[+F_a]F_a", "ok 15/21"),
        ("string", "F_a[+F_a]F_a[-F_a]F_a[+F_a]F_a"),
        ("axiom F_b[+F_a]F_a[-F_a]F_a[+F_a]F_a", "ok 6/12"),
        ("string", "F_b[+F_b]F_b[-F_b]F_b[+F_b]F_b"),
    ]
}

#[test]
fn a_signal_goes_and_comes_in_any_order(rt: HostRuntime) -> Result<(), Fail> {
    has_replies(&rt, rt.alloc(), a_signal())
}

fn a_cut() -> &'static [(&'static str, &'static str)] {
    &[
        ("axiom ABC", "ok 0/0"),
        ("production a: A => A", "ok 0/0"),
        ("production c: C => D", "ok 0/0"),
        ("depth 2", "ok 3/3"),
        ("string", "ABD"),
        ("production a: A => A%", "ok 2/3"),
        ("string", "A"),
        ("production a: A => A", "ok 2/3"),
        ("string", "ABD"),
    ]
}

#[test]
fn a_cut_comes_and_goes(rt: HostRuntime) -> Result<(), Fail> {
    has_replies(&rt, rt.alloc(), a_cut())
}

fn a_cut_in_a_branch() -> &'static [(&'static str, &'static str)] {
    &[
        ("axiom [AB]CB", "ok 0/0"),
        ("production a: A => A", "ok 0/0"),
        ("production b: B => B", "ok 0/0"),
        ("production c: C => D", "ok 0/0"),
        ("depth 3", "ok 10/10"),
        ("production a: A => A%", "ok 3/8"),
        ("string", "[A]DB"),
        ("production a: A => A", "ok 5/10"),
        ("string", "[AB]DB"),
        ("axiom [A%B]CB", "ok 4/7"),
        ("string", "[A]DB"),
    ]
}

#[test]
fn a_cut_ends_its_branch_alone(rt: HostRuntime) -> Result<(), Fail> {
    has_replies(&rt, rt.alloc(), a_cut_in_a_branch())
}

fn depths() -> &'static [(&'static str, &'static str)] {
    &[
        ("axiom A[B]A", "ok 0/0"),
        ("production a: A => AB", "ok 0/0"),
        ("production b: B => A", "ok 0/0"),
        ("depth 4", "ok 29/29"),
        ("string", "ABAABABA[ABAAB]ABAABABA"),
        ("depth 1", "ok 0/3"),
        ("string", "AB[A]AB"),
        ("depth 4", "ok 26/29"),
        ("string", "ABAABABA[ABAAB]ABAABABA"),
        ("depth 0", "ok 0/0"),
        ("string", "A[B]A"),
        ("depth 2", "ok 8/8"),
        ("string", "ABA[AB]ABA"),
    ]
}

#[test]
fn a_depth_falls_and_rises_again(rt: HostRuntime) -> Result<(), Fail> {
    has_replies(&rt, rt.alloc(), depths())
}

fn own_lists() -> &'static [(&'static str, &'static str)] {
    &[
        ("version 2", "ok 0/0"),
        ("axiom ABCABC", "ok 0/0"),
        ("production a: A > C => X", "ok 0/0"),
        ("production b: B => B", "ok 0/0"),
        ("production w w: A > C => Y", "ok 0/0"),
        ("depth 2", "ok 8/8"),
        ("string", "ABCABC"),
        ("ignoring main: B", "ok 2/6"),
        ("string", "XBCXBC"),
        ("schedule w main", "ok 4/6"),
        ("consider w: AC", "ok 2/4"),
        ("string", "YBCYBC"),
        ("common main", "ok 0/4"),
        ("ignoring w: A", "ok 4/6"),
        ("string", "ABCABC"),
    ]
}

#[test]
fn a_list_of_a_table_changes(rt: HostRuntime) -> Result<(), Fail> {
    has_replies(&rt, rt.alloc(), own_lists())
}

fn named() -> &'static [(&'static str, &'static str)] {
    &[
        ("version 2", "ok 0/0"),
        ("lineage names", "ok 0/0"),
        ("axiom ABBA", "ok 0/0"),
        ("production a: A => BA", "ok 0/0"),
        ("production b: B => B", "ok 0/0"),
        ("depth 3", "ok 18/18"),
        ("axiom ABCBA", "ok 0/18"),
        ("string", "BBBABCBBBBA"),
        ("production a: A => BCA", "ok 6/18"),
        ("string", "BCBCBCABCBBCBCBCA"),
        ("axiom ABBA", "ok 0/18"),
        ("string", "BCBCBCABBBCBCBCA"),
        ("production a: A => A", "ok 6/12"),
        ("lineage places", "ok 12/12"),
        ("axiom ABCBA", "ok 6/12"),
        ("string", "ABCBA"),
    ]
}

#[test]
fn by_names_an_edit_in_the_middle_keeps_the_rest(rt: HostRuntime) -> Result<(), Fail> {
    has_replies(&rt, rt.alloc(), named())
}

fn faults() -> &'static [(&'static str, &'static str)] {
    &[
        ("axiom A(9)A(9)A(9)", "ok 0/0"),
        ("production p: A(x) : x > 0 => A(x-1)", "ok 0/0"),
        ("production q: A(x) : x <= 0 => A(1/x)", "ok 0/0"),
        ("depth 3", "ok 9/9"),
        (
            "axiom A(9)A(1)A(1)",
            "refused fault divide-by-zero level 1 module 2",
        ),
        ("string", "A(6)A(6)A(6)"),
        ("axiom A(9)A(9)A(9)", "ok 0/9"),
        ("string", "A(6)A(6)A(6)"),
        ("depth 9", "ok 18/27"),
        ("depth 10", "refused fault divide-by-zero level 9 module 1"),
        ("string", "A(0)A(0)A(0)"),
        ("depth 3", "ok 0/9"),
        ("axiom A(9)A(8)A(9)", "ok 3/9"),
        ("string", "A(6)A(5)A(6)"),
    ]
}

#[test]
fn after_a_fault_all_is_as_before(rt: HostRuntime) -> Result<(), Fail> {
    has_replies(&rt, rt.alloc(), faults())
}

fn limits() -> &'static [(&'static str, &'static str)] {
    &[
        ("axiom AB", "ok 0/0"),
        ("production a: A => AA", "ok 0/0"),
        ("production b: B => B", "ok 0/0"),
        ("depth 6", "ok 69/69"),
        ("depth 9", "refused limit level 9"),
        ("depth 6", "ok 0/69"),
        ("production a: A => A", "ok 6/12"),
        ("string", "AB"),
        ("depth 9", "ok 6/18"),
    ]
}

#[test]
fn over_the_limit_all_is_as_before(rt: HostRuntime) -> Result<(), Fail> {
    has_replies(&rt, rt.alloc(), limits())
}
