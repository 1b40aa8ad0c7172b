//! Thirty edits that are refused in one session, and what it holds after each of them.

use crate::holding::{HeldRow, TellsHeld, are_held, is_held};
use lsys_match::{Derivation, Steps};
use lsys_session::Session;
use std::alloc::{AllocError, Global};
use std::process::Abort;
use std::sync::ledger::Ledger;
use std::test::Fail;

/// The edits before, with their replies.
fn edits_before() -> &'static [HeldRow] {
    &[
        ("axiom A(9)A(9)A(9)A(9)A(9)", "ok 0/0\n", 6, 0),
        ("production p: A(x) : x > 0 => A(x-1)", "ok 0/0\n", 6, 0),
        ("production q: A(x) : x <= 0 => A(1/x)", "ok 0/0\n", 6, 0),
        ("depth 6", "ok 30/30\n", 36, 30),
    ]
}

/// Axioms of five modules, of which one has another value, with the level and the module at which each is refused.
fn refused_edits() -> &'static [(&'static str, u32, u32)] {
    &[
        ("axiom A(0)A(9)A(9)A(9)A(9)", 0, 1),
        ("axiom A(9)A(0)A(9)A(9)A(9)", 0, 2),
        ("axiom A(9)A(9)A(0)A(9)A(9)", 0, 3),
        ("axiom A(9)A(9)A(9)A(0)A(9)", 0, 4),
        ("axiom A(9)A(9)A(9)A(9)A(0)", 0, 5),
        ("axiom A(1)A(9)A(9)A(9)A(9)", 1, 1),
        ("axiom A(9)A(1)A(9)A(9)A(9)", 1, 2),
        ("axiom A(9)A(9)A(1)A(9)A(9)", 1, 3),
        ("axiom A(9)A(9)A(9)A(1)A(9)", 1, 4),
        ("axiom A(9)A(9)A(9)A(9)A(1)", 1, 5),
        ("axiom A(2)A(9)A(9)A(9)A(9)", 2, 1),
        ("axiom A(9)A(2)A(9)A(9)A(9)", 2, 2),
        ("axiom A(9)A(9)A(2)A(9)A(9)", 2, 3),
        ("axiom A(9)A(9)A(9)A(2)A(9)", 2, 4),
        ("axiom A(9)A(9)A(9)A(9)A(2)", 2, 5),
        ("axiom A(3)A(9)A(9)A(9)A(9)", 3, 1),
        ("axiom A(9)A(3)A(9)A(9)A(9)", 3, 2),
        ("axiom A(9)A(9)A(3)A(9)A(9)", 3, 3),
        ("axiom A(9)A(9)A(9)A(3)A(9)", 3, 4),
        ("axiom A(9)A(9)A(9)A(9)A(3)", 3, 5),
        ("axiom A(4)A(9)A(9)A(9)A(9)", 4, 1),
        ("axiom A(9)A(4)A(9)A(9)A(9)", 4, 2),
        ("axiom A(9)A(9)A(4)A(9)A(9)", 4, 3),
        ("axiom A(9)A(9)A(9)A(4)A(9)", 4, 4),
        ("axiom A(9)A(9)A(9)A(9)A(4)", 4, 5),
        ("axiom A(5)A(9)A(9)A(9)A(9)", 5, 1),
        ("axiom A(9)A(5)A(9)A(9)A(9)", 5, 2),
        ("axiom A(9)A(9)A(5)A(9)A(9)", 5, 3),
        ("axiom A(9)A(9)A(9)A(5)A(9)", 5, 4),
        ("axiom A(9)A(9)A(9)A(9)A(5)", 5, 5),
    ]
}

/// The string is the one before the refusal, and its axiom asks nothing anew.
fn lines_after() -> &'static [HeldRow] {
    &[
        ("string", "A(3)A(3)A(3)A(3)A(3)\n", 36, 30),
        ("axiom A(9)A(9)A(9)A(9)A(9)", "ok 0/30\n", 36, 30),
    ]
}

/// The reply to an edit that is refused at this module of this level.
fn refusal_at(alloc: Global, level: u32, module: u32) -> Result<String, AllocError> {
    format!(in alloc; "refused fault divide-by-zero level {level} module {module}\n")
}

/// An axiom is refused at this module of this level.
fn is_refused<L: Ledger, V: Ledger, D: Derivation<L> + Drop + TellsHeld>(
    rt: &impl Abort,
    alloc: Global,
    session: &mut Session<L, D>,
    edit: (&str, u32, u32),
    asked: &mut Steps<L>,
    visited: &mut Steps<V>,
) -> Result<(), Fail> {
    let (line, level, module) = edit;
    let reply = refusal_at(alloc, level, module)?;
    is_held(rt, alloc, session, (line, &reply, 36, 30), asked, visited)
}

/// Each module of each level is refused, and all is as before.
pub(crate) fn are_refused<L: Ledger, V: Ledger, D: Derivation<L> + Drop + TellsHeld>(
    rt: &impl Abort,
    alloc: Global,
    session: &mut Session<L, D>,
    asked: &mut Steps<L>,
    visited: &mut Steps<V>,
) -> Result<(), Fail> {
    are_held(rt, alloc, session, edits_before(), asked, visited)?;
    for edit in refused_edits() {
        is_refused(rt, alloc, session, *edit, asked, visited)?;
        are_held(rt, alloc, session, lines_after(), asked, visited)?;
    }
    Ok(())
}
