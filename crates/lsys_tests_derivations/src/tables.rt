//! What is held after each line of a script, in a session of its own.
ghost use Rattle.std.specs.Prelude.{◌≡◌, ◌<◌};

use crate::cases::are_refused;
use crate::holding::{HeldRow, TellsHeld, are_held, holds};
use lsys_match::{Derivation, Steps};
use lsys_pass::ForestDerivation;
use lsys_session::Session;
use std::alloc::Global;
use std::marker::Brand;
use std::process::Abort;
use std::sync::ledger::{Blank, Ledger};
use std::test::Fail;

/// Algae and its continuation: lines, their replies, and the numbers of nodes and of answers after them.
fn algae() -> &'static [HeldRow] {
    &[
        ("axiom A", "ok 0/0\n", 2, 0),
        ("production a: A => AB", "ok 0/0\n", 2, 0),
        ("production b: B => A", "ok 0/0\n", 2, 0),
        ("depth 5", "ok 19/19\n", 33, 19),
        ("string", "ABAABABAABAAB\n", 33, 19),
        ("production b: B => B", "ok 10/15\n", 22, 15),
        ("string", "ABBBBB\n", 22, 15),
        ("production b: B => B", "ok 0/15\n", 22, 15),
    ]
}

/// A fault, which leaves nothing after.
fn a_fault() -> &'static [HeldRow] {
    &[
        ("axiom A(10)", "ok 0/0\n", 2, 0),
        ("production p: A(x) => A(x*x)", "ok 0/0\n", 2, 0),
        ("depth 5", "refused fault overflow level 4 module 1\n", 2, 0),
        ("string", "A(10)\n", 2, 0),
    ]
}

/// What is tried in a session.
#[derive(Drop)]
enum Tried {
    /// Lines.
    Rows(&'static [HeldRow]),
    /// Edits that are refused at each module of each level.
    Refused,
}

/// The opening state holds the root alone, and then what is tried comes out so.
fn comes_out<L: Ledger, V: Ledger, D: Derivation<L> + Drop + TellsHeld>(
    rt: &impl Abort,
    alloc: Global,
    session: &mut Session<L, D>,
    tried: &Tried,
    asked: &mut Steps<L>,
    visited: &mut Steps<V>,
) -> Result<(), Fail> {
    holds(rt, session, 1, 0);
    match tried {
        Tried::Rows(rows) => are_held(rt, alloc, session, *rows, asked, visited),
        Tried::Refused => are_refused(rt, alloc, session, asked, visited),
    }
}

/// The same in a session of its own.
fn comes_out_over<L: Ledger, V: Ledger, D: Derivation<L> + Drop + TellsHeld>(
    rt: &impl Abort,
    alloc: Global,
    tried: &Tried,
    asked: Blank,
    visited: Blank,
) -> Result<(), Fail>
    requires name { asked.name ≡ L.name }
    requires parts { asked.parts ≡ L.parts }
    requires some { 0 < asked.parts }
    requires other_name { visited.name ≡ V.name }
    requires other_parts { visited.parts ≡ V.parts }
    requires other_some { 0 < visited.parts }
{
    let mut asked = Steps::<L>::open(asked);
    let mut visited = Steps::<V>::open(visited);
    let mut session = Session::<L, D>::start(alloc, 200_000)?;
    comes_out(rt, alloc, &mut session, tried, &mut asked, &mut visited)
}

/// The same over a forest.
fn comes_out_over_a_forest<L: Ledger, V: Ledger>(
    rt: &impl Abort,
    alloc: Global,
    tried: &Tried,
    asked: Blank,
    visited: Blank,
) -> Result<(), Fail>
    requires name { asked.name ≡ L.name }
    requires parts { asked.parts ≡ L.parts }
    requires some { 0 < asked.parts }
    requires other_name { visited.name ≡ V.name }
    requires other_parts { visited.parts ≡ V.parts }
    requires other_some { 0 < visited.parts }
{
    comes_out_over::<L, V, ForestDerivation<L>>(rt, alloc, tried, asked, visited)
}

/// The same, with counters of its own.
fn is_tried(rt: &impl Abort, alloc: Global, tried: &Tried) -> Result<(), Fail> {
    comes_out_over_a_forest::<Brand, Brand>(rt, alloc, tried, Blank::new(1), Blank::new(1))
}

#[test]
fn an_edit_leaves_what_its_levels_and_questions_need(rt: HostRuntime) -> Result<(), Fail> {
    is_tried(&rt, rt.alloc(), &Tried::Rows(algae()))
}

#[test]
fn a_fault_leaves_nothing_after(rt: HostRuntime) -> Result<(), Fail> {
    is_tried(&rt, rt.alloc(), &Tried::Rows(a_fault()))
}

#[test]
fn each_module_of_each_level_is_refused_and_leaves_nothing(rt: HostRuntime) -> Result<(), Fail> {
    is_tried(&rt, rt.alloc(), &Tried::Refused)
}
