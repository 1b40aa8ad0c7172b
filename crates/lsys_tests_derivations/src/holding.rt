//! Sessions whose lines are answered, and what they hold then.

use crate::same::is_same;
use crate::writing::written_by;
use lsys_match::{Derivation, Steps};
use lsys_pass::{ForestDerivation, Held};
use lsys_session::Session;
use std::alloc::Global;
use std::process::Abort;
use std::sync::ledger::Ledger;
use std::test::Fail;

/// A line, its reply, and the numbers of nodes and of answers that are held after it.
pub(crate) type HeldRow = (&'static str, &'static str, u64, u64);

/// A derivation that tells how much it keeps.
pub(crate) trait TellsHeld {
    /// How much it keeps now.
    fn held_now(&self) -> Held;
}

impl<L: Ledger> TellsHeld for ForestDerivation<L> {
    fn held_now(&self) -> Held {
        self.held()
    }
}

/// A session holds so many nodes and answers.
pub(crate) fn holds<L: Ledger, D: Derivation<L> + Drop + TellsHeld>(
    rt: &impl Abort,
    session: &Session<L, D>,
    nodes: u64,
    answers: u64,
) {
    assert_eq!(rt; session.derivation().held_now(), Held { nodes, answers });
}

/// A line has this reply, and so much is held after it.
pub(crate) fn is_held<L: Ledger, V: Ledger, D: Derivation<L> + Drop + TellsHeld>(
    rt: &impl Abort,
    alloc: Global,
    session: &mut Session<L, D>,
    row: (&str, &str, u64, u64),
    asked: &mut Steps<L>,
    visited: &mut Steps<V>,
) -> Result<(), Fail> {
    let (line, reply, nodes, answers) = row;
    let found = written_by(alloc, session, 256, line.as_bytes(), asked, visited)?;
    is_same(rt, line, &found, reply.as_bytes());
    holds(rt, session, nodes, answers);
    Ok(())
}

/// Each line is answered so, and so much is held after it.
pub(crate) fn are_held<L: Ledger, V: Ledger, D: Derivation<L> + Drop + TellsHeld>(
    rt: &impl Abort,
    alloc: Global,
    session: &mut Session<L, D>,
    rows: &[HeldRow],
    asked: &mut Steps<L>,
    visited: &mut Steps<V>,
) -> Result<(), Fail> {
    for row in rows {
        is_held(rt, alloc, session, *row, asked, visited)?;
    }
    Ok(())
}
