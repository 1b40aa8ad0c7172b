//! Which way a desk goes from one system to another.
ghost use Rattle.std.specs.Prelude.{◌≡◌, ◌++◌, codes, option_copied};
ghost use Rattle.lsys_spec.specs.Refusals.{line_feed};
ghost use Rattle.lsys_history.specs.Timelines.{nearest};
ghost use Rattle.lsys_cli.specs.Steps.{LeadsSomewhere, asked_word, is_taken, kept_along, step_along, steps_after, steps_by};

use lsys_history::History;
use lsys_io::Failed;
use lsys_rules::System;
use lsys_session::Outcome;

/// Which way a desk goes from one system to another.
#[derive(Clone, Copy)]
pub(crate) enum DeskStep {
    /// By an edit.
    Edit,
    /// Back to the nearest system of the past.
    Undo,
    /// On to the nearest system that was undone.
    Redo,
}

/// Which way a desk goes along the systems that it keeps.
#[derive(Clone, Copy)]
pub(crate) enum DeskWay {
    /// To the past, by an undo.
    Back,
    /// To what was undone, by a redo.
    On,
}

impl DeskWay {
    /// The nearest system on this way; none where nothing is kept there.
    pub(crate) fn nearest(self, history: &History<System>) -> Option<&System>
        ensures { option_copied result ≡ nearest (kept_along self history.now) }
    {
        match self {
            DeskWay::Back => history.last(),
            DeskWay::On => history.next(),
        }
    }

    /// The step to it.
    pub(crate) fn step(self) -> DeskStep
        ensures { result ≡ step_along self }
    {
        match self {
            DeskWay::Back => DeskStep::Undo,
            DeskWay::On => DeskStep::Redo,
        }
    }

    /// What is said where there is none.
    pub(crate) fn refusal(self) -> &'static [u8]
        ensures { result.now ≡ codes "refused " ++ asked_word self ++ line_feed }
    {
        match self {
            DeskWay::Back => b"refused undo\n",
            DeskWay::On => b"refused redo\n",
        }
    }
}

/// Takes a step away from the present system, where the one that it leads to was accepted and its reply was put.
pub(crate) fn take_step(
    history: &mut History<System>,
    step: DeskStep,
    led: Result<Outcome, Failed>,
    present: System,
)
    requires { LeadsSomewhere step history.old }
    ensures { history.new ≡ steps_after led step history.old present }
{
    if is_taken(led) {
        step_away(history, step, present);
    }
}

// Whether a step is taken that was answered so.
fn is_taken(led: Result<Outcome, Failed>) -> bool
    ensures { result ≡ is_taken led }
{
    match led {
        Ok(outcome) => outcome == Outcome::Accepted,
        Err(Failed) => false,
    }
}

// Takes a step away from the present system.
fn step_away(history: &mut History<System>, step: DeskStep, present: System)
    requires { LeadsSomewhere step history.old }
    ensures { history.new ≡ steps_by step history.old present }
{
    match step {
        DeskStep::Edit => history.keep(present),
        DeskStep::Undo => {
            history.step_back(present);
        }
        DeskStep::Redo => {
            history.step_on(present);
        }
    }
}
