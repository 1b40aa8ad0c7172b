//! Where answers are kept.
ghost use Rattle.std.specs.Prelude.{◌≡◌, ◌≤◌, OnErr, OnOk, Some};
ghost use Rattle.lsys_region.specs.Pool.{empty_pool, list_of, IsLiveRun};
ghost use Rattle.lsys_region.specs.Rooms.{list_room};
ghost use Rattle.lsys_walks.specs.Stores.{StaysWithRoom, HoldsTrace, AreLive, AreFresh, OtherTracesStay, TakesRoom, AreGone, StaysAsLarge, GivesBackRoom};

use crate::entry::Entry;
use lsys_region::{Region, Run};
use std::alloc::{AllocError, Global};
use std::marker::Model;
use std::mem;

/// A trace that is kept: the run of its entries, and that of their parameters.
#[derive(Drop)]
pub struct TraceRuns {
    pub entries: Run,
    pub values: Run,
}

/// Where answers are kept: the entries of traces in one region, the parameters of the modules that were read in another. It has a
/// list besides for what is worked out for an answer.
#[derive(Drop)]
pub struct AnswerStore {
    traces: Region<Entry>,
    values: Region<i64>,
    /// What is in it means nothing.
    scratch: Vec<i64>,
}

impl Model for AnswerStore {
    ghost use Rattle.lsys_walks.specs.Stores.{Store};

    ghost Value = { Store };

    ghost view = { λ a. record { traces = a.traces; values = a.values } };
}

impl AnswerStore {
    /// A store without answers and without room. Takes no memory.
    pub fn new(alloc: Global) -> AnswerStore
        ensures traces { result.traces ≡ empty_pool }
        ensures values { result.values ≡ empty_pool }
    {
        AnswerStore {
            traces: Region::new(alloc),
            values: Region::new(alloc),
            scratch: Vec::new(alloc),
        }
    }

    /// Exchanges its list for values for another one, whatever is in them. Takes no memory.
    pub fn exchange(&mut self, values: &mut Vec<i64>)
        ensures { self.new ≡ self.old }
    {
        mem::swap(&mut self.scratch, values);
    }

    /// Makes room for traces whose rooms are together at most `entries`, and for lists of parameters whose rooms are
    /// together at most `values`. What is kept stays.
    ///
    /// # Errors
    ///
    /// Out of memory. What is kept stays then too, and of the room for parameters nothing was taken.
    pub fn reserve(&mut self, entries: usize, values: usize) -> Result<(), AllocError>
        ensures entries { OnOk result (entries ≤ self.new.traces.spare) }
        ensures params { OnOk result (values ≤ self.new.values.spare) }
        ensures traces { StaysWithRoom self.old.traces self.new.traces }
        ensures values { StaysWithRoom self.old.values self.new.values }
        ensures refused { OnErr result (self.new.values ≡ self.old.values) }
    {
        self.traces.reserve(entries)?;
        self.values.reserve(values)
    }

    /// Keeps a trace with its parameters in two new runs, for which there is room. Takes no memory.
    pub fn place(&mut self, entries: &[Entry], values: &[i64]) -> TraceRuns
        requires entries { list_room entries.now ≤ self.old.traces.spare }
        requires params { list_room values.now ≤ self.old.values.spare }
        ensures placed { HoldsTrace self.new result entries.now values.now }
        ensures fresh { AreFresh self.old result entries.now values.now }
        ensures others { OtherTracesStay self.old self.new result }
        ensures traces { TakesRoom self.old.traces self.new.traces entries.now }
        ensures values { TakesRoom self.old.values self.new.values values.now }
    {
        TraceRuns {
            entries: self.traces.place(entries),
            values: self.values.place(values),
        }
    }

    /// The entries of a trace that is kept.
    pub fn entries(&self, runs: &TraceRuns) -> &[Entry]
        requires { IsLiveRun self.now.traces runs.now.entries }
        ensures { list_of self.now.traces runs.now.entries ≡ Some result.now }
    {
        self.traces.read(&runs.entries)
    }

    /// The parameters of the modules of a trace that is kept, in order.
    pub fn values(&self, runs: &TraceRuns) -> &[i64]
        requires { IsLiveRun self.now.values runs.now.values }
        ensures { list_of self.now.values runs.now.values ≡ Some result.now }
    {
        self.values.read(&runs.values)
    }

    /// Lets a trace go. Its room is kept for the next lists with the same rooms. Takes no memory.
    pub fn free(&mut self, runs: TraceRuns)
        requires { AreLive self.old runs }
        ensures gone { AreGone self.new runs }
        ensures others { OtherTracesStay self.old self.new runs }
        ensures traces { StaysAsLarge self.old.traces self.new.traces }
        ensures values { StaysAsLarge self.old.values self.new.values }
        ensures given_back { GivesBackRoom self.old self.new runs }
    {
        self.traces.free(runs.entries);
        self.values.free(runs.values);
    }
}
