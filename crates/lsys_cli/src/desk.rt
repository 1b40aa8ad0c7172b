//! A desk, which answers one line after another.
ghost use Rattle.std.specs.Prelude.{◌≡◌, ◌≢◌, ◌≤◌, [], None, Some, true, false, length, IfOk};
ghost use Rattle.lsys_syntax.specs.Limits.{most_line_bytes, greatest_module_limit};
ghost use Rattle.lsys_laws.specs.Sessions.{HasLevels};
ghost use Rattle.lsys_history.specs.Timelines.{nearest};
ghost use Rattle.lsys_history.specs.Desks.{EachKept, bare_asks, opening_desk};
ghost use Rattle.lsys_cli.specs.Answers.{TellsLead, leads_to};
ghost use Rattle.lsys_session.specs.declared.outcome.Outcome.TheVariants.{Accepted};
ghost use Rattle.lsys_cli.specs.Steps.{LeadsSomewhere, asked_along, kept_along};
ghost use Rattle.lsys_cli.specs.Views.{desk_on};
ghost use Rattle.lsys_cli.specs.DeskCalls.{Replies, Serves, SaysBounds, ServesAt, KeepsLevels, edit_spelled, own_lead, CountsStep, CountsLed, CountsOther, ServesStep, ServesLine};

use crate::desk_line::{DeskLine, desk_line};
use crate::growth_reply::answer_growth;
use crate::kept_motions::{HasMotions, KeptMotions, forget_motions};
use crate::picture_reply::{answer_bounds, answer_place};
use crate::sayings::say;
use crate::step::{DeskStep, DeskWay, take_step};
use lsys_history::History;
use lsys_io::{Buffered, Failed, Sink};
use lsys_match::Steps;
use lsys_rules::{Refusal, System};
use lsys_session::{MOST_LINE_BYTES, Outcome, ReadLine, Request, Session, refuse, request_of};
use std::alloc::{AllocError, Global};
use std::marker::Model;
use std::sync::ledger::Ledger;

/// A session with the systems that edits led away from and those that were undone, at most 32 in all, each of which has its
/// levels under the session's limit. Contracts see the derivation that is kept, over a forest with its levels and their answers, and
/// these systems.
///
/// The motions of the last level's picture are made where a line first asks for them, and kept until an edit is accepted.
#[derive(Drop)]
pub struct Desk<L: Ledger, D: HasMotions<L>> {
    session: Session<L, D>,
    history: History<System>,
    motions: Option<KeptMotions>,
}

impl<L: Ledger, D: HasMotions<L>> Model for Desk<L, D> {
    ghost use Rattle.std.specs.Coded.{codes};
    ghost use Rattle.lsys_laws.specs.Sessions.{HasLevels};
    ghost use Rattle.lsys_rules.specs.Codes.{expr_code};
    ghost use Rattle.lsys_history.specs.Desks.{EachKept};
    ghost use Rattle.lsys_cli.specs.Motions.{AreKept};
    ghost use Rattle.lsys_cli.specs.Views.{Bench, bench};

    ghost Value = { Bench D };

    ghost coded = { Prim.hlevel (codes, expr_code) };

    ghost view = { λ d. bench d.session d.history };

    ghost invariant = { λ d. EachKept (HasLevels (D.limit_of d.session)) d.history
        × AreKept (D.limit_of d.session) (D.system_of d.session) d.motions };
}

impl<L: Ledger, D: HasMotions<L>> Desk<L, D> {
    /// The opening system with its level, under a limit of at most 1,000,000 symbols, and nothing kept beside it.
    ///
    /// # Errors
    ///
    /// Out of memory.
    pub fn start(alloc: Global, limit: u32) -> Result<Desk<L, D>, AllocError>
        requires { limit ≤ greatest_module_limit }
        ensures desk { IfOk result (λ d. desk_on D.system_of d ≡ opening_desk) }
        ensures limit { IfOk result (λ d. D.limit_of d.derivation ≡ limit) }
    {
        Ok(Desk {
            history: History::new(alloc)?,
            session: Session::start(alloc, limit)?,
            motions: None,
        })
    }

    /// Answers a line without its LF and its CR: puts its reply, and keeps the reply's desk.
    ///
    /// What isn't accepted leaves the desk as it was: the derivation, with its system, its levels and the answers that they keep, and
    /// the systems beside it. The motions of the picture that are kept, and what the allocator and `out` have room for, stay out of this.
    ///
    /// An accepted edit asks the questions that are new, and so does an undo or a redo, as an edit from the present system to
    /// the one that it leads to. An edit whose levels are refused or for which memory is wanting asks at most as many as the
    /// limit has symbols; nothing else asks any. A line that isn't refused is accepted exactly where it leads to a system.
    ///
    /// # Errors
    ///
    /// The sink failed; a front of the reply was written then, and nothing more is promised of the desk but its limit, and
    /// that the systems beside its present one have their levels.
    pub fn command<K: Sink, V: Ledger>(
        &mut self,
        alloc: Global,
        line: &[u8],
        out: &mut Buffered,
        sink: &mut K,
        asked: &mut Steps<L>,
        visited: &mut Steps<V>,
    ) -> Result<Outcome, Failed>
        requires { out.old ≡ [] }
        ensures answers { Replies K.Sink sink out D.limit_of D.system_of self line.now result }
        ensures unless_accepted { IfOk result (λ o. o ≢ Accepted → self.new ≡ self.old) }
        ensures limit { D.limit_of self.new.derivation ≡ D.limit_of self.old.derivation }
        ensures kept { KeepsLevels D.limit_of self }
        ensures counts { CountsLed D.visits D.limit_of D.system_of self asked visited line.now result }
        ensures leads { IfOk result (TellsLead (leads_to (desk_on D.system_of self.old) line.now)) }
    {
        if line.len() > MOST_LINE_BYTES {
            return refuse(out, sink, Refusal::LongLine);
        }
        let read = match ReadLine::new(alloc, line) {
            Ok(read) => read,
            Err(refusal) => return refuse(out, sink, refusal),
        };
        match desk_line(&read) {
            None => self.session_line(alloc, &read, out, sink, asked, visited),
            Some(line) => self.own_line(alloc, line, out, sink, asked, visited),
        }
    }

    // Answers a line that asks nothing of the desk.
    fn session_line<K: Sink, V: Ledger>(
        &mut self,
        alloc: Global,
        line: &ReadLine<'_>,
        out: &mut Buffered,
        sink: &mut K,
        asked: &mut Steps<L>,
        visited: &mut Steps<V>,
    ) -> Result<Outcome, Failed>
        requires empty { out.old ≡ [] }
        requires short { length line.now ≤ most_line_bytes }
        requires other { bare_asks line.now ≡ None }
        ensures answers { Replies K.Sink sink out D.limit_of D.system_of self line.now result }
        ensures unless_accepted { IfOk result (λ o. o ≢ Accepted → self.new ≡ self.old) }
        ensures limit { D.limit_of self.new.derivation ≡ D.limit_of self.old.derivation }
        ensures kept { EachKept (HasLevels (D.limit_of self.new.derivation)) self.new.steps }
        ensures counts { CountsOther D.visits D.limit_of D.system_of self asked visited line.now result }
        ensures leads { IfOk result (TellsLead (edit_spelled (D.system_of self.old.derivation) line.now)) }
    {
        let request = match request_of(alloc, self.session.system(), line) {
            Ok(request) => request,
            Err(refusal) => return refuse(out, sink, refusal),
        };
        match request {
            Request::Edit(next) => self.lead(
                alloc,
                DeskStep::Edit,
                next,
                out,
                sink,
                asked,
                visited,
            ),
            request => self
                .session
                .answer(alloc, request, out, sink, asked, visited),
        }
    }

    // Answers what a line asks of the desk.
    fn own_line<K: Sink, V: Ledger>(
        &mut self,
        alloc: Global,
        line: DeskLine,
        out: &mut Buffered,
        sink: &mut K,
        asked: &mut Steps<L>,
        visited: &mut Steps<V>,
    ) -> Result<Outcome, Failed>
        requires { out.old ≡ [] }
        ensures gives { ServesLine K.Sink sink out D.limit_of D.system_of self line result }
        ensures unless_accepted { IfOk result (λ o. o ≢ Accepted → self.new ≡ self.old) }
        ensures limit { D.limit_of self.new.derivation ≡ D.limit_of self.old.derivation }
        ensures kept { EachKept (HasLevels (D.limit_of self.new.derivation)) self.new.steps }
        ensures counts { CountsStep D.visits D.limit_of D.system_of self asked visited false result }
        ensures leads { IfOk result (TellsLead (own_lead D.system_of self.old line)) }
    {
        match line {
            DeskLine::Undo => self.go(alloc, DeskWay::Back, out, sink, asked, visited),
            DeskLine::Redo => self.go(alloc, DeskWay::On, out, sink, asked, visited),
            DeskLine::Growth { level } => {
                answer_growth(alloc, self.session.system(), level, out, sink)
            }
            DeskLine::Bounds => self.tell_bounds(alloc, out, sink),
            DeskLine::At { place, column } => self.tell_place(alloc, place, column, out, sink),
        }
    }

    // Tells how far the picture of the last level reaches.
    fn tell_bounds<K: Sink>(
        &mut self,
        alloc: Global,
        out: &mut Buffered,
        sink: &mut K,
    ) -> Result<Outcome, Failed>
        requires { out.old ≡ [] }
        ensures prints { SaysBounds K.Sink sink out D.limit_of D.system_of self.old.derivation result }
        ensures stays { self.new ≡ self.old }
        ensures kept { EachKept (HasLevels (D.limit_of self.new.derivation)) self.new.steps }
    {
        let derivation = self.session.derivation();
        answer_bounds(alloc, derivation, &mut self.motions, out, sink)
    }

    // Tells where the picture's turtle stands after so many symbols of the image. The number stands at a column.
    fn tell_place<K: Sink>(
        &mut self,
        alloc: Global,
        place: u64,
        column: u32,
        out: &mut Buffered,
        sink: &mut K,
    ) -> Result<Outcome, Failed>
        requires { out.old ≡ [] }
        ensures prints { ServesAt place column K.Sink sink out D.limit_of D.system_of self result }
        ensures stays { self.new ≡ self.old }
        ensures kept { EachKept (HasLevels (D.limit_of self.new.derivation)) self.new.steps }
    {
        let derivation = self.session.derivation();
        answer_place(
            alloc,
            derivation,
            &mut self.motions,
            place,
            column,
            out,
            sink,
        )
    }

    // Goes back to the nearest system of the past, or on to the nearest one that was undone.
    fn go<K: Sink, V: Ledger>(
        &mut self,
        alloc: Global,
        way: DeskWay,
        out: &mut Buffered,
        sink: &mut K,
        asked: &mut Steps<L>,
        visited: &mut Steps<V>,
    ) -> Result<Outcome, Failed>
        requires { out.old ≡ [] }
        ensures gives { Serves K.Sink sink out D.limit_of D.system_of self (asked_along way) result }
        ensures unless_accepted { IfOk result (λ o. o ≢ Accepted → self.new ≡ self.old) }
        ensures limit { D.limit_of self.new.derivation ≡ D.limit_of self.old.derivation }
        ensures kept { EachKept (HasLevels (D.limit_of self.new.derivation)) self.new.steps }
        ensures counts { CountsStep D.visits D.limit_of D.system_of self asked visited false result }
        ensures leads { IfOk result (TellsLead (nearest (kept_along way self.old.steps))) }
    {
        let Some(nearest) = way.nearest(&self.history) else {
            return say(out, sink, way.refusal(), Outcome::Refused);
        };
        let copied: Result<System, AllocError> = nearest.clone();
        match copied {
            Ok(nearest) => self.lead(alloc, way.step(), nearest, out, sink, asked, visited),
            Err(_) => refuse(out, sink, Refusal::Memory),
        }
    }

    // Goes to another system by an edit, an undo or a redo.
    fn lead<K: Sink, V: Ledger>(
        &mut self,
        alloc: Global,
        step: DeskStep,
        system: System,
        out: &mut Buffered,
        sink: &mut K,
        asked: &mut Steps<L>,
        visited: &mut Steps<V>,
    ) -> Result<Outcome, Failed>
        requires empty { out.old ≡ [] }
        requires there { LeadsSomewhere step self.old.steps }
        ensures gives { ServesStep step system K.Sink sink out D.limit_of D.system_of self result }
        ensures unless_accepted { IfOk result (λ o. o ≢ Accepted → self.new ≡ self.old) }
        ensures limit { D.limit_of self.new.derivation ≡ D.limit_of self.old.derivation }
        ensures kept { EachKept (HasLevels (D.limit_of self.new.derivation)) self.new.steps }
        ensures counts { CountsStep D.visits D.limit_of D.system_of self asked visited true result }
        ensures leads { IfOk result (TellsLead (Some system)) }
    {
        let copied: Result<System, AllocError> = self.session.system().clone();
        match copied {
            Ok(present) => {
                self.lead_from(alloc, step, present, system, out, sink, asked, visited)
            }
            Err(_) => refuse(out, sink, Refusal::Memory),
        }
    }

    // Goes from the present system, of which this is a copy, to another one.
    fn lead_from<K: Sink, V: Ledger>(
        &mut self,
        alloc: Global,
        step: DeskStep,
        present: System,
        system: System,
        out: &mut Buffered,
        sink: &mut K,
        asked: &mut Steps<L>,
        visited: &mut Steps<V>,
    ) -> Result<Outcome, Failed>
        requires empty { out.old ≡ [] }
        requires there { LeadsSomewhere step self.old.steps }
        requires present { present ≡ D.system_of self.old.derivation }
        requires levels { HasLevels (D.limit_of self.old.derivation) present }
        ensures gives { ServesStep step system K.Sink sink out D.limit_of D.system_of self result }
        ensures unless_accepted { IfOk result (λ o. o ≢ Accepted → self.new ≡ self.old) }
        ensures limit { D.limit_of self.new.derivation ≡ D.limit_of self.old.derivation }
        ensures kept { EachKept (HasLevels (D.limit_of self.new.derivation)) self.new.steps }
        ensures counts { CountsStep D.visits D.limit_of D.system_of self asked visited true result }
        ensures leads { IfOk result (TellsLead (Some system)) }
    {
        let led = self
            .session
            .restore(alloc, system, out, sink, asked, visited);
        forget_motions(&mut self.motions, led);
        take_step(&mut self.history, step, led, present);
        led
    }
}
