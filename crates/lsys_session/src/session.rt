//! Sessions: one line after another.
ghost use Rattle.std.specs.Prelude.{◌≡◌, ◌≢◌, ◌≤◌, [], Ok, false, true, IfOk, IsOk};
ghost use Rattle.lsys_syntax.specs.Limits.{greatest_module_limit};
ghost use Rattle.lsys_syntax.specs.Tokens.{tokens};
ghost use Rattle.lsys_spec.specs.Systems.{opening};
ghost use Rattle.lsys_session.specs.Given.{HasImage, IsWellUnder, IsLevelWithin, MayLack, is_edit, level_number};
ghost use Rattle.lsys_session.specs.Requests.{HasLevel};
ghost use Rattle.lsys_session.specs.declared.outcome.Outcome.TheVariants.{Accepted, Memory};
ghost use Rattle.lsys_session.specs.declared.request.Request.TheVariants.{Edit, String};
ghost use Rattle.lsys_session.specs.Calls.{Quotes, Gives, Answers, LeadsTo, CountsNeed, CountsRequest, CountsAtLine, TellsPicture};

use crate::outcome::Outcome;
use crate::pictures::{Picture, print_picture};
use crate::request::{Request, request_in};
use crate::sayings::{accept, print_line, refuse, refuse_edit, show_system};
use lsys_io::{Buffered, Failed, Sink};
use lsys_match::{Derivation, Steps};
use lsys_rules::{Refusal, System};
use std::alloc::{AllocError, Global};
use std::marker::{Model, PhantomData};
use std::sync::ledger::Ledger;

/// A line has at most so many bytes.
pub const MOST_LINE_BYTES: usize = 65536;

/// A system that is edited and asked, with its levels under a limit of at most 1,000,000 symbols. Contracts see it as the
/// derivation that it keeps: over a forest that is its system, its levels, and its nodes with the answers that they keep.
#[derive(Drop)]
pub struct Session<L: Ledger, D: Derivation<L>> {
    derivation: D,
    ledger: PhantomData<L>,
}

impl<L: Ledger, D: Derivation<L>> Model for Session<L, D> {
    ghost use Rattle.lsys_session.specs.Given.{IsWellUnder};

    ghost Value = { D };

    ghost view = { λ s. s.derivation };

    ghost invariant = { λ s. IsWellUnder (D.limit_of s.derivation) (D.system_of s.derivation) };
}

impl<L: Ledger, D: Derivation<L>> Session<L, D> {
    /// The opening system with its level, under a limit of at most 1,000,000 symbols.
    ///
    /// # Errors
    ///
    /// Out of memory.
    pub fn start(alloc: Global, limit: u32) -> Result<Session<L, D>, AllocError>
        requires { limit ≤ greatest_module_limit }
        ensures system { IfOk result (λ s. D.system_of s ≡ opening) }
        ensures limit { IfOk result (λ s. D.limit_of s ≡ limit) }
    {
        Ok(Session {
            derivation: D::start(alloc, limit)?,
            ledger: PhantomData,
        })
    }

    /// Answers a line without its LF and its CR: puts its reply, and goes on from the reply's system.
    ///
    /// What isn't accepted leaves the session as it was: the derivation that it keeps, with its system, its levels and the answers
    /// that they keep. What the allocator and `out` have room for stays out of this.
    ///
    /// Out of memory is told of no line that has a byte in no token.
    ///
    /// An accepted edit asks the questions that are new, and an edit whose levels are refused or for which memory is wanting
    /// at most as many as the limit has symbols; nothing else asks any.
    ///
    /// # Errors
    ///
    /// The sink failed; a front of the reply was written then, and nothing more is promised of the session but its limit.
    pub fn command<K: Sink, V: Ledger>(
        &mut self,
        alloc: Global,
        line: &[u8],
        out: &mut Buffered,
        sink: &mut K,
        asked: &mut Steps<L>,
        visited: &mut Steps<V>,
    ) -> Result<Outcome, Failed>
        requires { out.old ≡ [] }
        ensures answers { Answers K.Sink sink out D.limit_of D.system_of self line.now result }
        ensures unless_accepted { IfOk result (λ o. o ≢ Accepted → self.new ≡ self.old) }
        ensures limit { D.limit_of self.new ≡ D.limit_of self.old }
        ensures memory { result ≡ Ok Memory → IsOk (tokens line.now) }
        ensures counts { CountsAtLine D.visits D.limit_of D.system_of self asked visited line.now result }
    {
        if line.len() > MOST_LINE_BYTES {
            return refuse(out, sink, Refusal::LongLine);
        }
        match request_in(alloc, self.derivation.system(), line) {
            Ok(request) => self.answer(alloc, request, out, sink, asked, visited),
            Err(refusal) => refuse(out, sink, refusal),
        }
    }

    /// The present system. It has its levels under the session's limit.
    pub fn system(&self) -> &System
        ensures system { result.now ≡ D.system_of self.now }
        ensures kept { IsWellUnder (D.limit_of self.now) (D.system_of self.now) }
    {
        self.derivation.system()
    }

    /// The derivation that it keeps. Its system has its levels under the session's limit.
    pub fn derivation(&self) -> &D
        ensures same { result.now ≡ self.now }
        ensures kept { IsWellUnder (D.limit_of self.now) (D.system_of self.now) }
    {
        &self.derivation
    }

    /// Goes on from another system, as an edit that leads to it: it is accepted where it has its levels under the limit, and
    /// else refused as such an edit is, and the session is as it was.
    ///
    /// The counters rise as at an edit.
    ///
    /// # Errors
    ///
    /// The sink failed; a front of the reply was written then, and nothing more is promised of the session but its limit.
    pub fn restore<K: Sink, V: Ledger>(
        &mut self,
        alloc: Global,
        system: System,
        out: &mut Buffered,
        sink: &mut K,
        asked: &mut Steps<L>,
        visited: &mut Steps<V>,
    ) -> Result<Outcome, Failed>
        requires { out.old ≡ [] }
        ensures leads { LeadsTo K.Sink sink out D.limit_of D.system_of self system result }
        ensures unless_accepted { IfOk result (λ o. o ≢ Accepted → self.new ≡ self.old) }
        ensures limit { D.limit_of self.new ≡ D.limit_of self.old }
        ensures counts { CountsNeed D.visits D.limit_of D.system_of self asked visited true result }
    {
        self.edit(alloc, system, out, sink, asked, visited)
    }

    /// Answers what a line asks of the present system: puts the reply, and goes on from its system.
    ///
    /// The counters rise as at the line. What is no edit, or isn't accepted, leaves the session as it was.
    ///
    /// Out of memory is told in place of no refusal that is found without memory: that of a picture's image. A level takes none.
    ///
    /// # Errors
    ///
    /// The sink failed; a front of the reply was written then, and nothing more is promised of the session but its limit.
    pub fn answer<K: Sink, V: Ledger>(
        &mut self,
        alloc: Global,
        request: Request,
        out: &mut Buffered,
        sink: &mut K,
        asked: &mut Steps<L>,
        visited: &mut Steps<V>,
    ) -> Result<Outcome, Failed>
        requires empty { out.old ≡ [] }
        requires level { HasLevel (D.system_of self.old) request }
        ensures gives { Gives K.Sink sink out D.limit_of D.system_of self request result }
        ensures limit { D.limit_of self.new ≡ D.limit_of self.old }
        ensures stays { is_edit request ≡ false → self.new ≡ self.old }
        ensures unless_accepted { IfOk result (λ o. o ≢ Accepted → self.new ≡ self.old) }
        ensures memory { result ≡ Ok Memory → MayLack (D.limit_of self.old) (D.system_of self.old) request }
        ensures counts { CountsRequest D.visits D.limit_of D.system_of self asked visited request result }
    {
        match request {
            Request::Nothing => Ok(Outcome::Skipped),
            Request::Edit(next) => self.edit(alloc, next, out, sink, asked, visited),
            Request::String { level } => self.print_level(level, out, sink),
            Request::Segments => self.print_picture(alloc, Picture::Segments, out, sink),
            Request::Svg => self.print_picture(alloc, Picture::Svg, out, sink),
            Request::Show => show_system(out, sink, self.derivation.system()),
            Request::Quit => Ok(Outcome::Quit),
        }
    }

    // Answers an edit.
    fn edit<K: Sink, V: Ledger>(
        &mut self,
        alloc: Global,
        next: System,
        out: &mut Buffered,
        sink: &mut K,
        asked: &mut Steps<L>,
        visited: &mut Steps<V>,
    ) -> Result<Outcome, Failed>
        requires { out.old ≡ [] }
        ensures gives { Gives K.Sink sink out D.limit_of D.system_of self (Edit next) result }
        ensures unless_accepted { IfOk result (λ o. o ≢ Accepted → self.new ≡ self.old) }
        ensures limit { D.limit_of self.new ≡ D.limit_of self.old }
        ensures counts { CountsNeed D.visits D.limit_of D.system_of self asked visited true result }
    {
        match self.derivation.edit(alloc, next, asked, visited) {
            Ok(count) => accept(out, sink, count),
            Err(refusal) => refuse_edit(out, sink, refusal),
        }
    }

    // Answers with a level that is there; the last one without a number.
    fn print_level<K: Sink>(
        &self,
        level: Option<u64>,
        out: &mut Buffered,
        sink: &mut K,
    ) -> Result<Outcome, Failed>
        requires empty { out.old ≡ [] }
        requires level { HasLevel (D.system_of self.now) (String level) }
        ensures quotes { Quotes K.Sink sink out D.limit_of D.system_of self.now (String level) result }
        ensures memory { result ≢ Ok Memory }
    {
        let depth = self.derivation.system().depth();
        print_line(out, sink, &self.derivation, number_of(level, depth))
    }

    // Answers with the last level's picture.
    fn print_picture<K: Sink>(
        &self,
        alloc: Global,
        kind: Picture,
        out: &mut Buffered,
        sink: &mut K,
    ) -> Result<Outcome, Failed>
        requires { out.old ≡ [] }
        ensures tells { TellsPicture K.Sink sink out D.limit_of D.system_of self.now kind result }
        ensures memory { result ≡ Ok Memory → HasImage (D.limit_of self.now) (D.system_of self.now) }
    {
        let system = self.derivation.system();
        print_picture(alloc, kind, &self.derivation, system, out, sink)
    }
}

// The number of the level that is asked for.
fn number_of(level: Option<u64>, depth: u32) -> u32
    requires { IsLevelWithin depth level }
    ensures { result ≡ level_number depth level }
{
    match level {
        Some(level) => level as u32,
        None => depth,
    }
}
