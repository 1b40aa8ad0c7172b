//! Scripts whose edits a pass makes.
ghost use Rattle.std.specs.Prelude.{◌≡◌, ◌<◌, [], OnOk};
ghost use Rattle.lsys_pass.specs.declared.state.PassState.TheVariants.{Rest};
ghost use Rattle.lsys_pass.specs.Moves.{AtLevel};

use crate::orders::Order;
use crate::same::is_same;
use lsys_io::{Buffered, Failed, MemorySink};
use lsys_level::copy_level;
use lsys_match::Steps;
use lsys_module::{SymbolList, print_string};
use lsys_pass::{Pass, PassState};
use lsys_rewrite::{DeriveRefusal, EditCount};
use lsys_rules::{Command, System, apply, parse_command};
use lsys_text::tokens;
use std::alloc::{AllocError, Global};
use std::marker::Brand;
use std::process::Abort;
use std::sync::ledger::{Blank, Ledger};
use std::test::Fail;

/// The command of a line.
fn command_of(alloc: Global, line: &str) -> Result<Command, AllocError> {
    if line.len() > 65536 {
        return Err(AllocError);
    }
    match tokens(alloc, line.as_bytes()) {
        Ok(found) => {
            parse_command(alloc, found.as_slice(), line.len() as u32).map_err(|_| AllocError)
        }
        Err(_) => Err(AllocError),
    }
}

/// The system after the edit of a line.
fn next_system(alloc: Global, system: &System, line: &str) -> Result<System, AllocError> {
    let command = command_of(alloc, line)?;
    apply(alloc, system, &command).map_err(|_| AllocError)
}

/// Asks all nodes that are pending, in this order.
fn ask_pending<L: Ledger, V: Ledger>(
    alloc: Global,
    pass: &mut Pass<L>,
    order: &mut Order,
    asked: &mut Steps<L>,
    visited: &mut Steps<V>,
) -> Result<(), AllocError>
    requires state { AtLevel pass.old.state }
    ensures state { pass.new.state ≡ pass.old.state }
    ensures none { OnOk result (pass.new.pending ≡ []) }
{
    while pass.pending() > 0 {
        let place = order.next(pass.pending());
        let node = pass.nth_pending(place);
        pass.step(alloc, node, asked, visited)?;
    }
    Ok(())
}

/// Makes so many levels, or all where there are fewer, from the first one on.
fn make_levels<L: Ledger, V: Ledger>(
    alloc: Global,
    pass: &mut Pass<L>,
    levels: u32,
    order: &mut Order,
    asked: &mut Steps<L>,
    visited: &mut Steps<V>,
) -> Result<(), DeriveRefusal> {
    for _level in 0..levels {
        if let PassState::Level(_) = pass.state() {
            ask_pending(alloc, pass, order, asked, visited)?;
            pass.finish_level(alloc)?;
        }
    }
    Ok(())
}

/// Begins to make the levels of another system, from rest.
fn begin<L: Ledger>(
    alloc: Global,
    pass: &mut Pass<L>,
    system: System,
) -> Result<(), DeriveRefusal> {
    match pass.state() {
        PassState::Rest => pass.begin(alloc, system),
        _ => Err(DeriveRefusal::Memory),
    }
}

/// Keeps the levels that were made; where one wasn't, the pass goes back to its rest.
fn end<L: Ledger>(
    pass: &mut Pass<L>,
    made: Result<(), DeriveRefusal>,
) -> Result<EditCount, DeriveRefusal> {
    match pass.state() {
        PassState::Done => Ok(pass.close()),
        PassState::Rest => Err(DeriveRefusal::Memory),
        _ => {
            pass.abandon();
            Err(made.err().unwrap_or(DeriveRefusal::Memory))
        }
    }
}

/// Makes the levels of another system; where it has none, the pass goes back to its rest.
fn edit<L: Ledger, V: Ledger>(
    alloc: Global,
    pass: &mut Pass<L>,
    system: System,
    order: &mut Order,
    asked: &mut Steps<L>,
    visited: &mut Steps<V>,
) -> Result<EditCount, DeriveRefusal> {
    let depth = system.depth();
    begin(alloc, pass, system)?;
    let made = make_levels(alloc, pass, depth, order, asked, visited);
    end(pass, made)
}

/// What is replied to an edit that is refused.
fn refusal(alloc: Global, refusal: DeriveRefusal) -> Result<String, AllocError> {
    match refusal {
        DeriveRefusal::Fault {
            kind,
            level,
            module,
        } => {
            format!(in alloc;
                "refused fault {} level {level} module {module}",
                kind.word()
            )
        }
        DeriveRefusal::Limit { level } => format!(in alloc; "refused limit level {level}"),
        DeriveRefusal::Memory => Err(AllocError),
    }
}

/// What is replied to an edit.
fn reply(alloc: Global, edited: Result<EditCount, DeriveRefusal>) -> Result<String, AllocError> {
    match edited {
        Ok(count) => format!(in alloc; "ok {}/{}", count.asked, count.questions),
        Err(refused) => refusal(alloc, refused),
    }
}

/// Prints a string to a sink.
fn print(alloc: Global, symbols: &SymbolList, sink: &mut MemorySink) -> Result<(), AllocError> {
    let mut out = Buffered::new(alloc)?;
    put_string(symbols, &mut out, sink).map_err(|_| AllocError)
}

/// Puts the text of a string, and writes it.
fn put_string(
    symbols: &SymbolList,
    out: &mut Buffered,
    sink: &mut MemorySink,
) -> Result<(), Failed> {
    print_string(out, sink, symbols)?;
    out.flush(sink)
}

/// The text of a string.
fn text_of(alloc: Global, symbols: &SymbolList) -> Result<Vec<u8>, AllocError> {
    let mut sink = MemorySink::new(alloc, 65536, 7, Vec::new(alloc))?;
    print(alloc, symbols, &mut sink)?;
    Vec::from_slice(alloc, sink.bytes())
}

/// The text of the last level of a pass at rest.
fn last_string<L: Ledger>(alloc: Global, pass: &Pass<L>) -> Result<Vec<u8>, AllocError>
    requires rest { pass.now.state ≡ Rest }
{
    let symbols = copy_level(alloc, pass.forest(), pass.system().depth())?;
    text_of(alloc, &symbols)
}

/// The text of the last level of a pass, if it is at rest.
fn string_at_rest<L: Ledger>(alloc: Global, pass: &Pass<L>) -> Result<Vec<u8>, AllocError> {
    match pass.state() {
        PassState::Rest => last_string(alloc, pass),
        _ => Err(AllocError),
    }
}

/// What is replied to an edit by its system.
fn reply_by<L: Ledger, V: Ledger>(
    alloc: Global,
    pass: &mut Pass<L>,
    system: System,
    order: &mut Order,
    asked: &mut Steps<L>,
    visited: &mut Steps<V>,
) -> Result<Vec<u8>, AllocError> {
    let edited = edit(alloc, pass, system, order, asked, visited);
    let reply = reply(alloc, edited)?;
    Vec::from_slice(alloc, reply.as_bytes())
}

/// What is replied to a line: an edit, or `string`.
fn answered<L: Ledger, V: Ledger>(
    alloc: Global,
    pass: &mut Pass<L>,
    line: &str,
    order: &mut Order,
    asked: &mut Steps<L>,
    visited: &mut Steps<V>,
) -> Result<Vec<u8>, AllocError> {
    if line == "string" {
        return string_at_rest(alloc, pass);
    }
    let system = next_system(alloc, pass.system(), line)?;
    reply_by(alloc, pass, system, order, asked, visited)
}

/// The reply of a pass to a line is this one.
fn is_answered<L: Ledger, V: Ledger>(
    rt: &impl Abort,
    alloc: Global,
    pass: &mut Pass<L>,
    row: (&str, &str),
    order: &mut Order,
    asked: &mut Steps<L>,
    visited: &mut Steps<V>,
) -> Result<(), Fail> {
    let (line, reply) = row;
    let found = answered(alloc, pass, line, order, asked, visited)?;
    is_same(rt, line, &found, reply.as_bytes());
    Ok(())
}

/// The reply of a pass to each line of a script is the one beside it.
fn are_answered<L: Ledger, V: Ledger>(
    rt: &impl Abort,
    alloc: Global,
    pass: &mut Pass<L>,
    script: &[(&str, &str)],
    order: Order,
    asked: &mut Steps<L>,
    visited: &mut Steps<V>,
) -> Result<(), Fail> {
    let mut order = order;
    for (line, reply) in script {
        is_answered(rt, alloc, pass, (*line, *reply), &mut order, asked, visited)?;
    }
    Ok(())
}

/// What plays scripts.
trait Plays<L: Ledger> {
    /// The reply to each line of a script is the one beside it.
    fn plays<V: Ledger, R: Abort>(
        &mut self,
        rt: &R,
        alloc: Global,
        script: &[(&str, &str)],
        order: Order,
        asked: &mut Steps<L>,
        visited: &mut Steps<V>,
    ) -> Result<(), Fail>;
}

impl<L: Ledger> Plays<L> for Pass<L> {
    fn plays<V: Ledger, R: Abort>(
        &mut self,
        rt: &R,
        alloc: Global,
        script: &[(&str, &str)],
        order: Order,
        asked: &mut Steps<L>,
        visited: &mut Steps<V>,
    ) -> Result<(), Fail> {
        are_answered(rt, alloc, self, script, order, asked, visited)
    }
}

/// Plays a script on what is made. It knows of no pass, since one that waits to be dropped costs the proof much.
fn plays_on<L: Ledger, V: Ledger, P: Plays<L> + Drop>(
    rt: &impl Abort,
    alloc: Global,
    made: Result<P, AllocError>,
    script: &[(&str, &str)],
    order: Order,
    asked: &mut Steps<L>,
    visited: &mut Steps<V>,
) -> Result<(), Fail> {
    let mut pass = made?;
    pass.plays(rt, alloc, script, order, asked, visited)
}

/// The reply of a new pass to each line of a script is the one beside it.
fn on_a_new_pass<L: Ledger, V: Ledger>(
    rt: &impl Abort,
    alloc: Global,
    script: &[(&str, &str)],
    order: Order,
    asked: &mut Steps<L>,
    visited: &mut Steps<V>,
) -> Result<(), Fail> {
    let made = Pass::<L>::new(alloc, 1000);
    plays_on(rt, alloc, made, script, order, asked, visited)
}

/// The same, with these names for what is counted.
fn is_played<L: Ledger, V: Ledger>(
    rt: &impl Abort,
    alloc: Global,
    script: &[(&str, &str)],
    order: Order,
    asked: Blank,
    visited: Blank,
) -> Result<(), Fail>
    requires name { asked.name ≡ L.name }
    requires parts { asked.parts ≡ L.parts }
    requires some { 0 < asked.parts }
    requires other_name { visited.name ≡ V.name }
    requires other_parts { visited.parts ≡ V.parts }
    requires other_some { 0 < visited.parts }
{
    let mut asked = Steps::<L>::open(asked);
    let mut visited = Steps::<V>::open(visited);
    on_a_new_pass(rt, alloc, script, order, &mut asked, &mut visited)
}

/// The orders in which nodes are asked.
fn orders() -> &'static [Order] {
    &[
        Order::FromLeft,
        Order::FromRight,
        Order::ByChance(88172645463325252),
    ]
}

/// Each line of a script has the reply beside it, in whatever order nodes are asked.
pub(crate) fn has_replies(
    rt: &impl Abort,
    alloc: Global,
    script: &[(&str, &str)],
) -> Result<(), Fail> {
    for order in orders() {
        is_played::<Brand, Brand>(rt, alloc, script, *order, Blank::new(1), Blank::new(1))?;
    }
    Ok(())
}
