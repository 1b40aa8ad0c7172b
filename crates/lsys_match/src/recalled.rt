//! Laws of what is asked again: traces and questions told by tags, of an old level and of a new one.
//!
//! The functions here have empty bodies: the contract is a law about the definitions of `lsys_spec` and the tags of
//! `lsys_match`.

ghost use Rattle.lsys_match.specs.Traced.{TraceTagsStandThere, TracesAgreeByLineages};
ghost use Rattle.lsys_match.specs.Recalled.{AnswersAgreeByLineages};

/// The tags that the trace of a module names stand in its level.
pub fn law_of_trace_tags()
    ensures { TraceTagsStandThere }
{}

/// Where the tags of an old level and of a new one are equal where their names are, a trace of the one and a trace of the
/// other are equal by tags exactly where they are by names. So what was seen by tags alone holds by lineages.
pub fn law_of_told_traces()
    ensures { TracesAgreeByLineages }
{}

/// The question of an old answer is that of a new one by tags exactly where the definitions ask the same of both modules.
/// So what `ask` answers as the same is no question that the new system needs, and a new answer to another question is.
pub fn law_of_same_answers()
    ensures { AnswersAgreeByLineages }
{}
