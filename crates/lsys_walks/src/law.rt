//! Traces by tags, against traces by lineages.
ghost use Rattle.lsys_walks.specs.Agreements.{TracesAgreeByTags, TestsAgreeByTags, TestsTellTraces};

/// A law of tags in traces: where the tags that an old trace and a new one name are equal exactly where their lineages
/// are, the traces are equal by tags exactly where they are by lineages, and so are the tests.
pub fn law_of_tagged_traces()
    ensures equal { TracesAgreeByTags }
    ensures tested { TestsAgreeByTags }
    ensures told { TestsTellTraces }
{}
