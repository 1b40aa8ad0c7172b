//! Laws of what a script may ask and read.

ghost use Rattle.lsys_spec.specs.AddedCosts.{CostsAddUpLineByLine, NothingIsAddedAfterTheEnd, CountersKeepWithinAddedCosts};

/// What a session may ask and read adds up line by line: where a line doesn't end the session, the costs so far and those
/// of the lines from it on are the costs up to it, and those of the lines after it, from the system that it leaves. After
/// a line that ends the session nothing is added. Counters that keep within one cost and then within another rise in all
/// by what keeps within both.
pub fn law_of_costs()
    ensures line { CostsAddUpLineByLine }
    ensures end { NothingIsAddedAfterTheEnd }
    ensures within { CountersKeepWithinAddedCosts }
{}
