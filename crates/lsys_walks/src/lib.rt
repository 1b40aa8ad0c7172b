//! What stands around a module, against what a rule asks for: the walks of contexts over any view of levels.
//!
//! A walk reads entries, and each one is compared with the old trace as it is read: while they agree nothing is written,
//! and at the first difference the front that agreed is taken over. What a walk answers and reads is, by every naming of
//! the tags, what the definitions' walk tells at that place of that level.
#![tactic(auto)]

mod alike;
mod contexts;
mod counter;
mod entry;
mod item;
mod law;
mod left;
mod mark;
mod meeting;
mod pattern;
mod reading;
mod right;
mod store;
mod trace;
mod walked;

pub use contexts::context_reads;
pub use counter::Counter;
pub use entry::{Entry, EntryKind};
pub use law::law_of_tagged_traces;
pub use left::left_reads;
pub use mark::Mark;
pub use reading::Reading;
pub use right::right_reads;
pub use store::{AnswerStore, TraceRuns};
pub use trace::Trace;
pub use walked::Walked;
