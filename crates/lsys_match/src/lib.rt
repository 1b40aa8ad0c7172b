//! The questions of modules and their answers (ABOP 1.7, 1.8 and 1.10): which rule replaces a module, by what stands around
//! it, and with what.
//!
//! An answer is kept with its question, and asking again tells whether the question is the same. Tags stand for levels and
//! lineages; what is answered is, by every naming of the tags, what the definitions say of the module at that place.
#![tactic(auto)]

mod answer;
mod asked;
mod asker;
mod choice;
mod derivation;
mod found;
mod group;
mod law;
mod outcome;
mod posed;
mod question;
mod recalled;
mod refusal;
mod site;
mod steps;
mod told;

pub use answer::Answer;
pub use asked::Asked;
pub use asker::Asker;
pub use derivation::Derivation;
pub use law::{law_of_kept_answers, law_of_tagged_questions};
pub use lsys_walks::{AnswerStore, Entry, EntryKind};
pub use question::ask;
pub use recalled::{law_of_same_answers, law_of_told_traces, law_of_trace_tags};
pub use refusal::AskRefusal;
pub use steps::Steps;
