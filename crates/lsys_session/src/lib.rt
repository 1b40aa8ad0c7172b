//! Sessions: what a line asks of a system, what it is answered, and what its edits ask of the derivation that is kept.
#![tactic(auto)]

mod line;
mod outcome;
mod pictures;
mod read_line;
mod replies;
mod request;
mod sayings;
mod session;
mod strings;

pub use outcome::Outcome;
pub use read_line::ReadLine;
pub use request::{Request, request_of};
pub use sayings::{refuse, refuse_far, refuse_image};
pub use session::{MOST_LINE_BYTES, Session};
