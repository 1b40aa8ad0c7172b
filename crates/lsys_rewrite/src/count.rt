//! What an edit cost.

/// How many questions an accepted edit asked anew, and how many the levels have in all.
#[derive(Clone, Copy, PartialEq, Eq, Debug)]
pub struct EditCount {
    pub asked: u64,
    pub questions: u64,
}
