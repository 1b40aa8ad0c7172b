//! Replies to scripts that come from elsewhere, each an equation which the checker computes from the definitions of a desk.
//!
//! `conformance/definitions --keep` writes them, from the files of `conformance/definition_cases`. There is no code.
#![tactic(auto)]
