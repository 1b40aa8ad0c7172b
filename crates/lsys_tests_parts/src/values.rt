//! The texts of errors, and the size of an answer.
use crate::same::is_same;
use lsys_expr::Arith;
use lsys_match::Answer;
use lsys_module::StringRefusal;
use lsys_text::{PlaceRefusal, TextRefusal};
use std::alloc::Global;
use std::fmt::Display;
use std::marker::Brand;
use std::mem::size_of;
use std::process::Abort;

/// An error is told so.
fn is_told(rt: &impl Abort, alloc: Global, error: &impl Display, want: &str) {
    let text = format!(in alloc; "{error}").expect(rt, "memory");
    is_same(rt, &text.as_str(), &want);
}

fn texts() -> &'static [(TextRefusal, &'static str)] {
    &[
        (TextRefusal::Byte { column: 8 }, "column 8 is in no token"),
        (TextRefusal::Memory, "out of memory"),
    ]
}

fn places() -> &'static [(PlaceRefusal, &'static str)] {
    &[
        (
            PlaceRefusal::Token { place: 3 },
            "no sentence goes on with token 3",
        ),
        (PlaceRefusal::Deep { place: 40 }, "token 40 nests too deep"),
    ]
}

fn strings() -> &'static [(StringRefusal, &'static str)] {
    &[
        (
            StringRefusal::TooMany { column: 26 },
            "column 26 begins one too many",
        ),
        (StringRefusal::Memory, "out of memory"),
    ]
}

/// Each error is told as the text beside it.
fn are_told<E: Display>(rt: &impl Abort, alloc: Global, rows: &[(E, &str)]) {
    for (error, want) in rows {
        is_told(rt, alloc, error, *want);
    }
}

#[test]
fn errors_are_told(rt: HostRuntime) {
    are_told(&rt, rt.alloc(), texts());
    are_told(&rt, rt.alloc(), places());
    are_told(&rt, rt.alloc(), strings());
    is_told(&rt, rt.alloc(), &Arith::DivideByZero, "divide by zero");
}

#[test]
fn an_answer_is_small(rt: HostRuntime) {
    is_same(&rt, &size_of::<Answer<Brand>>(), &80);
}
