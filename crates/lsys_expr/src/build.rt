//! Expressions from their tokens.
ghost use Rattle.std.specs.Prelude.{◌≡◌, ◌≤◌, length, map, false, None, Some, IfOk, OnOk, IsSome};
ghost use Rattle.lsys_syntax.specs.Checks.{is_unknown};
ghost use Rattle.lsys_syntax.specs.ExpressionPlaces.{read_expr};
ghost use Rattle.lsys_spec.specs.Values.{expr_tree};
ghost use Rattle.lsys_text.specs.Tokens.{kind_of};
ghost use Rattle.lsys_expr.specs.Parts.{names_of, stretch, unknown_in};
ghost use Rattle.lsys_expr.specs.Trees.{tree_of};
ghost use Rattle.lsys_expr.specs.ReadSteps.{spelled_tree, reading_after, operand_reading, follower_reading, IsReadAfter, IsReadOperand, IsReadFollower, CanBeginFrame, BeginsFrame};

use crate::constant::Constant;
use crate::expr::Expr;
use crate::frames::{
    AND_STRENGTH, Follower, Frame, OR_STRENGTH, left_strength, pop, push, reduce, what_follows,
};
use crate::names::formal_place;
use crate::tree::Tree;
use lsys_text::{Name, Token, TokenKind};
use std::alloc::{AllocError, Global};

/// The expression that the tokens from `from` up to `to` are, its names among the formals. Its tree
/// is no deeper than there are tokens, and evaluation recurses over it.
///
/// # Errors
///
/// Out of memory alone.
pub fn build_expr(
    alloc: Global,
    tokens: &[Token],
    from: usize,
    to: usize,
    formals: &[Name],
) -> Result<Expr, AllocError>
    requires order { from ≤ to }
    requires within { to ≤ length tokens.now }
    requires spelled { IsSome (read_expr (stretch from to tokens.now)) }
    requires known { unknown_in formals.now (stretch from to tokens.now) ≡ None }
    requires few { length formals.now ≤ 256 }
    ensures spelled { IfOk result (λ x. read_expr (stretch from to tokens.now) ≡ Some x.spelled) }
    ensures tree { IfOk result (λ x. x.tree ≡ expr_tree (names_of formals.now) x.spelled) }
{
    let kinds = kinds_in(alloc, &tokens[from..to])?;
    let tree = parse(alloc, &kinds, formals)?;
    Ok(Expr::new(kinds, tree))
}

fn kinds_in(alloc: Global, tokens: &[Token]) -> Result<Vec<TokenKind>, AllocError>
    ensures { IfOk result (λ kinds. kinds.items ≡ map (λ t. t.kind) tokens.now) }
{
    let mut kinds = Vec::with_capacity(alloc, tokens.len())?;
    for token in tokens {
        kinds.push(token.kind)?;
    }
    Ok(kinds)
}

// The tree of an expression: each token moves the operand that was read last, and the frames that it
// is part of.
fn parse(alloc: Global, kinds: &[TokenKind], formals: &[Name]) -> Result<Tree, AllocError>
    requires spelled { IsSome (read_expr (map kind_of kinds.now)) }
    requires known { unknown_in formals.now (map kind_of kinds.now) ≡ None }
    requires few { length formals.now ≤ 256 }
    ensures { IfOk result (λ tree. tree_of tree ≡ spelled_tree formals.now kinds.now) }
{
    let mut frames = Vec::new(alloc);
    let mut operand = None;
    for kind in kinds {
        operand = read_token(alloc, *kind, operand, &mut frames, formals)?;
    }
    match operand {
        Some(last) => reduce(alloc, &mut frames, last, OR_STRENGTH),
        None => unreachable!(),
    }
}

fn read_token(
    alloc: Global,
    kind: TokenKind,
    operand: Option<Tree>,
    frames: &mut Vec<Frame>,
    formals: &[Name],
) -> Result<Option<Tree>, AllocError>
    requires possible { IsSome (reading_after formals.now kind operand frames.old.items) }
    requires known { is_unknown (names_of formals.now) (kind_of kind) ≡ false }
    requires few { length formals.now ≤ 256 }
    ensures { IfOk result (IsReadAfter formals.now kind operand frames.old.items frames.new.items) }
{
    match operand {
        None => read_operand(kind, frames, formals),
        Some(left) => read_follower(alloc, kind, left, frames),
    }
}

// A token where an operand is due: one that is an operand, or one that a frame begins with. The
// second half of `&&` and `||` changes nothing.
fn read_operand(
    kind: TokenKind,
    frames: &mut Vec<Frame>,
    formals: &[Name],
) -> Result<Option<Tree>, AllocError>
    requires possible { IsSome (operand_reading formals.now kind frames.old.items) }
    requires known { is_unknown (names_of formals.now) (kind_of kind) ≡ false }
    requires few { length formals.now ≤ 256 }
    ensures { IfOk result (IsReadOperand formals.now kind frames.old.items frames.new.items) }
{
    match kind {
        TokenKind::Number(number) => Ok(Some(Tree::Constant(Constant::new(number)))),
        TokenKind::Name(name) => Ok(Some(Tree::Formal(formal_place(formals, name)))),
        TokenKind::Mark(byte) => {
            begin_frame(byte, frames)?;
            Ok(None)
        }
        _ => unreachable!(),
    }
}

fn begin_frame(byte: u8, frames: &mut Vec<Frame>) -> Result<(), AllocError>
    requires { CanBeginFrame byte frames.old.items }
    ensures { OnOk result (BeginsFrame byte frames.old.items frames.new.items) }
{
    match byte {
        b'(' => push(frames, Frame::Parentheses),
        b'-' => push(frames, Frame::Negation),
        b'!' => push(frames, Frame::Inversion),
        b'&' | b'|' => Ok(()),
        _ => unreachable!(),
    }
}

// A token after an operand: an operator takes its left side, and `)` closes its parentheses.
fn read_follower(
    alloc: Global,
    kind: TokenKind,
    operand: Tree,
    frames: &mut Vec<Frame>,
) -> Result<Option<Tree>, AllocError>
    requires { IsSome (follower_reading kind operand frames.old.items) }
    ensures { IfOk result (IsReadFollower kind operand frames.old.items frames.new.items) }
{
    match what_follows(kind) {
        Some(Follower::Operator(operator)) => {
            let left = reduce(alloc, frames, operand, left_strength(operator))?;
            push(frames, Frame::Binary(operator, left))?;
            Ok(None)
        }
        Some(Follower::And) => {
            let left = reduce(alloc, frames, operand, AND_STRENGTH)?;
            push(frames, Frame::Both(left))?;
            Ok(None)
        }
        Some(Follower::Or) => {
            let left = reduce(alloc, frames, operand, OR_STRENGTH)?;
            push(frames, Frame::Either(left))?;
            Ok(None)
        }
        Some(Follower::Close) => {
            let inner = reduce(alloc, frames, operand, OR_STRENGTH)?;
            pop(frames);
            Ok(Some(inner))
        }
        None => unreachable!(),
    }
}
