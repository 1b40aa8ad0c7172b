//! What an operand is part of, while an expression is read.
ghost use Rattle.std.specs.Prelude.{◌≡◌, ◌∷◌, ◌<◌, IfOk, IfSome, OnOk, true, drop, vec_len};
ghost use Rattle.std.specs.Option.{option_map, option_copied};
ghost use Rattle.lsys_text.specs.Tokens.{kind_of, mark_kind};
ghost use Rattle.lsys_expr.specs.Frames.{follower, left_strength, operator_strength, strength, enclosed};
ghost use Rattle.lsys_expr.specs.Stacks.{frame_of, frames_of, follower_of};
ghost use Rattle.lsys_expr.specs.Trees.{operator_of, tree_of};
ghost use Rattle.lsys_expr.specs.ReadSteps.{IsReduced, TakesStronger, is_weaker};

use crate::operators::Operator;
use crate::tree::Tree;
use lsys_text::TokenKind;
use std::alloc::{AllocError, Global};

// How strongly each operator binds, from the weakest on. Parentheses hold what is in them less.
pub(crate) const OR_STRENGTH: u8 = 1;

pub(crate) const AND_STRENGTH: u8 = 2;

const COMPARISON_STRENGTH: u8 = 3;

const SUM_STRENGTH: u8 = 4;

const PRODUCT_STRENGTH: u8 = 5;

const PREFIX_STRENGTH: u8 = 6;

/// What an operand is part of, with the tree that stands before it there.
#[derive(Drop)]
pub(crate) enum Frame {
    Negation,
    Inversion,
    Binary(Operator, Tree),
    Both(Tree),
    Either(Tree),
    Parentheses,
}

/// What may stand after an operand.
#[derive(Clone, Copy, PartialEq, Eq, Debug)]
pub(crate) enum Follower {
    Operator(Operator),
    And,
    Or,
    Close,
}

impl Frame {
    /// How strongly it holds its operand.
    fn strength(&self) -> u8
        ensures { result ≡ strength (frame_of self.now) }
    {
        match self {
            Frame::Negation | Frame::Inversion => PREFIX_STRENGTH,
            Frame::Binary(operator, _) => operator_strength(*operator),
            Frame::Both(_) => AND_STRENGTH,
            Frame::Either(_) => OR_STRENGTH,
            Frame::Parentheses => 0,
        }
    }

    /// The whole that its operand completes.
    fn around(self, alloc: Global, operand: Tree) -> Result<Tree, AllocError>
        ensures { IfOk result (λ tree. tree_of tree ≡ enclosed (frame_of self) (tree_of operand)) }
    {
        if let Frame::Parentheses = self {
            return Ok(operand);
        }
        let operand = Box::new(alloc, operand)?;
        match self {
            Frame::Negation => Ok(Tree::Negation(operand)),
            Frame::Inversion => Ok(Tree::Inversion(operand)),
            Frame::Binary(operator, left) => {
                Ok(Tree::Binary(operator, Box::new(alloc, left)?, operand))
            }
            Frame::Both(left) => Ok(Tree::Both(Box::new(alloc, left)?, operand)),
            Frame::Either(left) => Ok(Tree::Either(Box::new(alloc, left)?, operand)),
            Frame::Parentheses => unreachable!(),
        }
    }
}

/// What the token after an operand is to it.
pub(crate) fn what_follows(kind: TokenKind) -> Option<Follower>
    ensures { option_map follower_of result ≡ follower (kind_of kind) }
{
    match kind {
        TokenKind::Equal => Some(Follower::Operator(Operator::Equal)),
        TokenKind::Unequal => Some(Follower::Operator(Operator::Unequal)),
        TokenKind::AtMost => Some(Follower::Operator(Operator::AtMost)),
        TokenKind::AtLeast => Some(Follower::Operator(Operator::AtLeast)),
        TokenKind::Mark(byte) => mark_that_follows(byte),
        _ => None,
    }
}

fn mark_that_follows(byte: u8) -> Option<Follower>
    ensures { option_map follower_of result ≡ follower (mark_kind byte) }
{
    match byte {
        b'^' => Some(Follower::Operator(Operator::Power)),
        b'*' => Some(Follower::Operator(Operator::Multiply)),
        b'/' => Some(Follower::Operator(Operator::Divide)),
        b'%' => Some(Follower::Operator(Operator::Remainder)),
        b'+' => Some(Follower::Operator(Operator::Add)),
        b'-' => Some(Follower::Operator(Operator::Subtract)),
        b'<' => Some(Follower::Operator(Operator::Less)),
        b'>' => Some(Follower::Operator(Operator::Greater)),
        b'&' => Some(Follower::And),
        b'|' => Some(Follower::Or),
        b')' => Some(Follower::Close),
        _ => None,
    }
}

// A power binds as a prefix does, so that `-a^b` and `a^-b` group from the right.
fn operator_strength(operator: Operator) -> u8
    ensures { result ≡ operator_strength (operator_of operator) }
{
    match operator {
        Operator::Power => PREFIX_STRENGTH,
        Operator::Multiply | Operator::Divide | Operator::Remainder => PRODUCT_STRENGTH,
        Operator::Add | Operator::Subtract => SUM_STRENGTH,
        Operator::Equal
        | Operator::Unequal
        | Operator::Less
        | Operator::AtMost
        | Operator::Greater
        | Operator::AtLeast => COMPARISON_STRENGTH,
    }
}

/// The least strength of the frames that an operator takes for its left side. A power takes none,
/// since it groups to the right.
pub(crate) fn left_strength(operator: Operator) -> u8
    ensures { result ≡ left_strength (operator_of operator) }
{
    match operator {
        Operator::Power => PREFIX_STRENGTH + 1,
        _ => operator_strength(operator),
    }
}

/// An operand with the innermost frames of at least this strength.
pub(crate) fn reduce(
    alloc: Global,
    frames: &mut Vec<Frame>,
    operand: Tree,
    least: u8,
) -> Result<Tree, AllocError>
    ensures { IfOk result (IsReduced least operand frames.old.items frames.new.items) }
{
    let mut tree = operand;
    while let Some(frame) = take_stronger(frames, least) {
        tree = frame.around(alloc, tree)?;
    }
    Ok(tree)
}

fn take_stronger(frames: &mut Vec<Frame>, least: u8) -> Option<Frame>
    ensures taken { TakesStronger least frames.old.items frames.new.items result }
    ensures fewer { IfSome result (λ _. vec_len frames.new < vec_len frames.old) }
{
    if is_weak(frames.last(), least) {
        return None;
    }
    frames.pop()
}

fn is_weak(innermost: Option<&Frame>, least: u8) -> bool
    ensures { result ≡ is_weaker least (option_copied innermost.entry) }
{
    match innermost {
        Some(frame) => frame.strength() < least,
        None => true,
    }
}

/// Puts a frame innermost.
pub(crate) fn push(frames: &mut Vec<Frame>, frame: Frame) -> Result<(), AllocError>
    ensures { OnOk result (frames_of frames.new.items ≡ frame_of frame ∷ frames_of frames.old.items) }
{
    frames.push(frame)?;
    Ok(())
}

/// Takes the innermost frame off.
pub(crate) fn pop(frames: &mut Vec<Frame>)
    ensures { frames_of frames.new.items ≡ drop 1 (frames_of frames.old.items) }
{
    let _ = frames.pop();
}
