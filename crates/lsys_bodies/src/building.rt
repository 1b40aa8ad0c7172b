//! Rules built from the places of their parts.
ghost use Rattle.std.specs.Prelude.{◌≡◌, ◌≤◌, length, map, IfOk};
ghost use Rattle.std.specs.Option.{option_map};
ghost use Rattle.lsys_text.specs.Tokens.{kind_row, name_of};
ghost use Rattle.lsys_reading.specs.Spans.{expr_at, option_at, IsSpan, AreSpans, ConditionIsSpan};
ghost use Rattle.lsys_reading.specs.Images.{ImageIsAt, ImagesAreAt};
ghost use Rattle.lsys_reading.specs.RuleLines.{rule_at, IsRuleLine};
ghost use Rattle.lsys_bodies.specs.Views.{expr_in, tree_in, template_symbol, template_of, as_rule, as_production, homomorphism_of};
ghost use Rattle.lsys_bodies.specs.Building.{IsKnown, AreKnown, OptionIsKnown, SymbolIsKnown, StringIsKnown, CanBuild, production_at, homomorphism_at};
ghost use Rattle.lsys_bodies.specs.BuiltParts.{image_in, images_in, optional_tree, span_tree, template_at, MeanImages, expressions_in, optional_span_tree, trees_at};

use crate::body::{Body, SharedBody, Template};
use crate::patterns::{all_formals, left_context, pattern, right_context};
use crate::rule::{HomRule, Rule};
use lsys_expr::{Expr, build_expr};
use lsys_reading::{ExprSpan, ImageSymbol, LabeledRule, RuleLine};
use lsys_text::{Name, Token, Word};
use std::alloc::{AllocError, Global};

/// The production that a line spells, which an edit has checked. It is of the table `main` where none is written.
///
/// # Errors
///
/// Out of memory alone.
pub fn build_rule(
    alloc: Global,
    tokens: &[Token],
    labeled: &LabeledRule,
) -> Result<Rule, AllocError>
    requires line { IsRuleLine (kind_row tokens.now) labeled.now.rule }
    requires checked { CanBuild (rule_at (kind_row tokens.now) labeled.now.rule) }
    ensures { IfOk result (λ r. as_production r ≡ production_at (kind_row tokens.now) labeled.now) }
{
    Ok(Rule {
        table: labeled.table.unwrap_or(Word::from_text(b"main")),
        label: labeled.label,
        body: build_body(alloc, tokens, &labeled.rule)?,
    })
}

/// The rule of the homomorphism that a line spells, which an edit has checked.
///
/// # Errors
///
/// Out of memory alone.
pub fn build_hom_rule(
    alloc: Global,
    tokens: &[Token],
    labeled: &LabeledRule,
) -> Result<HomRule, AllocError>
    requires line { IsRuleLine (kind_row tokens.now) labeled.now.rule }
    requires checked { CanBuild (rule_at (kind_row tokens.now) labeled.now.rule) }
    ensures { IfOk result (λ r. homomorphism_of r ≡ homomorphism_at (kind_row tokens.now) labeled.now) }
{
    Ok(HomRule {
        label: labeled.label,
        body: build_body(alloc, tokens, &labeled.rule)?,
    })
}

// The body of the rule of a line.
fn build_body(alloc: Global, tokens: &[Token], line: &RuleLine) -> Result<SharedBody, AllocError>
    requires line { IsRuleLine (kind_row tokens.now) line.now }
    requires checked { CanBuild (rule_at (kind_row tokens.now) line.now) }
    ensures { IfOk result (λ b. as_rule b ≡ rule_at (kind_row tokens.now) line.now) }
{
    let formals = all_formals(alloc, line)?;
    let body = Body {
        left: left_context(alloc, &line.left)?,
        predecessor: pattern(alloc, &line.predecessor)?,
        right: right_context(alloc, &line.right)?,
        condition: optional(alloc, tokens, line.condition, &formals)?,
        weight: optional(alloc, tokens, line.weight, &formals)?,
        successor: templates(alloc, tokens, &line.successor, &formals)?,
    };
    SharedBody::new(alloc, body)
}

// A condition or a weight, where there is one.
fn optional(
    alloc: Global,
    tokens: &[Token],
    span: Option<ExprSpan>,
    formals: &[Name],
) -> Result<Option<Expr>, AllocError>
    requires span { ConditionIsSpan (kind_row tokens.now) span }
    requires known { OptionIsKnown (map name_of formals.now) (option_at (kind_row tokens.now) span) }
    requires few { length formals.now ≤ 256 }
    ensures spelled { IfOk result (λ o. option_map expr_in o ≡ option_at (kind_row tokens.now) span) }
    ensures tree { IfOk result (λ o. optional_tree o ≡ optional_span_tree formals.now tokens.now span) }
{
    match span {
        Some(span) => Ok(Some(expression(alloc, tokens, span, formals)?)),
        None => Ok(None),
    }
}

fn templates(
    alloc: Global,
    tokens: &[Token],
    images: &[ImageSymbol],
    formals: &[Name],
) -> Result<Vec<Template>, AllocError>
    requires spans { ImagesAreAt (kind_row tokens.now) images.now }
    requires known { StringIsKnown (map name_of formals.now) (images_in tokens.now images.now) }
    requires few { length formals.now ≤ 256 }
    ensures spelled { IfOk result (λ v. map template_symbol v.items ≡ images_in tokens.now images.now) }
    ensures trees { IfOk result (λ v. MeanImages formals.now tokens.now images.now v.items) }
{
    let mut templates = Vec::with_capacity(alloc, images.len())?;
    for image in images {
        templates.push(template(alloc, tokens, image, formals)?)?;
    }
    Ok(templates)
}

fn template(
    alloc: Global,
    tokens: &[Token],
    image: &ImageSymbol,
    formals: &[Name],
) -> Result<Template, AllocError>
    requires spans { ImageIsAt (kind_row tokens.now) image.now }
    requires known { SymbolIsKnown (map name_of formals.now) (image_in tokens.now image.now) }
    requires few { length formals.now ≤ 256 }
    ensures spelled { IfOk result (λ t. template_symbol t ≡ image_in tokens.now image.now) }
    ensures trees { IfOk result (λ t. template_of t ≡ template_at formals.now tokens.now image.now) }
{
    match image {
        ImageSymbol::Module(module) => Ok(Template::Module {
            name: module.name,
            params: params(alloc, tokens, &module.params, formals)?,
        }),
        ImageSymbol::Push => Ok(Template::Push),
        ImageSymbol::Pop => Ok(Template::Pop),
        ImageSymbol::Cut => Ok(Template::Cut),
    }
}

fn params(
    alloc: Global,
    tokens: &[Token],
    spans: &[ExprSpan],
    formals: &[Name],
) -> Result<Vec<Expr>, AllocError>
    requires spans { AreSpans (kind_row tokens.now) spans.now }
    requires known { AreKnown (map name_of formals.now) (expressions_in tokens.now spans.now) }
    requires few { length formals.now ≤ 256 }
    ensures spelled { IfOk result (λ v. map expr_in v.items ≡ expressions_in tokens.now spans.now) }
    ensures trees { IfOk result (λ v. map tree_in v.items ≡ trees_at formals.now tokens.now spans.now) }
{
    let mut params = Vec::with_capacity(alloc, spans.len())?;
    for span in spans {
        params.push(expression(alloc, tokens, *span, formals)?)?;
    }
    Ok(params)
}

fn expression(
    alloc: Global,
    tokens: &[Token],
    span: ExprSpan,
    formals: &[Name],
) -> Result<Expr, AllocError>
    requires span { IsSpan (kind_row tokens.now) span }
    requires known { IsKnown (map name_of formals.now) (expr_at (kind_row tokens.now) span) }
    requires few { length formals.now ≤ 256 }
    ensures spelled { IfOk result (λ x. x.spelled ≡ expr_at (kind_row tokens.now) span) }
    ensures tree { IfOk result (λ x. x.tree ≡ span_tree formals.now tokens.now span) }
{
    build_expr(alloc, tokens, span.from, span.to, formals)
}
