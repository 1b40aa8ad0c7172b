//! A rule as it is written.
ghost use Rattle.std.specs.Prelude.{All, decimal, map};
ghost use Rattle.lsys_syntax.specs.Tokens.{NameText};
ghost use Rattle.lsys_syntax.specs.Pieces.{text_of, token_text};
ghost use Rattle.lsys_syntax.specs.Expressions.{Expr as Spelled, expr_pieces};
ghost use Rattle.lsys_syntax.specs.Rules.{formal_pieces};
ghost use Rattle.lsys_io.specs.Putting.{Puts};
ghost use Rattle.lsys_text.specs.Tokens.{kind_of, name_of, IsMarkByte};
ghost use Rattle.lsys_bodies.specs.Views.{expr_in, item_symbol, pattern_symbol, template_symbol};
ghost use Rattle.lsys_rules.specs.Showing.{kinds_text};
ghost use Rattle.lsys_rules.specs.RuleTexts.{body_text, expression_after, formal_text, homomorphism_line, labelled_line, left_text, production_line, right_text, successor_text};

use lsys_bodies::{Body, HomRule, Item, Pattern, Rule, Template};
use lsys_expr::Expr;
use lsys_io::{Buffered, Failed, Sink};
use lsys_module::{Notation, Shape, put_symbol, put_symbols};
use lsys_text::{Name, TokenKind, Word};

/// Puts a production on a line.
pub(crate) fn put_rule<K: Sink>(out: &mut Buffered, sink: &mut K, rule: &Rule) -> Result<(), Failed>
    ensures { Puts K.Sink sink out (production_line rule.now) result }
{
    out.put(sink, b"production ")?;
    put_word(out, sink, rule.table)?;
    out.put(sink, b" ")?;
    put_labelled(out, sink, rule.label, rule.body.get())
}

/// Puts a rule of the homomorphism on a line.
pub(crate) fn put_hom_rule<K: Sink>(
    out: &mut Buffered,
    sink: &mut K,
    rule: &HomRule,
) -> Result<(), Failed>
    ensures { Puts K.Sink sink out (homomorphism_line rule.now) result }
{
    out.put(sink, b"hom ")?;
    put_labelled(out, sink, rule.label, rule.body.get())
}

// Puts a label and its rule, up to the line's end.
fn put_labelled<K: Sink>(
    out: &mut Buffered,
    sink: &mut K,
    label: Word,
    body: &Body,
) -> Result<(), Failed>
    ensures { Puts K.Sink sink out (labelled_line label body.now) result }
{
    put_word(out, sink, label)?;
    out.put(sink, b": ")?;
    put_body(out, sink, body)?;
    out.put(sink, b"\n")
}

/// Puts a word.
pub(crate) fn put_word<K: Sink>(out: &mut Buffered, sink: &mut K, word: Word) -> Result<(), Failed>
    ensures { Puts K.Sink sink out word result }
{
    let text = word.text();
    out.put(sink, text.as_bytes())
}

fn put_body<K: Sink>(out: &mut Buffered, sink: &mut K, body: &Body) -> Result<(), Failed>
    ensures { Puts K.Sink sink out (body_text body.now) result }
{
    put_left(out, sink, &body.left)?;
    put_symbol::<K, Pattern, Name, Patterns>(out, sink, &body.predecessor, false)?;
    put_right(out, sink, &body.right)?;
    put_option(out, sink, b" : ", &body.condition)?;
    put_option(out, sink, b" @ ", &body.weight)?;
    out.put(sink, b" =>")?;
    put_successor(out, sink, &body.successor)
}

// Puts a left context and the mark after it, where there is one.
fn put_left<K: Sink>(out: &mut Buffered, sink: &mut K, patterns: &[Pattern]) -> Result<(), Failed>
    ensures { Puts K.Sink sink out (left_text patterns.now) result }
{
    if patterns.is_empty() {
        return Ok(());
    }
    put_symbols::<K, Pattern, Name, Patterns>(out, sink, patterns)?;
    out.put(sink, b" < ")
}

fn put_formal<K: Sink>(out: &mut Buffered, sink: &mut K, formal: &Name) -> Result<(), Failed>
    ensures { Puts K.Sink sink out (formal_text formal.now) result }
{
    let text = formal.text();
    out.put(sink, text.as_bytes())
}

// Puts a right context and the mark before it, where there is one.
fn put_right<K: Sink>(out: &mut Buffered, sink: &mut K, items: &[Item]) -> Result<(), Failed>
    ensures { Puts K.Sink sink out (right_text items.now) result }
{
    if items.is_empty() {
        return Ok(());
    }
    out.put(sink, b" > ")?;
    put_symbols::<K, Item, Name, Items>(out, sink, items)
}

// Puts a condition or a weight after its mark, where there is one.
fn put_option<K: Sink>(
    out: &mut Buffered,
    sink: &mut K,
    mark: &[u8],
    expr: &Option<Expr>,
) -> Result<(), Failed>
    ensures { Puts K.Sink sink out (expression_after mark.now expr.now) result }
{
    match expr {
        Some(expr) => {
            out.put(sink, mark)?;
            put_expr(out, sink, expr)
        }
        None => Ok(()),
    }
}

fn put_successor<K: Sink>(
    out: &mut Buffered,
    sink: &mut K,
    templates: &[Template],
) -> Result<(), Failed>
    ensures { Puts K.Sink sink out (successor_text templates.now) result }
{
    if templates.is_empty() {
        return Ok(());
    }
    out.put(sink, b" ")?;
    put_symbols::<K, Template, Expr, Templates>(out, sink, templates)
}

fn put_expr<K: Sink>(out: &mut Buffered, sink: &mut K, expr: &Expr) -> Result<(), Failed>
    ensures { Puts K.Sink sink out (text_of (expr_pieces expr.now.spelled)) result }
{
    put_kinds(out, sink, expr.kinds())
}

// Puts tokens of an expression, one directly after another.
fn put_kinds<K: Sink>(out: &mut Buffered, sink: &mut K, kinds: &[TokenKind]) -> Result<(), Failed>
    requires { All IsMarkByte kinds.now }
    ensures { Puts K.Sink sink out (kinds_text (map kind_of kinds.now)) result }
{
    for kind in kinds {
        put_kind(out, sink, *kind)?;
    }
    Ok(())
}

fn put_kind<K: Sink>(out: &mut Buffered, sink: &mut K, kind: TokenKind) -> Result<(), Failed>
    requires { IsMarkByte kind }
    ensures { Puts K.Sink sink out (token_text (kind_of kind)) result }
{
    match kind {
        TokenKind::Word(word) => put_word(out, sink, word),
        TokenKind::Name(name) => put_formal(out, sink, &name),
        TokenKind::Number(number) => put_decimal(out, sink, number),
        TokenKind::Mark(mark) => out.put(sink, &[mark]),
        TokenKind::Arrow => out.put(sink, b"=>"),
        TokenKind::Equal => out.put(sink, b"=="),
        TokenKind::Unequal => out.put(sink, b"!="),
        TokenKind::AtMost => out.put(sink, b"<="),
        TokenKind::AtLeast => out.put(sink, b">="),
        TokenKind::LongWord | TokenKind::BigNumber => Ok(()),
    }
}

/// Puts a number.
pub(crate) fn put_decimal<K: Sink>(
    out: &mut Buffered,
    sink: &mut K,
    number: u64,
) -> Result<(), Failed>
    ensures { Puts K.Sink sink out (decimal number) result }
{
    out.put_number(sink, i128::from(number))
}

// The modules of a left context, and the predecessor.
struct Patterns;

impl Notation<Pattern, Name> for Patterns {
    ghost Written = { NameText };

    ghost way = { record { symbol = pattern_symbol; param = name_of; print = formal_pieces } };

    fn shape(of: &Pattern) -> Shape<'_, Name> {
        Shape::Module(of.name, &of.formals)
    }

    fn put_param<K: Sink>(out: &mut Buffered, sink: &mut K, of: &Name) -> Result<(), Failed> {
        put_formal(out, sink, of)
    }
}

// The symbols of a right context.
struct Items;

impl Notation<Item, Name> for Items {
    ghost Written = { NameText };

    ghost way = { record { symbol = item_symbol; param = name_of; print = formal_pieces } };

    fn shape(of: &Item) -> Shape<'_, Name> {
        match of {
            Item::Push => Shape::Push,
            Item::Pop => Shape::Pop,
            Item::Pattern(pattern) => Patterns::shape(pattern),
        }
    }

    fn put_param<K: Sink>(out: &mut Buffered, sink: &mut K, of: &Name) -> Result<(), Failed> {
        put_formal(out, sink, of)
    }
}

// The symbols of a successor.
struct Templates;

impl Notation<Template, Expr> for Templates {
    ghost Written = { Spelled };

    ghost way = { record { symbol = template_symbol; param = expr_in; print = expr_pieces } };

    fn shape(of: &Template) -> Shape<'_, Expr> {
        match of {
            Template::Push => Shape::Push,
            Template::Pop => Shape::Pop,
            Template::Cut => Shape::Cut,
            Template::Module { name, params } => Shape::Module(*name, params),
        }
    }

    fn put_param<K: Sink>(out: &mut Buffered, sink: &mut K, of: &Expr) -> Result<(), Failed> {
        put_expr(out, sink, of)
    }
}
