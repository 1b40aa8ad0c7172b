//! Names in expressions: each is to be that of a formal.
ghost use Rattle.std.specs.Prelude.{◌≡◌, ◌≤◌, ℕ, length, true, bytes_eq};
ghost use Rattle.lsys_syntax.specs.Checks.{is_formal, is_unknown};
ghost use Rattle.lsys_syntax.specs.Pieces.{name_text};
ghost use Rattle.lsys_spec.specs.Values.{formal_place};
ghost use Rattle.lsys_text.specs.Tokens.{kind_of, name_of};
ghost use Rattle.lsys_expr.specs.Parts.{counted_from, names_of, stretch, unknown_in};

use lsys_text::{Name, Token, TokenKind};

/// The place of the first token from `from` up to `to` that is a name and no formal.
pub fn check_names(tokens: &[Token], from: usize, to: usize, formals: &[Name]) -> Option<usize>
    requires order { from ≤ to }
    requires within { to ≤ length tokens.now }
    ensures { result ≡ counted_from from (unknown_in formals.now (stretch from to tokens.now)) }
{
    let place = tokens[from..to]
        .iter()
        .position(|token| is_unknown(token.kind, formals))?;
    Some(from + place)
}

/// The place of a name among the formals.
pub(crate) fn formal_place(formals: &[Name], name: Name) -> u8
    requires few { length formals.now ≤ 256 }
    requires known { is_formal (names_of formals.now) (name_of name) ≡ true }
    ensures { result ≡ formal_place (names_of formals.now) (name_of name) }
{
    match formals.iter().position(|formal| same_text(*formal, name)) {
        Some(place) => place as u8,
        None => unreachable!(),
    }
}

fn is_unknown(kind: TokenKind, formals: &[Name]) -> bool
    ensures { result ≡ is_unknown (names_of formals.now) (kind_of kind) }
{
    match kind {
        TokenKind::Name(name) => !is_formal(formals, name),
        _ => false,
    }
}

/// Whether a name is one of the formals.
pub fn is_formal(formals: &[Name], name: Name) -> bool
    ensures { result ≡ is_formal (names_of formals.now) (name_of name) }
{
    formals.iter().any(|formal| same_text(*formal, name))
}

fn same_text(one: Name, other: Name) -> bool
    ensures { result ≡ bytes_eq (name_text (name_of one)) (name_text (name_of other)) }
{
    one == other
}
