//! The tokens of a line.
ghost use Rattle.std.specs.Prelude.{◌≤◌, All};
ghost use Rattle.lsys_syntax.specs.Limits.{most_line_bytes};
ghost use Rattle.lsys_syntax.specs.Sentences.{AreTokens};
ghost use Rattle.lsys_text.specs.Tokens.{kind_row, LiesInLine};
ghost use Rattle.lsys_reading.specs.Forms.{tokens-prop};

use lsys_text::Token;

/// The tokens of a line, in order, each of its form.
#[derive(Drop)]
pub struct LineTokens {
    pub(crate) tokens: Vec<Token>,
    /// How many bytes the line has, without its LF and the CR before it.
    pub(crate) bytes: u32,
    ghost forms: { AreTokens (kind_row tokens.items) } by { tokens-prop (kind_row tokens.items) },
    ghost placed: { All (LiesInLine bytes) tokens.items },
    ghost short: { bytes ≤ most_line_bytes },
}
