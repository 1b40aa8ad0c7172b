//! Lines that have no reply.
ghost use Rattle.std.specs.Prelude.{◌≡◌};
ghost use Rattle.lsys_spec.specs.Refusals.{is_passed_over};
ghost use Rattle.lsys_syntax.specs.Lines.{is_blank_line};

/// Whether a line is empty, blank or a comment.
pub(crate) fn is_without_command(line: &[u8]) -> bool
    ensures { result ≡ is_passed_over line.now }
{
    is_blank(line) || line.first() == Some(&b';')
}

fn is_blank(line: &[u8]) -> bool
    ensures { result ≡ is_blank_line line.now }
{
    for byte in line {
        if *byte != b' ' && *byte != b'\t' {
            return false;
        }
    }
    true
}
