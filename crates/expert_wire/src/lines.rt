//! Which lines of a text are skipped.

ghost use Rattle.std.specs.Prelude.{◌≡◌};
ghost use Rattle.expert_wire.specs.Lines.{is_skipped};

use text_pieces::is_blank_line;

/// Whether the line is blank or begins with `#`.
pub fn is_skipped(line: &[u8]) -> bool
    ensures { result ≡ is_skipped line.now }
{
    is_blank_line(line) || line.first() == Some(&b'#')
}
