//! Places in a text.

ghost use Rattle.std.specs.Prelude.{◌≡◌, ◌+◌, ◌*◌, ◌<◌, ◌≤◌, ◌^◌, length};
ghost use Rattle.tla_lexer.specs.Place as spec;

use tla_ast::Place;

/// The first place of a text.
pub const FIRST: Place = Place { line: 1, column: 1 };

fn moved(p: Place, byte: u8) -> Place
    requires line { p.line < 2 ^ 32 }
    requires column { p.column < 2 ^ 32 }
    ensures { result ≡ spec.moved p byte }
{
    if byte == b'\n' {
        Place {
            line: p.line + 1,
            column: 1,
        }
    } else if byte == b'\t' {
        Place {
            line: p.line,
            column: 8 * ((p.column + 7) / 8) + 1,
        }
    } else {
        Place {
            line: p.line,
            column: p.column + 1,
        }
    }
}

/// The place after these bytes.
pub fn after(mut p: Place, z: &[u8]) -> Place
    requires line { p.line + length z.now < 2 ^ 32 }
    requires column { p.column + 8 * length z.now < 2 ^ 32 }
    ensures value { result ≡ spec.after p z.now }
    ensures line { result.line ≤ p.line + length z.now }
    ensures column { result.column ≤ p.column + 8 * length z.now }
{
    for byte in z {
        p = moved(p, *byte);
    }
    p
}
