//! Nested comments.

ghost use Rattle.std.specs.Prelude.{◌≡◌, ◌≤◌, length, IfSome};
ghost use Rattle.tla_lexer.specs.Comments as spec;

/// Whether these bytes are `(*`.
pub fn opens(b: u8, c: u8) -> bool
    ensures { result ≡ spec.opens b c }
{
    b == b'(' && c == b'*'
}

fn closes(b: u8, c: u8) -> bool
    ensures { result ≡ spec.closes b c }
{
    b == b'*' && c == b')'
}

/// The length of the rest of a comment behind its first `(*`, with the `*)` that closes it.
pub fn rest_len(z: &[u8]) -> Option<usize>
    ensures value { result ≡ spec.rest_len 0 z.now }
    ensures within { IfSome result (λ n. n ≤ length z.now) }
{
    let mut depth: usize = 0;
    let mut len: usize = 0;
    while len + 1 < z.len() {
        let (b, c) = (z[len], z[len + 1]);
        if opens(b, c) {
            depth += 1;
            len += 2;
        } else if closes(b, c) {
            len += 2;
            if depth == 0 {
                return Some(len);
            }
            depth -= 1;
        } else {
            len += 1;
        }
    }
    None
}
