ghost use Rattle.std.specs.Prelude.{◌≡◌, map};
ghost use Rattle.std_names.specs.Operators as spec;

/// Where an operator stands to its operands.
#[derive(Clone, Copy, Debug, PartialEq, Eq)]
pub enum Fix {
    Prefix,
    Infix,
    Postfix,
}

/// The prefix operators: sign, low, high, and whether left-associative.
const PREFIX: [(&[u8], u64, u64, bool); 9] = [
    (b"~", 4, 4, false),
    (b"SUBSET", 8, 8, false),
    (b"UNION", 8, 8, false),
    (b"DOMAIN", 9, 9, false),
    (b"-", 12, 12, false),
    (b"UNCHANGED", 4, 15, false),
    (b"[]", 4, 15, false),
    (b"<>", 4, 15, false),
    (b"ENABLED", 4, 15, false),
];

/// The infix operators: sign, low, high, and whether left-associative.
const INFIX: [(&[u8], u64, u64, bool); 21] = [
    (b"=>", 1, 1, false),
    (b"<=>", 2, 2, false),
    (b"~>", 2, 2, false),
    (b"/\\", 3, 3, true),
    (b"\\/", 3, 3, true),
    (b"=", 5, 5, false),
    (b"#", 5, 5, false),
    (b"<", 5, 5, false),
    (b">", 5, 5, false),
    (b"<=", 5, 5, false),
    (b">=", 5, 5, false),
    (b"\\in", 5, 5, false),
    (b"\\notin", 5, 5, false),
    (b"\\subseteq", 5, 5, false),
    (b"\\cup", 8, 8, true),
    (b"\\cap", 8, 8, true),
    (b"\\", 8, 8, false),
    (b"..", 9, 9, false),
    (b"+", 10, 10, true),
    (b"-", 11, 11, true),
    (b"*", 13, 13, true),
];

/// The postfix operators: sign, low, high, and whether left-associative. The sign of `f[e]` is `[`, that of `r.h` is `.`.
const POSTFIX: [(&[u8], u64, u64, bool); 3] = [
    (b"'", 15, 15, false),
    (b"[", 16, 16, false),
    (b".", 17, 17, false),
];

fn row_in(table: &[(&[u8], u64, u64, bool)], sign: &[u8]) -> Option<(u64, u64, bool)>
    ensures { result ≡ spec.row_in (map (λ r. (r.0.now, r.1, r.2, r.3)) table.now) sign.now }
{
    for row in table {
        if row.0 == sign {
            return Some((row.1, row.2, row.3));
        }
    }
    None
}

/// The low and the high precedence of an operator, and whether it is left-associative. `sign` is the canonical spelling;
/// the postfix operators `f[e]` and `r.h` have the signs `[` and `.`. None exactly where the table has no such operator.
pub fn operator(sign: &[u8], fix: Fix) -> Option<(u64, u64, bool)>
    ensures { result ≡ spec.operator sign.now fix }
{
    match fix {
        Fix::Prefix => row_in(&PREFIX, sign),
        Fix::Infix => row_in(&INFIX, sign),
        Fix::Postfix => row_in(&POSTFIX, sign),
    }
}
