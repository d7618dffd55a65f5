use super::*;

#[test]
fn operators_of_the_table(rt: HostRuntime) {
    for (sign, fix, row) in [
        (b"=>".as_slice(), Fix::Infix, Some((1, 1, false))),
        (b"~", Fix::Prefix, Some((4, 4, false))),
        (b"[]", Fix::Prefix, Some((4, 15, false))),
        (b"\\subseteq", Fix::Infix, Some((5, 5, false))),
        (b"-", Fix::Infix, Some((11, 11, true))),
        (b"-", Fix::Prefix, Some((12, 12, false))),
        (b".", Fix::Postfix, Some((17, 17, false))),
        (b"~", Fix::Infix, None),
        (b"=<", Fix::Infix, None),
        (b"", Fix::Postfix, None),
    ] {
        assert!(rt; operator(sign, fix) == row, "{sign:?}");
    }
}

#[test]
fn names_of_the_library_modules(rt: HostRuntime) {
    for (module, name, arity) in [
        (b"Naturals".as_slice(), b"..".as_slice(), Some(2)),
        (b"Naturals", b"Int", None),
        (b"Naturals", b"-.", None),
        (b"Integers", b"-.", Some(1)),
        (b"Integers", b"Nat", Some(0)),
        (b"Sequences", b"SubSeq", Some(3)),
        (b"Sequences", b"Nat", None),
        (b"Sequences", b"SelectSeq", None),
        (b"FiniteSets", b"Cardinality", Some(1)),
        (b"TLAPS", b"Z3", Some(0)),
        (b"TLAPS", b"GroundEq", None),
        (b"Lock", b"Nat", None),
    ] {
        assert!(rt; library(module, name) == arity, "{module:?} {name:?}");
    }
}
