ghost use Rattle.std.specs.Prelude.{◌≡◌, map};
ghost use Rattle.std_names.specs.Libraries as spec;

/// The names of the library modules: module, name, arity. The last rows are the pragmas, which stand only as facts.
const NAMES: [(&[u8], &[u8], u64); 33] = [
    (b"Naturals", b"Nat", 0),
    (b"Naturals", b"+", 2),
    (b"Naturals", b"-", 2),
    (b"Naturals", b"*", 2),
    (b"Naturals", b"<", 2),
    (b"Naturals", b">", 2),
    (b"Naturals", b"<=", 2),
    (b"Naturals", b">=", 2),
    (b"Naturals", b"..", 2),
    (b"Integers", b"Nat", 0),
    (b"Integers", b"+", 2),
    (b"Integers", b"-", 2),
    (b"Integers", b"*", 2),
    (b"Integers", b"<", 2),
    (b"Integers", b">", 2),
    (b"Integers", b"<=", 2),
    (b"Integers", b">=", 2),
    (b"Integers", b"..", 2),
    (b"Integers", b"Int", 0),
    (b"Integers", b"-.", 1),
    (b"Sequences", b"Seq", 1),
    (b"Sequences", b"Len", 1),
    (b"Sequences", b"Append", 2),
    (b"Sequences", b"Head", 1),
    (b"Sequences", b"Tail", 1),
    (b"Sequences", b"SubSeq", 3),
    (b"FiniteSets", b"IsFiniteSet", 1),
    (b"FiniteSets", b"Cardinality", 1),
    (b"TLAPS", b"Zenon", 0),
    (b"TLAPS", b"SMT", 0),
    (b"TLAPS", b"Isa", 0),
    (b"TLAPS", b"Z3", 0),
    (b"TLAPS", b"PTL", 0),
];

fn arity_in(table: &[(&[u8], &[u8], u64)], module: &[u8], name: &[u8]) -> Option<u64>
    ensures { result ≡ spec.arity_in (map (λ r. (r.0.now, r.1.now, r.2)) table.now) «module».now name.now }
{
    for row in table {
        if row.0 == module && row.1 == name {
            return Some(row.2);
        }
    }
    None
}

/// The arity of a name that a library module gives. Operators go by their canonical spelling, the prefix `-` of Integers by
/// `-.`. The pragmas of TLAPS are names of arity 0. None exactly where no library module of this name gives the name.
pub fn library(module: &[u8], name: &[u8]) -> Option<u64>
    ensures { result ≡ spec.library «module».now name.now }
{
    arity_in(&NAMES, module, name)
}

fn has_row(table: &[(&[u8], &[u8], u64)], module: &[u8]) -> bool
    ensures { result ≡ spec.has_row (map (λ r. (r.0.now, r.1.now, r.2)) table.now) «module».now }
{
    for row in table {
        if row.0 == module {
            return true;
        }
    }
    false
}

/// Whether a library module has this name: Naturals, Integers, Sequences, FiniteSets and TLAPS have.
#[tactic(auto, unfolding(crate::specs::Libraries::is_library, crate::specs::Libraries::names))]
pub fn is_library(module: &[u8]) -> bool
    ensures { result ≡ spec.is_library «module».now }
{
    has_row(&NAMES, module)
}
