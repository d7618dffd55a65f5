//! What is loaded from a shelf in memory, as tables: the modules in their order, or why the loading stops.

use core_expr::Text;
use module_shelf::{LoadFault, load};
use std::alloc::Global;
use std::test::Fail;
use tla_ast::{Loaded, Place};
use tla_io::MemShelf;

/// A module on a shelf: its name and what follows its header, or its whole text where that begins with a header.
type Entry = (&'static [u8], &'static [u8]);

/// What a case wants.
#[derive(Clone, Copy, Debug)]
enum Want {
    /// These modules, with a space behind each name.
    Loads(&'static [u8]),
    NotFound(&'static [u8]),
    ReadFault,
    /// The module, the line and the column, and the text of the kind.
    Refused(&'static [u8], u64, u64, &'static [u8]),
}

/// A case: the root, the numbers of the fetches that fail, the shelf, and what it wants.
type Case = (&'static [u8], &'static [u64], &'static [Entry], Want);

const CASES: [Case; 42] = [
    (b"A", &[], &[(b"A", b"")], Want::Loads(b"A ")),
    (
        b"A",
        &[],
        &[(b"A", b"EXTENDS B"), (b"B", b"EXTENDS C"), (b"C", b"")],
        Want::Loads(b"C B A "),
    ),
    (
        b"A",
        &[],
        &[(b"A", b"EXTENDS B, C"), (b"B", b""), (b"C", b"")],
        Want::Loads(b"B C A "),
    ),
    (
        b"A",
        &[],
        &[
            (b"A", b"EXTENDS B, C"),
            (b"B", b"EXTENDS D"),
            (b"C", b"EXTENDS D"),
            (b"D", b""),
        ],
        Want::Loads(b"D B C A "),
    ),
    (
        b"A",
        &[],
        &[(b"A", b"EXTENDS C, B"), (b"B", b""), (b"C", b"EXTENDS B")],
        Want::Loads(b"B C A "),
    ),
    (
        b"A",
        &[],
        &[(b"A", b"EXTENDS B, C"), (b"B", b"EXTENDS C"), (b"C", b"")],
        Want::Loads(b"C B A "),
    ),
    (
        b"A",
        &[],
        &[(b"A", b"EXTENDS B, B"), (b"B", b"")],
        Want::Loads(b"B A "),
    ),
    (
        b"B",
        &[],
        &[(b"A", b"EXTENDS B"), (b"B", b"")],
        Want::Loads(b"B "),
    ),
    (
        b"A",
        &[],
        &[
            (b"A", b"EXTENDS Naturals, B, TLAPS"),
            (b"B", b"EXTENDS Naturals"),
        ],
        Want::Loads(b"B A "),
    ),
    (
        b"A",
        &[],
        &[(
            b"A",
            b"EXTENDS Naturals, Integers, Sequences, FiniteSets, TLAPS",
        )],
        Want::Loads(b"A "),
    ),
    (
        b"A",
        &[],
        &[(b"A", b"EXTENDS Naturals"), (b"Naturals", b"EXTENDS A")],
        Want::Loads(b"A "),
    ),
    (
        b"A",
        &[],
        &[(b"A", b"EXTENDS Reals")],
        Want::NotFound(b"Reals"),
    ),
    (
        b"Naturals",
        &[],
        &[(b"Naturals", b"")],
        Want::Loads(b"Naturals "),
    ),
    (
        b"Naturals",
        &[],
        &[(b"Naturals", b"EXTENDS Naturals")],
        Want::Loads(b"Naturals "),
    ),
    (
        b"TLAPS",
        &[],
        &[(b"TLAPS", b"EXTENDS A"), (b"A", b"EXTENDS TLAPS")],
        Want::Loads(b"A TLAPS "),
    ),
    (b"Naturals", &[], &[], Want::NotFound(b"Naturals")),
    (
        b"A",
        &[],
        &[(b"A", b"EXTENDS A")],
        Want::Refused(b"A", 2, 9, b"Cycle A"),
    ),
    (
        b"A",
        &[],
        &[(b"A", b"EXTENDS B"), (b"B", b"EXTENDS A")],
        Want::Refused(b"B", 2, 9, b"Cycle A"),
    ),
    (
        b"A",
        &[],
        &[
            (b"A", b"EXTENDS B"),
            (b"B", b"EXTENDS C"),
            (b"C", b"EXTENDS A"),
        ],
        Want::Refused(b"C", 2, 9, b"Cycle A"),
    ),
    (
        b"A",
        &[],
        &[
            (b"A", b"EXTENDS B"),
            (b"B", b"EXTENDS D, C"),
            (b"C", b"EXTENDS D, B"),
            (b"D", b""),
        ],
        Want::Refused(b"C", 2, 12, b"Cycle B"),
    ),
    (
        b"A",
        &[1],
        &[(b"A", b"EXTENDS A")],
        Want::Refused(b"A", 2, 9, b"Cycle A"),
    ),
    (
        b"A",
        &[],
        &[(b"A", b"EXTENDS A, B")],
        Want::Refused(b"A", 2, 9, b"Cycle A"),
    ),
    (b"A", &[], &[(b"A", b"EXTENDS B, A")], Want::NotFound(b"B")),
    (b"A", &[], &[], Want::NotFound(b"A")),
    (b"A", &[], &[(b"A", b"EXTENDS B")], Want::NotFound(b"B")),
    (
        b"A",
        &[],
        &[(b"A", b"EXTENDS B, D"), (b"B", b"EXTENDS C")],
        Want::NotFound(b"C"),
    ),
    (b"a b", &[], &[(b"a b", b"")], Want::NotFound(b"a b")),
    (
        b"A",
        &[],
        &[(b"A", b"---- MODULE B ----\n====")],
        Want::Refused(b"A", 1, 1, b"NameMismatch"),
    ),
    (
        b"A",
        &[],
        &[(b"A", b"EXTENDS B"), (b"B", b"---- MODULE C ----\n====")],
        Want::Refused(b"B", 1, 1, b"NameMismatch"),
    ),
    (
        b"A",
        &[],
        &[(b"A", b"---- MODULE B ----\nCONSTANT\n====")],
        Want::Refused(b"A", 3, 1, b"Expected"),
    ),
    (
        b"A",
        &[],
        &[(b"A", b"---- MODULE B ----\nEXTENDS A\n====")],
        Want::Refused(b"A", 1, 1, b"NameMismatch"),
    ),
    (
        b"A",
        &[],
        &[(b"A", b"EXTENDS B"), (b"B", b"CONSTANT")],
        Want::Refused(b"B", 3, 1, b"Expected"),
    ),
    (
        b"A",
        &[],
        &[(b"A", b"EXTENDS B"), (b"B", b"_1")],
        Want::Refused(b"B", 2, 1, b"BadByte"),
    ),
    (
        b"A",
        &[],
        &[(b"A", b"EXTENDS B\n_1")],
        Want::Refused(b"A", 3, 1, b"BadByte"),
    ),
    (
        b"A",
        &[],
        &[(b"A", b"EXTENDS B, C"), (b"B", b"EXTENDS C"), (b"C", b"x")],
        Want::Refused(b"C", 3, 1, b"Expected"),
    ),
    (
        b"A",
        &[],
        &[(b"A", b"EXTENDS B, C"), (b"B", b"x"), (b"C", b"_1")],
        Want::Refused(b"B", 3, 1, b"Expected"),
    ),
    (
        b"A",
        &[0],
        &[(b"A", b"EXTENDS B"), (b"B", b"EXTENDS C"), (b"C", b"")],
        Want::ReadFault,
    ),
    (
        b"A",
        &[1],
        &[(b"A", b"EXTENDS B"), (b"B", b"EXTENDS C"), (b"C", b"")],
        Want::ReadFault,
    ),
    (
        b"A",
        &[2],
        &[(b"A", b"EXTENDS B"), (b"B", b"EXTENDS C"), (b"C", b"")],
        Want::ReadFault,
    ),
    (
        b"A",
        &[3],
        &[(b"A", b"EXTENDS B"), (b"B", b"EXTENDS C"), (b"C", b"")],
        Want::Loads(b"C B A "),
    ),
    (
        b"A",
        &[3],
        &[
            (b"A", b"EXTENDS B, C"),
            (b"B", b"EXTENDS D"),
            (b"C", b"EXTENDS D"),
            (b"D", b""),
        ],
        Want::ReadFault,
    ),
    (
        b"A",
        &[4],
        &[
            (b"A", b"EXTENDS B, C"),
            (b"B", b"EXTENDS D"),
            (b"C", b"EXTENDS D"),
            (b"D", b""),
        ],
        Want::Loads(b"D B C A "),
    ),
];

/// The text of a module.
fn text_of(alloc: Global, name: &[u8], body: &[u8]) -> Result<Vec<u8>, Fail> {
    if body.starts_with(b"----") {
        return Ok(Vec::from_slice(alloc, body)?);
    }
    let mut text = Vec::from_slice(alloc, b"---- MODULE ")?;
    text.extend_from_slice(name)?;
    text.extend_from_slice(b" ----\n")?;
    text.extend_from_slice(body)?;
    text.extend_from_slice(b"\n====\n")?;
    Ok(text)
}

/// The names of modules, with a space behind each.
fn names_of(alloc: Global, loaded: &Loaded) -> Result<Vec<u8>, Fail> {
    let mut names = Vec::new(alloc);
    for module in loaded.modules.as_slice() {
        names.extend_from_slice(module.name.bytes())?;
        names.push(b' ')?;
    }
    Ok(names)
}

/// Whether a loading ends so.
fn is_wanted(alloc: Global, ended: &Result<Loaded, LoadFault>, want: &Want) -> Result<bool, Fail> {
    match (ended, want) {
        (Ok(loaded), Want::Loads(names)) => { Ok(names_of(alloc, loaded)?.as_slice() == *names) }
        (Err(LoadFault::NotFound(found)), Want::NotFound(name)) => Ok(found.bytes() == *name),
        (Err(LoadFault::ReadFault), Want::ReadFault) => Ok(true),
        (
            Err(
                LoadFault::Refused {
                    module,
                    place,
                    kind,
                },
            ),
            Want::Refused(name, line, column, text),
        ) => {
            let at = Place {
                line: *line,
                column: *column,
            };
            Ok(module.bytes() == *name && *place == at && kind.text(alloc)?.bytes() == *text)
        }
        _ => Ok(false),
    }
}

/// The shelf of these modules, with these failing fetches.
fn shelf_of(alloc: Global, entries: &[Entry], fails: &[u64]) -> Result<MemShelf, Fail> {
    let mut list = Vec::new(alloc);
    for (name, body) in entries {
        list.push((Text::of(alloc, name)?, text_of(alloc, name, body)?))?;
    }
    Ok(MemShelf::new(list, Vec::from_slice(alloc, fails)?))
}

/// The number of the first of these cases that ends otherwise than it should.
fn first_wrong(alloc: Global, cases: &[Case]) -> Result<Option<usize>, Fail> {
    for (number, (root, fails, entries, want)) in cases.iter().enumerate() {
        let mut shelf = shelf_of(alloc, entries, fails)?;
        let root = Text::of(alloc, root)?;
        let ended = load(alloc, &mut shelf, &root, None);
        if !is_wanted(alloc, &ended, want)? {
            return Ok(Some(number));
        }
    }
    Ok(None)
}

#[test]
fn shelves(rt: HostRuntime) -> Result<(), Fail> {
    assert_eq!(rt; first_wrong(rt.alloc(), &CASES)?, None);
    Ok(())
}

/// Roots whose text is given: the text, the numbers of the fetches that fail, and what is wanted of a shelf with A and B.
const GIVEN: [(&[u8], &[u64], Want); 6] = [
    (b"", &[0], Want::Loads(b"A ")),
    (b"EXTENDS B", &[], Want::Loads(b"B A ")),
    (b"EXTENDS B", &[0], Want::ReadFault),
    (b"EXTENDS C", &[], Want::Refused(b"C", 2, 9, b"Cycle A")),
    (
        b"---- MODULE B ----\n====",
        &[],
        Want::Refused(b"A", 1, 1, b"NameMismatch"),
    ),
    (b"CONSTANT", &[], Want::Refused(b"A", 3, 1, b"Expected")),
];

#[test]
fn given_roots(rt: HostRuntime) -> Result<(), Fail> {
    let alloc = rt.alloc();
    let entries: [Entry; 3] = [
        (b"A", b"EXTENDS Missing"),
        (b"B", b""),
        (b"C", b"EXTENDS A"),
    ];
    for (body, fails, want) in GIVEN.iter() {
        let mut shelf = shelf_of(alloc, &entries, fails)?;
        let root = Text::of(alloc, b"A")?;
        let text = text_of(alloc, b"A", body)?;
        let ended = load(alloc, &mut shelf, &root, Some(text));
        assert!(rt; is_wanted(alloc, &ended, want)?, "{body:?} {ended:?}");
    }
    Ok(())
}

/// The name of a module by its number, of two digits.
fn numbered(alloc: Global, number: u64) -> Result<Vec<u8>, Fail> {
    let mut name = Vec::from_slice(alloc, b"M")?;
    name.push(b'0' + ((number / 10) % 10) as u8)?;
    name.push(b'0' + (number % 10) as u8)?;
    Ok(name)
}

/// A chain of modules from number 0, each of which but the last extends the next one and then `also`.
fn chain(alloc: Global, last: u64, also: &[u8]) -> Result<MemShelf, Fail> {
    let mut list = Vec::new(alloc);
    for number in 0..last {
        let name = numbered(alloc, number)?;
        let mut body = Vec::from_slice(alloc, b"EXTENDS ")?;
        body.extend_from_slice(numbered(alloc, number + 1)?.as_slice())?;
        body.extend_from_slice(also)?;
        let text = text_of(alloc, name.as_slice(), body.as_slice())?;
        list.push((Text::from_vec(name), text))?;
    }
    let name = numbered(alloc, last)?;
    let text = text_of(alloc, name.as_slice(), b"")?;
    list.push((Text::from_vec(name), text))?;
    Ok(MemShelf::new(list, Vec::new(alloc)))
}

/// A module that extends so many others, and those.
fn star(alloc: Global, others: u64) -> Result<MemShelf, Fail> {
    let mut list = Vec::new(alloc);
    let mut body = Vec::from_slice(alloc, b"EXTENDS Naturals")?;
    for number in 0..others {
        let name = numbered(alloc, number + 1)?;
        body.extend_from_slice(b",\n")?;
        body.extend_from_slice(name.as_slice())?;
        let text = text_of(alloc, name.as_slice(), b"")?;
        list.push((Text::from_vec(name), text))?;
    }
    body.extend_from_slice(b", M01, TLAPS")?;
    let text = text_of(alloc, b"M00", body.as_slice())?;
    list.push((Text::of(alloc, b"M00")?, text))?;
    Ok(MemShelf::new(list, Vec::new(alloc)))
}

/// How many modules are loaded from number 0 on.
fn count(loaded: &Result<Loaded, LoadFault>) -> usize {
    match loaded {
        Ok(loaded) => loaded.modules.len(),
        Err(_) => 0,
    }
}

#[test]
fn sixty_four_modules(rt: HostRuntime) -> Result<(), Fail> {
    let alloc = rt.alloc();
    let root = Text::of(alloc, b"M00")?;
    let mut shelf = chain(alloc, 63, b", TLAPS")?;
    assert!(rt; count(&load(alloc, &mut shelf, &root, None)) == 64);
    let mut shelf = star(alloc, 63)?;
    assert!(rt; count(&load(alloc, &mut shelf, &root, None)) == 64);
    Ok(())
}

#[test]
fn more_than_sixty_four_modules(rt: HostRuntime) -> Result<(), Fail> {
    let alloc = rt.alloc();
    let root = Text::of(alloc, b"M00")?;
    let mut shelf = chain(alloc, 64, b"")?;
    let ended = load(alloc, &mut shelf, &root, None);
    assert!(rt; is_wanted(alloc, &ended, &Want::Refused(b"M63", 2, 9, b"TooMany"))?);
    let mut shelf = star(alloc, 64)?;
    let ended = load(alloc, &mut shelf, &root, None);
    assert!(rt; is_wanted(alloc, &ended, &Want::Refused(b"M00", 66, 1, b"TooMany"))?);
    let mut shelf = chain(alloc, 63, b", M00")?;
    let ended = load(alloc, &mut shelf, &root, None);
    assert!(rt; is_wanted(alloc, &ended, &Want::Refused(b"M62", 2, 14, b"Cycle M00"))?);
    Ok(())
}

/// A chain of 64 modules whose last one extends one that the shelf has not.
#[test]
fn too_many_before_the_fetch(rt: HostRuntime) -> Result<(), Fail> {
    let alloc = rt.alloc();
    let mut list = Vec::new(alloc);
    for number in 0..64 {
        let name = numbered(alloc, number)?;
        let mut body = Vec::from_slice(alloc, b"EXTENDS ")?;
        body.extend_from_slice(numbered(alloc, number + 1)?.as_slice())?;
        let text = text_of(alloc, name.as_slice(), body.as_slice())?;
        list.push((Text::from_vec(name), text))?;
    }
    let mut shelf = MemShelf::new(list, Vec::from_slice(alloc, &[64])?);
    let root = Text::of(alloc, b"M00")?;
    let ended = load(alloc, &mut shelf, &root, None);
    assert!(rt; is_wanted(alloc, &ended, &Want::Refused(b"M63", 2, 9, b"TooMany"))?);
    Ok(())
}
