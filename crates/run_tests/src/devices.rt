//! The adapters over real files, and each device in memory on a small table.

use core_expr::Text;
use std::alloc::Global;
use std::test::Fail;
use std::{fs, io};
use tla_io::{
    CacheFault, CacheFile, Failed, FileCache, FileShelf, MemCache, MemShelf, MemSink, Shelf,
    ShelfFault, Sink, StdSink, write_whole,
};

/// What a shelf answers, as text.
fn fetched<S: Shelf>(
    alloc: Global,
    shelf: &mut S,
    name: &str,
    at_most: u64,
) -> Result<Vec<u8>, Fail> {
    match shelf.fetch(alloc, name, at_most) {
        Ok(Some(text)) => Ok(text),
        Ok(None) => Ok(Vec::from_slice(alloc, b"none")?),
        Err(ShelfFault::Failed) => Ok(Vec::from_slice(alloc, b"failed")?),
        Err(ShelfFault::Memory) => Ok(Vec::from_slice(alloc, b"memory")?),
    }
}

/// What a cache file answers to a read, as text.
fn content<C: CacheFile>(
    alloc: Global,
    cache: &mut C,
    file: &str,
    at_most: u64,
) -> Result<Vec<u8>, Fail> {
    match cache.read(alloc, file, at_most) {
        Ok(text) => Ok(text),
        Err(CacheFault::Failed) => Ok(Vec::from_slice(alloc, b"failed")?),
        Err(CacheFault::Memory) => Ok(Vec::from_slice(alloc, b"memory")?),
    }
}

/// Whether a replace failed.
fn is_refused<C: CacheFile>(
    alloc: Global,
    cache: &mut C,
    file: &str,
    text: &str,
) -> Result<bool, Fail> {
    let text = Vec::from_slice(alloc, text.as_bytes())?;
    Ok(cache.replace(file, text) == Err(Failed))
}

fn add(
    alloc: Global,
    list: &mut Vec<(Text, Vec<u8>)>,
    name: &[u8],
    text: &[u8],
) -> Result<(), Fail> {
    let name = Text::of(alloc, name)?;
    list.push((name, Vec::from_slice(alloc, text)?))?;
    Ok(())
}

fn shelf_in_memory(alloc: Global) -> Result<MemShelf, Fail> {
    let mut entries = Vec::new(alloc);
    add(alloc, &mut entries, b"M", b"one text")?;
    add(alloc, &mut entries, b"N", b"")?;
    add(alloc, &mut entries, b"M", b"another")?;
    Ok(MemShelf::new(entries, Vec::from_slice(alloc, &[2, 5])?))
}

#[test]
fn a_shelf_in_memory(rt: HostRuntime) -> Result<(), Fail> {
    let mut shelf = shelf_in_memory(rt.alloc())?;
    for (name, at_most, want) in [
        ("M", 100, "one text"),
        ("M", 3, "one"),
        ("M", 3, "failed"),
        ("N", 9, ""),
        ("M", 0, ""),
        ("Absent", 9, "failed"),
        ("Absent", 9, "none"),
    ] {
        let got = fetched(rt.alloc(), &mut shelf, name, at_most)?;
        assert_eq!(rt; got.as_slice(), want.as_bytes());
    }
    assert_eq!(rt; shelf.faults(), 2);
    Ok(())
}

fn cache_in_memory(alloc: Global) -> Result<MemCache, Fail> {
    let file = Text::of(alloc, b"proofs")?;
    let fails = Vec::from_slice(alloc, &[3, 6])?;
    Ok(MemCache::new(file, Vec::from_slice(alloc, b"old lines")?, fails))
}

#[test]
fn a_cache_file_in_memory(rt: HostRuntime) -> Result<(), Fail> {
    let mut cache = cache_in_memory(rt.alloc())?;
    for (file, text, is_failing, want) in [
        ("other", "dropped", false, ""),
        ("proofs", "new", false, "failed"),
        ("proofs", "newer", false, "newer"),
        ("other", "lost", true, ""),
        ("proofs", "last", false, "last"),
    ] {
        assert_eq!(rt; is_refused(rt.alloc(), &mut cache, file, text)?, is_failing);
        let got = content(rt.alloc(), &mut cache, file, 9)?;
        assert_eq!(rt; got.as_slice(), want.as_bytes());
    }
    assert_eq!(rt; cache.content(), b"last".as_slice());
    assert_eq!(rt; cache.faults(), 2);
    Ok(())
}

#[test]
fn a_report_into_a_sink_in_memory(rt: HostRuntime) -> Result<(), Fail> {
    let report = b"module M\ntheorem T 3:1 proved\n";
    for (room, piece, fails, want) in [
        (30, 30, [99, 99], 30),
        (30, 1, [99, 30], 30),
        (30, 7, [5, 99], 30),
        (10, 30, [99, 99], 10),
        (29, 1, [99, 99], 29),
        (30, 1, [12, 99], 12),
        (30, 4, [9, 2], 8),
        (30, 0, [99, 99], 0),
        (0, 30, [99, 99], 0),
    ] {
        let fails = Vec::from_slice(rt.alloc(), &fails)?;
        let mut sink = MemSink::new(rt.alloc(), room, piece, fails)?;
        let result = write_whole(&mut sink, report);
        assert_eq!(rt; result.is_ok(), want == 30, "room {room} piece {piece}");
        assert_eq!(rt; sink.taken(), &report[..want], "room {room} piece {piece}");
        assert_eq!(rt; sink.faults() == 0, want == 30, "room {room} piece {piece}");
    }
    Ok(())
}

#[test]
fn a_shelf_of_real_files(rt: HostRuntime) -> Result<(), Fail> {
    let _ = fs::remove_dir_all(&rt, "shelf_test");
    fs::create_dir(&rt, "shelf_test")?;
    let long = Vec::from_elem(rt.alloc(), b'x', 5000)?;
    fs::write(&rt, "shelf_test/L.tla", long.as_slice())?;
    fs::write(&rt, "shelf_test/M.tla", "one text")?;
    fs::write(&rt, "shelf_test/M", "a file of another name")?;
    fs::create_dir(&rt, "shelf_test/D.tla")?;
    let mut shelf = FileShelf::new(&rt);
    for (name, at_most, want) in [
        ("shelf_test/M", 1048577, b"one text".as_slice()),
        ("shelf_test/M", 3, b"one"),
        ("shelf_test/M", 0, b""),
        ("shelf_test/L", 4096, &long[..4096]),
        ("shelf_test/L", 4999, &long[..4999]),
        ("shelf_test/L", 1048577, long.as_slice()),
        ("shelf_test/Absent", 9, b"none"),
        ("shelf_test/D", 9, b"failed"),
    ] {
        let got = fetched(rt.alloc(), &mut shelf, name, at_most)?;
        assert_eq!(rt; got.as_slice(), want, "{name} {at_most}");
    }
    assert_eq!(rt; shelf.faults(), 1);
    fs::remove_dir_all(&rt, "shelf_test")?;
    Ok(())
}

#[test]
fn a_cache_of_real_files(rt: HostRuntime) -> Result<(), Fail> {
    let _ = fs::remove_dir_all(&rt, "cache_test");
    fs::create_dir(&rt, "cache_test")?;
    let mut cache = FileCache::new(&rt);
    let before = content(rt.alloc(), &mut cache, "cache_test/c", 9)?;
    assert_eq!(rt; before.len(), 0);
    for (file, text, is_failing, want) in [
        ("cache_test/c", "first lines\n", false, "first"),
        ("cache_test/c", "", false, ""),
        ("cache_test/c", "other", false, "other"),
        ("cache_test/absent/c", "lost", true, ""),
        ("cache_test", "lost", true, "failed"),
    ] {
        assert_eq!(rt;
            is_refused(rt.alloc(), &mut cache, file, text)?,
            is_failing,
            "{file}"
        );
        let got = content(rt.alloc(), &mut cache, file, 5)?;
        assert_eq!(rt; got.as_slice(), want.as_bytes(), "{file}");
    }
    assert_eq!(rt; cache.faults(), 3);
    assert!(rt; !fs::exists(&rt, "cache_test/c.new")?);
    fs::remove_file(&rt, "cache_test.new")?;
    fs::remove_dir_all(&rt, "cache_test")?;
    Ok(())
}

/// A file of the current folder by a name of this many bytes, an odd number.
fn far(alloc: Global, length: u64) -> Result<String, Fail> {
    let mut name = String::new(alloc);
    for _ in 0..length / 2 {
        name.push_str("./")?;
    }
    name.push_str("f")?;
    Ok(name)
}

#[test]
fn a_name_that_is_too_long(rt: HostRuntime) -> Result<(), Fail> {
    let mut cache = FileCache::new(&rt);
    for (length, is_failing) in [(4091, false), (4093, true), (5001, true)] {
        let name = far(rt.alloc(), length)?;
        let is_refused = is_refused(rt.alloc(), &mut cache, name.as_str(), "text")?;
        assert_eq!(rt; is_refused, is_failing, "{length}");
    }
    assert_eq!(rt; cache.faults(), 2);
    fs::remove_file(&rt, "f")?;
    let name = far(rt.alloc(), 5001)?;
    let mut shelf = FileShelf::new(&rt);
    let got = fetched(rt.alloc(), &mut shelf, name.as_str(), 9)?;
    assert_eq!(rt; got.as_slice(), b"failed".as_slice());
    Ok(())
}

#[test]
fn a_sink_over_writers(rt: HostRuntime) -> Result<(), Fail> {
    let _ = fs::remove_file(&rt, "sink_test");
    let mut sink = StdSink::new(fs::create(&rt, "sink_test")?);
    assert_eq!(rt; write_whole(&mut sink, b"a whole report\n"), Ok(()));
    assert_eq!(rt; sink.faults(), 0);
    assert_eq!(rt;
        fs::read_to_string(&rt, "sink_test")?.as_str(),
        "a whole report\n"
    );
    // a file that is open for reading alone takes nothing
    let mut closed = StdSink::new(fs::open(&rt, "sink_test")?);
    assert_eq!(rt; write_whole(&mut closed, b"more"), Err(Failed));
    assert_eq!(rt; closed.faults(), 1);
    fs::remove_file(&rt, "sink_test")?;
    let mut printed = StdSink::new(io::writer(&rt));
    assert_eq!(rt; write_whole(&mut printed, b"printed by a sink\n"), Ok(()));
    Ok(())
}
