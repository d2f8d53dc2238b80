// The outside: what the ones in memory do where they are told to fail, and the real ones once.
use sq_base::Seq;
use sq_edge::{FileShelf, MemShelf, MemSink, Shelf, ShelfError, Sink, SinkFault, StdSink};
use std::fs;
use std::test::Fail;

#[test]
fn the_shelf_in_memory_fails_where_it_is_told(rt: HostRuntime) -> Result<(), Fail> {
    let alloc = rt.alloc();
    let fails = Seq::from_slice(alloc, &[3, 6])?;
    let mut shelf = MemShelf::new(Seq::new(alloc), fails);
    assert_eq!(rt;
        shelf.read(alloc, "a", 0, 9).err(),
        Some(ShelfError::Missing)
    );
    assert_eq!(rt; shelf.create("a"), Ok(()));
    assert_eq!(rt; shelf.append("a", b"lost"), Err(ShelfError::Failed));
    assert_eq!(rt; shelf.append("a", b"kept"), Ok(()));
    assert_eq!(rt; shelf.append("b", b"kept"), Err(ShelfError::Missing));
    assert_eq!(rt; shelf.create("a"), Err(ShelfError::Failed));
    for (at, room, want) in [
        (0, 9, b"kept".as_slice()),
        (0, 4, b"kept"),
        (1, 2, b"ep"),
        (4, 1, b""),
        (9, 1, b""),
        (1, 0, b""),
    ] {
        let piece = shelf.read(alloc, "a", at, room)?;
        assert_eq!(rt; piece.as_slice(), want, "from {at}, room {room}");
    }
    assert_eq!(rt;
        (shelf.calls, shelf.faults, shelf.misses, shelf.starved),
        (12, 2, 2, 0)
    );
    Ok(())
}

#[test]
fn the_sink_in_memory_fails_where_it_is_told(rt: HostRuntime) -> Result<(), Fail> {
    let alloc = rt.alloc();
    let mut out = MemSink::new(alloc, 3, Seq::from_slice(alloc, &[2])?);
    assert_eq!(rt; out.put(b"proved"), Ok(3));
    assert_eq!(rt; out.put(b"ved"), Err(SinkFault));
    assert_eq!(rt; out.put(b"ve"), Ok(2));
    assert_eq!(rt; out.taken.as_slice(), b"prove".as_slice());
    assert_eq!(rt; (out.calls, out.faults, out.starved), (3, 1, 0));
    let mut closed = MemSink::new(alloc, 0, Seq::new(alloc));
    assert_eq!(rt; closed.put(b""), Ok(0));
    assert_eq!(rt; closed.faults, 0);
    assert_eq!(rt; closed.put(b"x"), Ok(0));
    assert_eq!(rt; (closed.faults, closed.starved), (1, 0));
    Ok(())
}

#[test]
fn real_files_hold_what_was_appended(rt: HostRuntime) -> Result<(), Fail> {
    let alloc = rt.alloc();
    let name = "a_file_of_the_edge_test";
    let mut shelf = FileShelf::new(&rt);
    assert_eq!(rt; shelf.create(name), Ok(()));
    assert_eq!(rt; shelf.append(name, b"one "), Ok(()));
    assert_eq!(rt; shelf.append(name, b"two"), Ok(()));
    let piece = shelf.read(alloc, name, 2, 4)?;
    assert_eq!(rt; piece.as_slice(), b"e tw".as_slice());
    let end = shelf.read(alloc, name, 7, 4)?;
    assert_eq!(rt; end.as_slice(), b"".as_slice());
    fs::remove_file(&rt, name)?;
    assert_eq!(rt;
        shelf.read(alloc, name, 0, 4).err(),
        Some(ShelfError::Missing)
    );
    assert_eq!(rt; shelf.append(name, b"three"), Err(ShelfError::Missing));
    assert_eq!(rt; shelf.create("no/such/folder"), Err(ShelfError::Failed));
    Ok(())
}

#[test]
fn standard_output_takes_bytes(rt: HostRuntime) {
    let mut out = StdSink::new(&rt);
    assert_eq!(rt; out.put(b"text\n"), Ok(5));
    assert_eq!(rt; out.put(b""), Ok(0));
}
