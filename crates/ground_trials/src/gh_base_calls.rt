//! Sources, sinks and files in memory, and numbers. Decimals are rows of examples/tables.
use gh_base::*;

#[test]
fn numbers_ids_and_parts_are_read(rt: HostRuntime) {
    assert_eq!(rt; read_natural(b"007", 3), Some(7));
    assert_eq!(rt; read_natural(b"1234", 3), None);
    assert_eq!(rt; read_id(b"-0"), Some(0));
    assert_eq!(rt; first_part("a b c", ' '), ("a", Some("b c")));
    assert_eq!(rt; valid_text(b"ab\xc3".as_slice()), Err(2));
}

#[test]
fn a_source_moves_its_step_and_fails_where_listed(rt: HostRuntime) {
    let mut source = MemSource::new(b"abc", 2, &[2]);
    let mut sure = SureSource::new(b"abc", 2);
    let mut buf = [0u8; 4];
    assert_eq!(rt; source.take(&mut buf), Ok(2));
    assert_eq!(rt; source.take(&mut buf), Err(Failed));
    assert_eq!(rt; source.take(&mut buf), Ok(1));
    assert_eq!(rt; source.take(&mut buf), Ok(0));
    assert_eq!(rt; sure.take(&mut buf), Ok(2));
    assert_eq!(rt; buf[..2], b"ab"[..]);
}

#[test]
fn a_sink_keeps_what_it_took(rt: HostRuntime) {
    let mut sink = MemSink::new(rt.alloc(), 2, &[1]);
    assert_eq!(rt; sink.give(b"abc"), Err(Failed));
    assert_eq!(rt; sink.give(b"abc"), Ok(2));
    assert_eq!(rt; give_all(&mut sink, b"cde"), Ok(()));
    assert_eq!(rt; sink.bytes(), b"abcde".as_slice());
    assert_eq!(rt; SureSink::new(2).give(b"abc"), Ok(2));
}

/// How much a source of the file of a name moves at once. None where it isn't brought.
fn moved<F: Files>(files: &mut F, name: &str) -> Option<usize> {
    let mut buf = [0u8; 4];
    let mut source = files.bring(name).ok()?;
    let moved = source.take(&mut buf).ok();
    files.take_back(source);
    moved
}

#[test]
fn files_bring_their_one_name(rt: HostRuntime) {
    let mut files = MemFiles::new("map", b"abc", &[2], 2, &[]);
    assert_eq!(rt; moved(&mut files, "other"), None);
    assert_eq!(rt; moved(&mut files, "map"), None);
    assert_eq!(rt; moved(&mut files, "map"), Some(2));
    let mut sure = SureFiles::new("map", b"abc", 4);
    assert_eq!(rt; moved(&mut sure, "map"), Some(3));
}

#[test]
fn a_source_is_read_whole_or_the_cause_is_named(rt: HostRuntime) {
    let alloc = rt.alloc();
    let mut source = MemSource::new(b"abc", 2, &[]);
    let whole = read_whole(alloc, &mut source, 3).map(|bytes| bytes.len());
    assert_eq!(rt; whole, Ok(3));
    let mut source = MemSource::new(b"abc", 2, &[]);
    let long = read_whole(alloc, &mut source, 2).err();
    assert_eq!(rt; long, Some(TakeFault::TooLong));
    let mut source = MemSource::new(b"abc", 2, &[2]);
    let failed = read_whole(alloc, &mut source, 3).err();
    assert_eq!(rt; failed, Some(TakeFault::ReadFault));
}
