//! Calls that fail while a map is read or printed.
use gh_base::{GiveFault, MemSink, MemSource};
use plain_map::{PlainFault, print_plain, read_plain};

#[test]
fn a_failing_source_is_no_fault_of_the_map(rt: HostRuntime) {
    let mut source = MemSource::new(b"x1 is no line", 3, &[3]);
    let fault = read_plain(rt.alloc(), &mut source).err();
    assert_eq!(rt; fault, Some(PlainFault::ReadFault));
}

#[test]
fn a_failing_sink_has_a_front_of_the_text(rt: HostRuntime) {
    let mut source = MemSource::new(b"n1 y0 x0", 8, &[]);
    let map = read_plain(rt.alloc(), &mut source).expect(&rt, "a map");
    let mut sink = MemSink::new(rt.alloc(), 5, &[2]);
    let failed = print_plain(rt.alloc(), &map, &mut sink);
    assert_eq!(rt; failed, Err(GiveFault::WriteFault));
    assert_eq!(rt; sink.bytes(), b"n1 y0".as_slice());
}
