//! A call that fails while a file is written.
use gh_base::{GiveFault, MemSink, OsmMap, Sequence};
use pbf_writer::{fits_pbf, write_pbf};
use std::test::Fail;

#[test]
fn a_failing_sink_has_a_front_of_the_file(rt: HostRuntime) -> Result<(), Fail> {
    let map = OsmMap {
        nodes: Sequence::new(rt.alloc()),
        ways: Sequence::new(rt.alloc()),
    };
    let mut sink = MemSink::new(rt.alloc(), 4, &[2]);
    if fits_pbf(rt.alloc(), &map)? {
        assert_eq!(rt;
            write_pbf(rt.alloc(), &map, &mut sink),
            Err(GiveFault::WriteFault)
        );
    }
    assert_eq!(rt; sink.bytes(), b"\0\0\0\x0d".as_slice());
    Ok(())
}
