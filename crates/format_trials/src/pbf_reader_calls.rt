//! A call that fails while a file is read.
use gh_base::MemSource;
use pbf_reader::{PbfFault, read_pbf};

#[test]
fn a_failing_source_is_no_fault_of_the_map(rt: HostRuntime) {
    let mut source = MemSource::new(b"\0\x01\0\0 is no length", 3, &[3]);
    let failed = matches!(read_pbf(rt.alloc(), &mut source), Err(PbfFault::ReadFault));
    assert!(rt; failed);
}
