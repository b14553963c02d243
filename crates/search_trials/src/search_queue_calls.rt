//! A queue of three nodes.
use gh_base::NodeId;
use search_queue::Queue;
use std::test::Fail;

#[test]
fn a_node_that_rose_comes_first_and_one_past_64_bits_last(rt: HostRuntime) -> Result<(), Fail> {
    let mut queue = Queue::new(rt.alloc(), 3)?;
    queue.put(NodeId(0), 1 << 64);
    queue.put(NodeId(1), 5);
    queue.put(NodeId(2), 7);
    queue.lower(NodeId(2), 3);
    assert_eq!(rt; queue.pop_least(), Some((NodeId(2), 3)));
    assert_eq!(rt; queue.pop_least(), Some((NodeId(1), 5)));
    assert_eq!(rt; queue.pop_least(), Some((NodeId(0), 1 << 64)));
    assert_eq!(rt; queue.pop_least(), None);
    Ok(())
}
