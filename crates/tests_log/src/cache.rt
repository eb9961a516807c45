//! The bounded cache of an engine.

use aux_cache::Cache;
use lb_base::Seqnum;
use std::test::Fail;

#[test]
fn the_least_recently_used_goes(rt: HostRuntime) -> Result<(), Fail> {
    let mut cache = Cache::new(rt.alloc(), 2)?;
    cache.set(Seqnum(1), 10u64)?;
    cache.set(Seqnum(2), 20)?;
    assert!(rt; cache.get(Seqnum(1)));
    cache.set(Seqnum(3), 30)?;
    assert_eq!(rt; cache.peek(Seqnum(2)).copied(), None);
    assert_eq!(rt; cache.peek(Seqnum(1)).copied(), Some(10));
    assert_eq!(rt; cache.len(), 2);
    cache.clear();
    assert!(rt; cache.is_empty());
    Ok(())
}
