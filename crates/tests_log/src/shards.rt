//! The shards and their replicas.

use lb_base::{List, Record};
use shard_store::Shards;
use std::test::Fail;

fn record(rt: &HostRuntime) -> Record {
    Record {
        tags: List::new(rt.alloc()),
        cond: None,
        bytes: List::new(rt.alloc()),
    }
}

#[test]
fn a_cut_orders_what_all_replicas_have(rt: HostRuntime) -> Result<(), Fail> {
    let mut shards = Shards::new(rt.alloc(), 2, 2)?;
    assert_eq!(rt; shards.append(1, record(&rt))?, 1);
    assert_eq!(rt; shards.append(2, record(&rt))?, 1);
    assert_eq!(rt; shards.append(1, record(&rt))?, 2);
    assert_eq!(rt; shards.copy(2, 2, 5), 1);
    let mut progress = [9; 2];
    shards.progress(&mut progress);
    assert_eq!(rt; progress, [0, 1]);
    assert_eq!(rt; shards.copy(1, 2, 1), 1);
    shards.progress(&mut progress);
    assert_eq!(rt; progress, [1, 1]);
    Ok(())
}

#[test]
fn records_are_found_by_their_numbers(rt: HostRuntime) -> Result<(), Fail> {
    let mut shards = Shards::new(rt.alloc(), 1, 1)?;
    assert_eq!(rt; shards.append(1, record(&rt))?, 1);
    assert!(rt; shards.record(1, 1).is_some());
    assert!(rt; shards.record(1, 2).is_none());
    assert!(rt; shards.record(2, 1).is_none());
    Ok(())
}
