//! The order that the metalog makes.

use boki_types::Cut;
use lb_base::Seqnum;
use meta_order::Metalog;
use std::test::Fail;

#[test]
fn an_entry_orders_shard_by_shard(rt: HostRuntime) -> Result<(), Fail> {
    let mut log = Metalog::new(rt.alloc(), 2)?;
    assert_eq!(rt; log.cut(&[0, 0])?, Cut::Same);
    assert_eq!(rt; log.cut(&[1, 2])?, Cut::Entry(1));
    assert_eq!(rt; log.locate(Seqnum(2)), Some((2, 1)));
    assert_eq!(rt; log.seq_of(2, 2), Some(Seqnum(3)));
    assert_eq!(rt; log.locate(Seqnum(4)), None);
    Ok(())
}

#[test]
fn entries_follow_uneven_replicas(rt: HostRuntime) -> Result<(), Fail> {
    let mut log = Metalog::new(rt.alloc(), 2)?;
    assert_eq!(rt; log.cut(&[0, 1])?, Cut::Entry(1));
    assert_eq!(rt; log.cut(&[2, 2])?, Cut::Entry(2));
    assert_eq!(rt; log.cut(&[2, 2])?, Cut::Same);
    assert_eq!(rt; log.length(), 4);
    assert_eq!(rt; log.end_of(1), Some(1));
    assert_eq!(rt; log.locate(Seqnum(1)), Some((2, 1)));
    assert_eq!(rt; log.seq_of(1, 2), Some(Seqnum(3)));
    Ok(())
}

#[test]
fn sixteen_shards_are_in_order(rt: HostRuntime) -> Result<(), Fail> {
    let mut log = Metalog::new(rt.alloc(), 16)?;
    assert_eq!(rt; log.cut(&[1; 16])?, Cut::Entry(1));
    assert_eq!(rt; log.entries(), 1);
    assert_eq!(rt; log.locate(Seqnum(16)), Some((16, 1)));
    assert_eq!(rt; log.seq_of(3, 1), Some(Seqnum(3)));
    assert_eq!(rt; log.seq_of(3, 2), None);
    Ok(())
}
