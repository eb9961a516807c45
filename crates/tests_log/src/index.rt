//! The index beside a plain scan of the same records.

use eng_index::Index;
use lb_base::{Cond, List, Memory, Record, Seqnum, Tag};
use std::alloc::Global;
use std::process::Abort;
use std::test::Fail;

// A record, and whether it is live by hand.
#[derive(Clone, Copy)]
struct Row {
    first: u64,
    second: Option<u64>,
    condition: Option<(u64, u64)>,
    live: bool,
}

// Tag 7 has conditions that fail, tag 8 is shared, tag 9 is given twice, and tag 10 has dead records alone.
fn rows() -> [Row; 12] {
    [
        Row::new(7, None, Some((7, 0)), true),
        Row::new(7, None, Some((7, 0)), false),
        Row::new(7, None, Some((7, 2)), false),
        Row::new(7, Some(8), Some((7, 1)), true),
        Row::new(8, None, None, true),
        Row::new(7, None, Some((7, 2)), true),
        Row::new(9, Some(9), None, true),
        Row::new(9, Some(9), Some((9, 2)), false),
        Row::new(9, Some(8), Some((9, 1)), true),
        Row::new(10, None, Some((10, 1)), false),
        Row::new(8, Some(9), Some((8, 4)), false),
        Row::new(8, Some(9), Some((8, 3)), true),
    ]
}

impl Row {
    fn new(first: u64, second: Option<u64>, condition: Option<(u64, u64)>, live: bool) -> Row {
        Row {
            first,
            second,
            condition,
            live,
        }
    }

    fn carries(&self, tag: u64) -> bool {
        self.first == tag || self.second == Some(tag)
    }

    fn record(&self, alloc: Global) -> Result<Record, Memory> {
        let mut tags = List::new(alloc);
        tags.push(Tag(self.first))?;
        if let Some(second) = self.second {
            tags.push(Tag(second))?;
        }
        let cond = self.condition.map(|(tag, place)| Cond {
            tag: Tag(tag),
            place,
        });
        let bytes = List::new(alloc);
        Ok(Record { tags, cond, bytes })
    }
}

// The seqnums of the live records with the tag, by a look at each record.
fn scanned(alloc: Global, rows: &[Row], tag: u64) -> Result<Vec<u64>, Memory> {
    let mut found = Vec::new(alloc);
    for (place, row) in rows.iter().enumerate() {
        if row.live && row.carries(tag) {
            found.push(place as u64 + 1)?;
        }
    }
    Ok(found)
}

fn is_met(alloc: Global, earlier: &[Row], row: &Row) -> Result<bool, Memory> {
    match row.condition {
        Some((tag, place)) => Ok(scanned(alloc, earlier, tag)?.len() as u64 == place),
        None => Ok(true),
    }
}

fn assert_reads(
    rt: &impl Abort,
    alloc: Global,
    index: &Index,
    rows: &[Row],
    tag: u64,
) -> Result<(), Memory> {
    let found = scanned(alloc, rows, tag)?;
    assert_eq!(rt; index.count(Tag(tag)), found.len() as u64);
    for at in 0..15u64 {
        let next = found.iter().copied().find(|seq| *seq >= at);
        let prev = found.iter().copied().rev().find(|seq| *seq <= at);
        let nth = found.get(at as usize).copied();
        assert_eq!(rt; index.next(Tag(tag), Seqnum(at)), next.map(Seqnum));
        assert_eq!(rt; index.prev(Tag(tag), Seqnum(at)), prev.map(Seqnum));
        assert_eq!(rt; index.nth(Tag(tag), at), nth.map(Seqnum));
    }
    Ok(())
}

fn assert_marks(rt: &impl Abort, index: &Index, rows: &[Row]) {
    assert_eq!(rt; index.position(), rows.len() as u64);
    assert!(rt; !index.live(Seqnum(0)));
    assert!(rt; !index.live(Seqnum(rows.len() as u64 + 1)));
    for (place, row) in rows.iter().enumerate() {
        assert_eq!(rt; index.live(Seqnum(place as u64 + 1)), row.live);
    }
}

#[test]
fn each_prefix_reads_as_a_scan(rt: HostRuntime) -> Result<(), Fail> {
    let mut index = Index::new(rt.alloc())?;
    let rows = rows();
    for place in 0..rows.len() {
        let row = rows[place];
        assert_eq!(rt; is_met(rt.alloc(), &rows[..place], &row)?, row.live);
        index.add(&row.record(rt.alloc())?)?;
        assert_marks(&rt, &index, &rows[..place + 1]);
        for tag in 6..11u64 {
            assert_reads(&rt, rt.alloc(), &index, &rows[..place + 1], tag)?;
        }
    }
    Ok(())
}

#[test]
fn conditions_count_live_records(rt: HostRuntime) -> Result<(), Fail> {
    let mut index = Index::new(rt.alloc())?;
    for row in rows() {
        index.add(&row.record(rt.alloc())?)?;
    }
    assert_eq!(rt; index.next(Tag(7), Seqnum(2)), Some(Seqnum(4)));
    assert_eq!(rt; index.prev(Tag(7), Seqnum(3)), Some(Seqnum(1)));
    assert_eq!(rt; index.nth(Tag(7), 2), Some(Seqnum(6)));
    assert_eq!(rt; index.count(Tag(9)), 3);
    assert_eq!(rt; index.prev(Tag(8), Seqnum(u64::MAX)), Some(Seqnum(12)));
    index.clear();
    assert_eq!(rt; index.position(), 0);
    assert_eq!(rt; index.next(Tag(7), Seqnum(0)), None);
    Ok(())
}
