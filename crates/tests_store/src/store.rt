//! The store beside a plain list of writes.

use boki_types::{Fenced, Name, Named, Put, Settled};
use lb_base::{Memory, Path, Seqnum, Value, Words};
use obj_store::{Logged, ObjStore, Read};
use std::alloc::Global;
use std::process::Abort;
use std::test::Fail;

fn name() -> Name {
    Name {
        path: Path::request(1).unwrap(),
        place: 1,
    }
}

// The logged write of the value that is kept under the name.
fn logged() -> Logged<'static> {
    Logged {
        seq: Seqnum(4),
        name: name(),
        here: None,
    }
}

// What a free read answers, of integers alone.
fn read(store: &ObjStore, cursor: u64, logged: Option<&Logged<'_>>) -> Option<i64> {
    match store.read_free("x", Seqnum(cursor), logged) {
        Read::Found(Value::Int(n)) => Some(*n),
        _ => None,
    }
}

// Puts the first free write since a cursor in.
fn put(store: &mut ObjStore, cursor: u64) -> Result<Put, Memory> {
    store.put_at("x", Seqnum(cursor), 1, &Value::Int(9))
}

// A store with a fence at 10 and a version at it.
fn fenced(alloc: Global) -> Result<ObjStore, Memory> {
    let mut store = ObjStore::new(alloc, &[])?;
    store.read_fenced("x", Seqnum(10), None)?;
    put(&mut store, 10)?;
    Ok(store)
}

#[test]
fn a_fenced_read_makes_earlier_writes_late(rt: HostRuntime) -> Result<(), Fail> {
    let mut store = ObjStore::new(rt.alloc(), &[])?;
    let answer = store.read_fenced("x", Seqnum(10), None)?;
    assert_eq!(rt; answer, Fenced::Missing);
    assert_eq!(rt; store.fence("x"), Seqnum(10));
    assert_eq!(rt; put(&mut store, 5)?, Put::Late);
    assert_eq!(rt; put(&mut store, 10)?, Put::Done);
    assert_eq!(rt; put(&mut store, 10)?, Put::Done);
    Ok(())
}

#[test]
fn a_version_is_read_from_its_cursor_on(rt: HostRuntime) -> Result<(), Fail> {
    let store = fenced(rt.alloc())?;
    assert_eq!(rt; store.versions_at(Seqnum(10)), 1);
    assert_eq!(rt; read(&store, 10, None), Some(9));
    assert_eq!(rt; read(&store, 9, None), None);
    Ok(())
}

#[test]
fn calls_below_the_floor_are_gone(rt: HostRuntime) -> Result<(), Fail> {
    let mut store = fenced(rt.alloc())?;
    store.sweep(Seqnum(11), &[])?;
    assert_eq!(rt; put(&mut store, 10)?, Put::Gone);
    let stored = store.put_named(name(), Seqnum(10), &Value::Int(9))?;
    assert_eq!(rt; stored, Named::Gone);
    assert_eq!(rt; read(&store, 11, None), Some(9));
    assert_eq!(rt; store.held(), 1);
    Ok(())
}

// Versions that are put in out of order: (cursor, k, value).
const WRITES: [(u64, u64, i64); 6] = [
    (7, 1, 71),
    (3, 2, 32),
    (3, 1, 31),
    (9, 1, 91),
    (5, 1, 51),
    (7, 2, 72),
];

// The value of the last write at or below a cursor, by a look at each.
fn scanned(cursor: u64) -> Option<i64> {
    let mut last: Option<(u64, u64, i64)> = None;
    for write in WRITES {
        let is_later = match last {
            Some(other) => (other.0, other.1) < (write.0, write.1),
            None => true,
        };
        if write.0 <= cursor && is_later {
            last = Some(write);
        }
    }
    last.map(|write| write.2)
}

fn put_all(store: &mut ObjStore) -> Result<(), Memory> {
    for (cursor, k, value) in WRITES {
        if k >= 1 {
            store.put_at("x", Seqnum(cursor), k, &Value::Int(value))?;
        }
    }
    Ok(())
}

fn assert_reads(rt: &impl Abort, store: &ObjStore, from: u64) {
    for cursor in from..12u64 {
        assert_eq!(rt; read(store, cursor, None), scanned(cursor));
    }
}

#[test]
fn reads_and_sweeps_agree_with_a_scan(rt: HostRuntime) -> Result<(), Fail> {
    let mut store = ObjStore::new(rt.alloc(), &[])?;
    put_all(&mut store)?;
    for floor in [0u64, 4, 7, 8, 11] {
        store.sweep(Seqnum(floor), &[])?;
        assert_eq!(rt; store.floor(), Seqnum(floor));
        assert_reads(&rt, &store, floor);
    }
    assert_eq!(rt; store.held(), 1);
    Ok(())
}

// A store with an initial object, and a value under the name.
fn named(alloc: Global) -> Result<ObjStore, Memory> {
    let objects = [(Words::from_text(alloc, "x")?, Value::Int(1))];
    let mut store = ObjStore::new(alloc, &objects)?;
    store.put_named(name(), Seqnum(2), &Value::Int(4))?;
    Ok(store)
}

fn settled(alloc: Global) -> Result<Settled, Memory> {
    Ok(Settled {
        key: Words::from_text(alloc, "x")?,
        seq: Seqnum(4),
        name: name(),
        here: None,
    })
}

#[test]
fn a_logged_write_is_read_by_its_name(rt: HostRuntime) -> Result<(), Fail> {
    let store = named(rt.alloc())?;
    let logged = logged();
    assert_eq!(rt; read(&store, 3, None), Some(1));
    assert_eq!(rt; read(&store, 4, Some(&logged)), Some(4));
    assert_eq!(rt; store.held(), 2);
    Ok(())
}

#[test]
fn a_settled_write_becomes_the_base(rt: HostRuntime) -> Result<(), Fail> {
    let mut store = named(rt.alloc())?;
    let settled = [settled(rt.alloc())?];
    store.sweep(Seqnum(5), &settled)?;
    let logged = logged();
    assert_eq!(rt; store.held(), 1);
    assert_eq!(rt; read(&store, 5, None), Some(4));
    assert_eq!(rt; read(&store, 5, Some(&logged)), Some(4));
    assert_eq!(rt; read(&store, 4, None), None);
    Ok(())
}

#[test]
fn keys_are_in_order(rt: HostRuntime) -> Result<(), Fail> {
    let mut store = named(rt.alloc())?;
    store.put_at("b", Seqnum(7), 1, &Value::Int(7))?;
    let group = [Words::from_text(rt.alloc(), "a")?];
    assert!(rt; store.raise_group(&group, Seqnum(6))?);
    assert_eq!(rt; store.fence("a"), Seqnum(6));
    let keys = store.keys()?;
    assert_eq!(rt; keys.len(), 2);
    assert!(rt; keys.get(0).is_some_and(|key| key.is("b")));
    assert!(rt; keys.get(1).is_some_and(|key| key.is("x")));
    Ok(())
}
