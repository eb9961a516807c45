//! Engines are caught up beside each other: each is held at the gate until the other one has come.
ghost use Rattle.tests_book.specs.Engines.{HasEngines};

use crate::common::{order, put};
use book_api::{Book, Gate};
use lb_base::Memory;
use std::alloc::Global;
use std::sync::atomic::AtomicU64;
use std::sync::atomic::Ordering::SeqCst;
use std::test::Fail;
use std::thread;

/// Holds engine 1 until engine 2 has come, and engine 2 until engine 1 has, for so many looks.
#[derive(Drop)]
struct Meeting {
    one: AtomicU64,
    two: AtomicU64,
    met: AtomicU64,
}

impl Gate for Meeting {
    fn enter(&self, engine: u32) {
        if engine == 1 {
            self.one.store(1, SeqCst);
            self.wait_for(&self.two);
        } else {
            self.two.store(1, SeqCst);
            self.wait_for(&self.one);
        }
    }
}

impl Meeting {
    fn new() -> Meeting {
        Meeting {
            one: AtomicU64::new(0),
            two: AtomicU64::new(0),
            met: AtomicU64::new(0),
        }
    }

    fn wait_for(&self, other: &AtomicU64) {
        for _ in 0..100_000_000u64 {
            if other.load(SeqCst) == 1 {
                self.met.fetch_add(1, SeqCst);
                return;
            }
            thread::yield_now();
        }
    }
}

// A book of two engines with one record, which none of them has seen.
fn one_record(alloc: Global) -> Result<Book, Memory> {
    let mut book = Book::new(alloc, 2, 1, 2)?;
    let ordered = put_one(&mut book);
    match ordered {
        Ok(()) => Ok(book),
        Err(Memory) => Err(Memory),
    }
}

fn put_one(book: &mut Book) -> Result<(), Memory>
    requires { HasEngines 2 book.old }
{
    put(book, 1, 5, "a")?;
    order(book)?;
    Ok(())
}

#[test]
fn catch_all_meets(rt: HostRuntime) -> Result<(), Fail> {
    let gate = Meeting::new();
    let mut book = one_record(rt.alloc())?;
    let end = book.catch_all(&rt, &gate);
    drop(book);
    assert_eq!(rt; end?, 1);
    assert_eq!(rt; gate.met.load(SeqCst), 2);
    Ok(())
}
