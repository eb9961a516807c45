//! Sweeps of the object store.
ghost use Rattle.std.specs.Prelude.{◌≡◌, ◌++◌, [], true, ℕ, List, IfOk, OnOk};
ghost use Rattle.boki_types.specs.declared.event.Event.TheVariants as event;
ghost use Rattle.boki_model.specs.Writes.{logged_write};
ghost use Rattle.book_api.specs.Books.{HasEngine};
ghost use Rattle.obj_store.specs.Sweeps.{settled_of, logged_between};
ghost use Rattle.step_log.specs.Sound.{Sound, body_of, view};
ghost use Rattle.cluster_events.specs.Machines.{CanDoAny, DoesEventAny};
ghost use Rattle.cluster_events.specs.Writes.{write_in};

use crate::advancing::advance;
use boki_types::{Body, Line, Name, Settled};
use book_api::Book;
use flow_parts::Parts;
use lb_base::{List, Memory, Seqnum};
use rec_codec::{DecodeFault, decode};
use std::alloc::Global;

/// The store's floor is lifted to the one that the engine sees.
pub fn sweep(alloc: Global, parts: &mut Parts, engine: u32) -> Result<Line, Memory>
    requires { CanDoAny (event.Sweep engine) parts.old }
    ensures { IfOk result (DoesEventAny (event.Sweep engine) parts.old parts.new) }
{
    advance(parts, engine)?;
    let floor = parts.switches[(engine - 1) as usize].floor();
    let settled = settled_writes(alloc, &parts.book, engine, parts.store.floor(), floor)?;
    parts.store.sweep(floor, settled.as_slice())?;
    Ok(Line::Floor(parts.store.floor(), parts.store.held()))
}

// The live logged writes that an engine sees from a seqnum up to below another, the oldest first.
fn settled_writes(
    alloc: Global,
    book: &Book,
    engine: u32,
    low: Seqnum,
    high: Seqnum,
) -> Result<List<Settled>, Memory>
    requires engine { HasEngine engine book.now }
    requires sound { Sound book.now }
    ensures { IfOk result (λ settled.
        settled ≡ logged_between low.0 high.0 (view book.now engine)) }
{
    let mut settled = List::new(alloc);
    for seq in low.0..high.0 {
        add_write(alloc, book, engine, Seqnum(seq), &mut settled)?;
    }
    Ok(settled)
}

// Adds the write of the live record at a seqnum, where there is one.
fn add_write(
    alloc: Global,
    book: &Book,
    engine: u32,
    seq: Seqnum,
    settled: &mut List<Settled>,
) -> Result<(), Memory>
    requires { HasEngine engine book.now }
    ensures { OnOk result (settled.new ≡ settled.old ++ write_in (view book.now engine) seq.0) }
{
    if !book.is_live(engine, seq) {
        return Ok(());
    }
    match book.record(seq) {
        Some(rec) => push_write(alloc, seq, rec.bytes.as_slice(), settled),
        None => Ok(()),
    }
}

// Adds what a record's bytes write, where they spell a write.
fn push_write(
    alloc: Global,
    seq: Seqnum,
    bytes: &[u8],
    settled: &mut List<Settled>,
) -> Result<(), Memory>
    ensures { OnOk result (settled.new ≡ settled.old
        ++ settled_of true seq.0 (logged_write (body_of bytes.now))) }
{
    match decode(alloc, bytes) {
        Ok(body) => push_body(seq, body, settled),
        Err(DecodeFault::Memory) => Err(Memory),
        Err(DecodeFault::Bad(_)) => Ok(()),
    }
}

// Adds what a body writes, where it is a write.
fn push_body(seq: Seqnum, body: Body, settled: &mut List<Settled>) -> Result<(), Memory>
    ensures { OnOk result (settled.new ≡ settled.old ++ settled_of true seq.0 (logged_write body)) }
{
    match body {
        Body::Write {
            path,
            place,
            key,
            value,
            ..
        } => settled.push(Settled {
            key,
            seq,
            name: Name { path, place },
            here: value,
        }),
        _ => Ok(()),
    }
}
