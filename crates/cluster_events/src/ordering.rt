//! Events of shards, the metalog and the engines' positions.
ghost use Rattle.std.specs.Prelude.{◌≡◌, IfOk};
ghost use Rattle.boki_types.specs.declared.event.Event.TheVariants as event;
ghost use Rattle.cluster_events.specs.Lines.{line_of_cut};
ghost use Rattle.cluster_events.specs.Machines.{CanDoAny, DoesEventAny, AreParts, CatchesAll};

use boki_types::{Cut, Line};
use book_api::Gate;
use flow_parts::Parts;
use lb_base::Memory;
use std::thread::Threads;

/// A replica copies.
pub fn copy(parts: &mut Parts, shard: u32, replica: u32, n: u64) -> Line
    requires { CanDoAny (event.Copy shard replica n) parts.old }
    ensures { DoesEventAny (event.Copy shard replica n) parts.old parts.new result }
{
    Line::Copied(parts.book.copy(shard, replica, n))
}

/// The metalog orders what every replica has.
pub fn cut(parts: &mut Parts) -> Result<Line, Memory>
    requires { CanDoAny event.Cut parts.old }
    ensures { IfOk result (DoesEventAny event.Cut parts.old parts.new) }
{
    let cut = parts.book.cut()?;
    Ok(cut_line(parts.book.length(), cut))
}

// The line of a cut.
fn cut_line(length: u64, cut: Cut) -> Line
    ensures { result ≡ line_of_cut length cut }
{
    match cut {
        Cut::Entry(entry) => Line::Cut(entry, length),
        Cut::Same => Line::Same,
    }
}

/// An engine is caught up.
pub fn catch(parts: &mut Parts, engine: u32) -> Result<Line, Memory>
    requires { CanDoAny (event.Catch engine) parts.old }
    ensures { IfOk result (DoesEventAny (event.Catch engine) parts.old parts.new) }
{
    Ok(Line::At(parts.book.catch_up(engine)?))
}

/// Every engine is caught up, each behind the gate, and the length of the log is answered.
pub fn catch_all<R: Threads + Sync, G: Gate + Sync>(
    rt: &R,
    parts: &mut Parts,
    gate: &G,
) -> Result<u64, Memory>
    requires { AreParts parts.old }
    ensures { IfOk result (CatchesAll parts.old parts.new) }
{
    parts.book.catch_all(rt, gate)
}

/// A cut, and then every engine is caught up.
pub fn sync<R: Threads + Sync, G: Gate + Sync>(
    rt: &R,
    parts: &mut Parts,
    gate: &G,
) -> Result<Line, Memory>
    requires { CanDoAny event.Sync parts.old }
    ensures { IfOk result (DoesEventAny event.Sync parts.old parts.new) }
{
    let _cut = parts.book.cut()?;
    Ok(Line::Sync(parts.book.catch_all(rt, gate)?))
}
