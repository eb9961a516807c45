//! What an engine keeps: the switches as far as it has seen them, and the queues and the
//! transactions behind some records.
ghost use Rattle.std.specs.Prelude.{◌≡◌, true, Some, IfOk};
ghost use Rattle.boki_types.specs.declared.plan.Setup.{Setup};
ghost use Rattle.boki_model.specs.Modes.{mode_after};
ghost use Rattle.boki_model.specs.Folds.{queues, front, commits, store_values, values_of_names};
ghost use Rattle.boki_model.specs.Writes.{Store};
ghost use Rattle.boki_machine.specs.Step.{records_below, is_committed as committed_at};
ghost use Rattle.book_api.specs.Books.{HasEngine};
ghost use Rattle.boki_queue.specs.QueueStates.{popped_at};
ghost use Rattle.boki_txn.specs.TxnStates.{commits_at};
ghost use Rattle.hm_switch.specs.SwitchStates.{Follows};
ghost use Rattle.step_log.specs.Sound.{Sound, view};
ghost use Rattle.flow_parts.specs.Parts.{HasEngineParts, KeepsParts, PartsStandFor};

use book_api::Book;
use flow_parts::Parts;
use hm_switch::SwitchView;
use lb_base::{List, Memory, Mode, Seqnum, Value, Words};

/// The mode of an invocation that begins at a seqnum.
pub(crate) fn mode_at(parts: &mut Parts, engine: u32, seq: Seqnum) -> Result<Mode, Memory>
    requires { HasEngineParts engine parts.old }
    ensures mode { IfOk result (λ mode. (setup : Setup) (store : Store)
        → PartsStandFor setup store parts.old
        → mode ≡ mode_after setup.mode (records_below seq.0 (view parts.old.book engine))) }
    ensures parts { KeepsParts parts.old parts.new }
{
    let switches = &mut parts.switches[(engine - 1) as usize];
    mode_in(switches, &parts.book, engine, seq)
}

/// The same of a view of switches, which goes on to the engine's position.
fn mode_in(switches: &mut SwitchView, book: &Book, engine: u32, seq: Seqnum) -> Result<Mode, Memory>
    requires engine { HasEngine engine book.now }
    requires sound { Sound book.now }
    requires follows { Follows book.now engine switches.old }
    ensures mode { IfOk result (λ mode. mode
        ≡ mode_after switches.old.first (records_below seq.0 (view book.now engine))) }
    ensures first { switches.new.first ≡ switches.old.first }
    ensures follows { Follows book.now engine switches.new }
{
    switches.advance(book, engine)?;
    Ok(switches.mode_at(seq))
}

/// What the pop at a seqnum answers.
pub(crate) fn pop_value(
    parts: &mut Parts,
    engine: u32,
    queue: &str,
    seq: Seqnum,
) -> Result<Value, Memory>
    requires engine { HasEngineParts engine parts.old }
    requires pop { popped_at seq.0 (view parts.old.book engine) ≡ Some queue.now }
    ensures value { IfOk result (λ value. value
        ≡ front queue.now (queues (records_below seq.0 (view parts.old.book engine)))) }
    ensures parts { KeepsParts parts.old parts.new }
{
    let cache = &mut parts.queues[(engine - 1) as usize];
    cache.pop_uncounted(&parts.book, engine, queue, seq)
}

/// The values of a begin's names at its seqnum.
pub(crate) fn begun_values(
    parts: &mut Parts,
    engine: u32,
    seq: Seqnum,
    names: &[Words],
) -> Result<List<Value>, Memory>
    requires { HasEngineParts engine parts.old }
    ensures values { IfOk result (λ values. values ≡ values_of_names names.now
        (store_values (commits (records_below seq.0 (view parts.old.book engine))))) }
    ensures parts { KeepsParts parts.old parts.new }
{
    let cache = &mut parts.txns[(engine - 1) as usize];
    cache.snapshot_all(&parts.book, engine, seq, names)
}

/// Whether the commit at a seqnum succeeded.
pub(crate) fn is_committed(parts: &mut Parts, engine: u32, seq: Seqnum) -> Result<bool, Memory>
    requires engine { HasEngineParts engine parts.old }
    requires commit { commits_at seq.0 (view parts.old.book engine) ≡ true }
    ensures answer { IfOk result (λ good. good ≡ committed_at seq.0 (view parts.old.book engine)) }
    ensures parts { KeepsParts parts.old parts.new }
{
    let cache = &mut parts.txns[(engine - 1) as usize];
    cache.commit_at(&parts.book, engine, seq)
}
