//! The parts of a plan's cluster in which nothing has happened.
ghost use Rattle.std.specs.Prelude.{◌≡◌, ℕ, List, [], length, replicate, IfOk, IsTrue, All};
ghost use Rattle.boki_model.specs.Plans.{is_plan};
ghost use Rattle.boki_machine.specs.Machine.{initial_machine};
ghost use Rattle.hm_switch.specs.SwitchStates.{IsNew};
ghost use Rattle.cluster_events.specs.Machines.{PartsAreOf};

use boki_queue::QueueCache;
use boki_txn::TxnCache;
use boki_types::Plan;
use book_api::Book;
use flow_parts::Parts;
use hm_switch::SwitchView;
use lb_base::{Memory, Mode};
use obj_store::ObjStore;
use std::alloc::Global;

/// What the attempts of a plan run on when nothing has happened.
pub fn new_parts(alloc: Global, plan: &Plan) -> Result<Parts, Memory>
    requires { IsTrue (is_plan plan.now) }
    ensures { IfOk result (PartsAreOf plan.now.setup plan.now.program.functions (initial_machine plan.now.setup plan.now.objects)) }
{
    let setup = plan.setup;
    Ok(Parts {
        book: Book::new(alloc, setup.shards, setup.replicas, setup.engines)?,
        store: ObjStore::new(alloc, plan.objects.as_slice())?,
        queues: new_queues(alloc, setup.engines)?,
        txns: new_txns(alloc, setup.engines)?,
        switches: new_switches(alloc, setup.engines, setup.mode)?,
        first: setup.mode,
        newer: setup.newer,
    })
}

// A cache of queues for each engine.
fn new_queues(alloc: Global, engines: u32) -> Result<Vec<QueueCache>, Memory>
    ensures { IfOk result (λ v. v.items ≡ replicate engines []) }
{
    let mut queues = Vec::new(alloc);
    for _ in 0..engines {
        queues.push(QueueCache::new(alloc)?)?;
    }
    Ok(queues)
}

// A cache of transactions for each.
fn new_txns(alloc: Global, engines: u32) -> Result<Vec<TxnCache>, Memory>
    ensures { IfOk result (λ v. v.items ≡ replicate engines []) }
{
    let mut txns = Vec::new(alloc);
    for _ in 0..engines {
        txns.push(TxnCache::new(alloc)?)?;
    }
    Ok(txns)
}

// A view of switches for each, of a book with this first mode.
fn new_switches(alloc: Global, engines: u32, first: Mode) -> Result<Vec<SwitchView>, Memory>
    ensures { IfOk result (λ v. (length v.items ≡ engines) × All (IsNew first) v.items) }
{
    let mut switches = Vec::new(alloc);
    for _ in 0..engines {
        switches.push(SwitchView::new(alloc, first))?;
    }
    Ok(switches)
}
