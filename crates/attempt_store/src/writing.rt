//! Writes that the store takes.
ghost use Rattle.std.specs.Prelude.{◌≡◌, ◌+◌, ◌<◌, ◌^◌, suc, length, true, false, List, IfOk, OnErr};
ghost use Rattle.boki_types.specs.declared.body.Body.{Body};
ghost use Rattle.boki_types.specs.declared.log.Sent.{Sent as Location};
ghost use Rattle.boki_types.specs.declared.operation.Ask.TheVariants as k;
ghost use Rattle.boki_types.specs.declared.operation.Op.TheVariants as o;
ghost use Rattle.boki_types.specs.declared.program.Function.{Function};
ghost use Rattle.boki_model.specs.Live.{Live};
ghost use Rattle.boki_model.specs.Writes.{Store, put_at, is_settled};
ghost use Rattle.boki_machine.specs.Attempt.{Attempt};
ghost use Rattle.boki_machine.specs.Step.{free_write_step, logged_write_step, next_write_name};
ghost use Rattle.hm_read.specs.Kept.{IsKept};
ghost use Rattle.obj_store.specs.StandsFor.{IsUnchanged};
ghost use Rattle.attempt_state.specs.Attempts.{AttemptStandsFor, HasScript};
ghost use Rattle.attempt_store.specs.Moved.{EitherKept, FrameAsks, MovesStore};

use crate::taking::take_answer;
use attempt_state::{AttemptState, Progress};
use boki_types::{Answer, Life, Named, Program, Put, StepLine};
use hm_write::{put_w, store_write};
use lb_base::{Memory, Value, Words};
use obj_store::ObjStore;
use std::alloc::Global;

/// A free write, in mode W: a version is put in, or the write is late.
pub fn free_write(
    alloc: Global,
    program: &Program,
    store: &mut ObjStore,
    state: &mut AttemptState,
    key: Words,
    value: Value,
) -> Result<StepLine, Memory>
    requires few { length program.now.functions < 2 ^ 32 }
    requires room { state.old.progress.answered + 1 < 2 ^ 64 }
    requires asks { FrameAsks state.old.frame (k.Op (o.Write key value)) }
    ensures ok { IfOk result (λ line. (m : Store) (records : List (Live Body)) (a : Attempt) → IsKept store.old m records → AttemptStandsFor program.now.functions a state.old
        → HasScript a
        → MovesStore program.now.functions records store.new (free_write_step (put_at key a.cursor (suc a.free_writes) m) a m key value) state.new line) }
    ensures err { OnErr result (state.new ≡ state.old) }
    ensures cut { OnErr result ((m : Store) (records : List (Live Body)) (a : Attempt) → IsKept store.old m records → AttemptStandsFor program.now.functions a state.old
        → EitherKept store.new m (free_write_step (put_at key a.cursor (suc a.free_writes) m) a m key value).store records) }
{
    let at = state.progress;
    let Some(number) = at.free_writes.checked_add(1) else {
        return Err(Memory);
    };
    match put_w(store, key.as_str(), at.cursor, number, &value)? {
        Put::Gone => {
            state.end(Life::Stopped);
            Ok(StepLine::StoppedGone)
        }
        Put::Late => {
            state.progress.late = true;
            Ok(StepLine::Late(key))
        }
        Put::Done => {
            let changed = Progress {
                free_writes: number,
                ..at
            };
            let line = StepLine::Put(key, value, at.cursor, number);
            take_answer(alloc, program, state, changed, Answer::Done, line)
        }
    }
}

/// The value of a logged write is stored under the write's name.
pub fn store_value(
    store: &mut ObjStore,
    state: &mut AttemptState,
    key: Words,
    value: Value,
) -> Result<StepLine, Memory>
    ensures ok { IfOk result (λ line. (functions : List Function) (m : Store) (records : List (Live Body)) (a : Attempt) (at : Location) → IsKept store.old m records
        → AttemptStandsFor functions a state.old → HasScript a → (is_settled (next_write_name a) m.floor records ≡ true → a.cursor < m.floor)
        → MovesStore functions records store.new (logged_write_step false false a m at key value) state.new line) }
    ensures err { OnErr result (state.new ≡ state.old) }
    ensures cut { OnErr result (IsUnchanged store.old store.new) }
{
    let at = state.progress;
    match store_write(store, at.write_name(), at.cursor, &value)? {
        Named::Gone => {
            state.end(Life::Stopped);
            Ok(StepLine::StoppedGone)
        }
        Named::Done => {
            state.progress.stored = true;
            Ok(StepLine::Store(key, value))
        }
    }
}
