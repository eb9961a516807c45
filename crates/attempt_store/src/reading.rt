//! Reads that the store answers alone, without a record.
ghost use Rattle.std.specs.Prelude.{◌≡◌, ◌+◌, ◌<◌, ◌≤◌, ◌^◌, length, zip, IfOk, OnErr};
ghost use Rattle.lb_base.specs.declared.value.Mode.TheVariants as mode;
ghost use Rattle.boki_types.specs.declared.operation.Ask.TheVariants as k;
ghost use Rattle.boki_types.specs.declared.operation.Op.TheVariants as o;
ghost use Rattle.boki_model.specs.Writes.{Store};
ghost use Rattle.boki_machine.specs.Attempt.{Attempt};
ghost use Rattle.boki_machine.specs.Step.{reads, reads_group};
ghost use Rattle.book_api.specs.Books.{HasEngine, position, next_sent};
ghost use Rattle.step_log.specs.Sound.{view};
ghost use Rattle.hm_read.specs.Kept.{AreKept};
ghost use Rattle.attempt_state.specs.Attempts.{AttemptStandsFor, HasScript};
ghost use Rattle.attempt_store.specs.Moved.{CanReadAt, FrameAsks, IsMovedAlone};

use crate::taking::take_answer;
use attempt_state::{AttemptState, copy_values};
use boki_types::{Answer, Answered, GroupAnswer, Life, Program, StepLine};
use book_api::Book;
use hm_read::{read_group_r, read_r};
use lb_base::{List, Memory, Value, Words};
use obj_store::ObjStore;
use std::alloc::Global;

/// A free read, in mode R: the last write of the object at or below the attempt's cursor.
pub fn free_read(
    alloc: Global,
    program: &Program,
    book: &Book,
    store: &ObjStore,
    state: &mut AttemptState,
    key: Words,
) -> Result<StepLine, Memory>
    requires engine { HasEngine state.old.progress.engine book.now }
    requires few { length program.now.functions < 2 ^ 32 }
    requires room { state.old.progress.answered + 1 < 2 ^ 64 }
    requires asks { FrameAsks state.old.frame (k.Op (o.Read key)) }
    ensures ok { IfOk result (λ line. (m : Store) (a : Attempt) → AreKept book.now store.now m → AttemptStandsFor program.now.functions a state.old
        → HasScript a → a.cursor ≤ position book.now a.engine
        → IsMovedAlone program.now.functions (reads a m (view book.now a.engine) (next_sent book.now a.engine) key mode.R) state.new line) }
    ensures err { OnErr result (state.new ≡ state.old) }
{
    let at = state.progress;
    match read_r(alloc, book, store, at.engine, key.as_str(), at.cursor)? {
        Answered::Gone => {
            state.end(Life::Stopped);
            Ok(StepLine::StoppedGone)
        }
        Answered::Value(value) => {
            let answer = Answer::Value(value.clone()?);
            let line = StepLine::Read(key, value);
            take_answer(alloc, program, state, at, answer, line)
        }
    }
}

/// A free read of several objects, in mode R.
pub fn free_read_group(
    alloc: Global,
    program: &Program,
    book: &Book,
    store: &ObjStore,
    state: &mut AttemptState,
    keys: List<Words>,
) -> Result<StepLine, Memory>
    requires engine { HasEngine state.old.progress.engine book.now }
    requires few { length program.now.functions < 2 ^ 32 }
    requires room { state.old.progress.answered + 1 < 2 ^ 64 }
    requires asks { FrameAsks state.old.frame (k.Op (o.ReadGroup keys)) }
    requires reads { CanReadAt book.now store.now state.old.progress.engine state.old.progress.cursor.0 }
    ensures ok { IfOk result (λ line. (m : Store) (a : Attempt) → AreKept book.now store.now m → AttemptStandsFor program.now.functions a state.old
        → HasScript a → a.cursor ≤ position book.now a.engine
        → IsMovedAlone program.now.functions (reads_group a m (view book.now a.engine) (next_sent book.now a.engine) keys mode.R) state.new line) }
    ensures err { OnErr result (state.new ≡ state.old) }
{
    let at = state.progress;
    match read_group_r(alloc, book, store, at.engine, keys.as_slice(), at.cursor)? {
        GroupAnswer::Gone => {
            state.end(Life::Stopped);
            Ok(StepLine::StoppedGone)
        }
        GroupAnswer::Values(values) => {
            let pairs = pairs_of(alloc, keys.as_slice(), values.as_slice())?;
            let answer = Answer::Values(values);
            take_answer(alloc, program, state, at, answer, StepLine::ReadAll(pairs))
        }
    }
}

/// Names with their values, as far as both go.
pub fn pairs_of(
    alloc: Global,
    names: &[Words],
    values: &[Value],
) -> Result<List<(Words, Value)>, Memory>
    ensures { IfOk result (λ pairs. pairs ≡ zip names.now values.now) }
{
    let mut pairs = Vec::new(alloc);
    'pairs: for (name, value) in names.iter().zip(values) {
        let name = name.clone()?;
        pairs.push((name, value.clone()?))?;
    }
    Ok(List::from_vec(pairs))
}
