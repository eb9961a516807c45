//! Markers are adopted: each makes its fenced read.
ghost use Rattle.std.specs.Prelude.{◌≡◌, ◌+◌, ◌-◌, ◌<◌, ◌≤◌, ◌^◌, ◌∷◌, [], suc, length, zip, IfOk, OnErr};
ghost use Rattle.boki_types.specs.declared.line.StepLine.TheVariants as line;
ghost use Rattle.boki_types.specs.declared.operation.Answer.TheVariants as a;
ghost use Rattle.boki_types.specs.declared.operation.Ask.TheVariants as k;
ghost use Rattle.boki_types.specs.declared.operation.Op.TheVariants as o;
ghost use Rattle.boki_model.specs.Writes.{Store, read_fenced};
ghost use Rattle.boki_machine.specs.Attempt.{Attempt};
ghost use Rattle.boki_machine.specs.Step.{adopts_marker, fenced_value, read_all};
ghost use Rattle.book_api.specs.Books.{HasEngine, position};
ghost use Rattle.step_log.specs.Sound.{live_bodies, view};
ghost use Rattle.hm_read.specs.Kept.{AreKept};
ghost use Rattle.attempt_state.specs.Attempts.{AttemptStandsFor, HasScript};
ghost use Rattle.attempt_store.specs.Moved.{CanReadAt, EitherKept, FrameAsks, MovesStore, after_marker};

use crate::reading::pairs_of;
use crate::taking::take_answer;
use attempt_state::AttemptState;
use boki_types::{Answer, Answered, GroupAnswer, Life, Program, StepLine};
use book_api::Book;
use hm_write::{read_group_marked, read_marked};
use lb_base::{List, Memory, Seqnum, Words};
use obj_store::ObjStore;
use std::alloc::Global;

/// An attempt adopts its marker of an object, at a seqnum: it has the last write below, and the object is fenced there. Where the
/// store no longer has what it needs, the attempt stops.
pub fn adopt_read(
    alloc: Global,
    program: &Program,
    book: &Book,
    store: &mut ObjStore,
    state: &mut AttemptState,
    seq: Seqnum,
    key: &Words,
) -> Result<StepLine, Memory>
    requires engine { HasEngine state.old.progress.engine book.now }
    requires few { length program.now.functions < 2 ^ 32 }
    requires room { state.old.progress.answered + 1 < 2 ^ 64 }
    requires asks { FrameAsks state.old.frame (k.Op (o.Read key.now)) }
    ensures ok { IfOk result (λ told. (m : Store) (t : Attempt) → AreKept book.now store.old m → AttemptStandsFor program.now.functions t state.old
        → HasScript t → seq.0 ≤ position book.now t.engine
        → MovesStore program.now.functions (live_bodies book.now) store.new
        (adopts_marker t m seq.0 (key.now ∷ []) (a.Value (fenced_value (read_fenced key.now seq.0 m (view book.now t.engine))))
        (line.AdoptRead seq key.now (fenced_value (read_fenced key.now seq.0 m (view book.now t.engine)))))
        state.new told) }
    ensures err { OnErr result (state.new ≡ state.old) }
    ensures cut { OnErr result ((m : Store) (t : Attempt) → AreKept book.now store.old m → AttemptStandsFor program.now.functions t state.old
        → seq.0 ≤ position book.now t.engine
        → EitherKept store.new m (after_marker seq.0 (key.now ∷ []) m) (live_bodies book.now)) }
{
    let name = key.clone()?;
    let changed = state.progress.adopted(seq)?;
    match read_marked(alloc, book, store, changed.engine, key.as_str(), seq)? {
        Answered::Gone => {
            state.end(Life::Stopped);
            Ok(StepLine::StoppedGone)
        }
        Answered::Value(value) => {
            let answer = Answer::Value(value.clone()?);
            let line = StepLine::AdoptRead(seq, name, value);
            take_answer(alloc, program, state, changed, answer, line)
        }
    }
}

/// The same of a marker of several objects.
pub fn adopt_group(
    alloc: Global,
    program: &Program,
    book: &Book,
    store: &mut ObjStore,
    state: &mut AttemptState,
    seq: Seqnum,
    keys: &List<Words>,
) -> Result<StepLine, Memory>
    requires engine { HasEngine state.old.progress.engine book.now }
    requires few { length program.now.functions < 2 ^ 32 }
    requires room { state.old.progress.answered + 1 < 2 ^ 64 }
    requires asks { FrameAsks state.old.frame (k.Op (o.ReadGroup keys.now)) }
    requires reads { CanReadAt book.now store.old state.old.progress.engine seq.0 }
    ensures ok { IfOk result (λ told. (m : Store) (t : Attempt) → AreKept book.now store.old m → AttemptStandsFor program.now.functions t state.old
        → HasScript t → seq.0 ≤ position book.now t.engine
        → MovesStore program.now.functions (live_bodies book.now) store.new
        (adopts_marker t m seq.0 keys.now (a.Values (read_all (λ key. read_fenced key seq.0 m (view book.now t.engine)) keys.now))
        (line.AdoptReadAll seq (zip keys.now (read_all (λ key. read_fenced key seq.0 m (view book.now t.engine)) keys.now))))
        state.new told) }
    ensures err { OnErr result (state.new ≡ state.old) }
    ensures cut { OnErr result ((m : Store) (t : Attempt) → AreKept book.now store.old m → AttemptStandsFor program.now.functions t state.old
        → seq.0 ≤ position book.now t.engine
        → EitherKept store.new m (after_marker seq.0 keys.now m) (live_bodies book.now)) }
{
    let changed = state.progress.adopted(seq)?;
    match read_group_marked(alloc, book, store, changed.engine, keys.as_slice(), seq)? {
        GroupAnswer::Gone => {
            state.end(Life::Stopped);
            Ok(StepLine::StoppedGone)
        }
        GroupAnswer::Values(values) => {
            let pairs = pairs_of(alloc, keys.as_slice(), values.as_slice())?;
            let line = StepLine::AdoptReadAll(seq, pairs);
            take_answer(alloc, program, state, changed, Answer::Values(values), line)
        }
    }
}
