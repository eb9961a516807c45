//! The lines of a text on one thread, over a plain list.

ghost use Rattle.std.specs.Prelude.{◌≡◌, ◌++◌, [], IfOk, OnOk};
ghost use Rattle.eng_index.specs.IndexState.{IsIndexOf};
ghost use Rattle.live_text.specs.Outputs.{log_of, ops_of, IsRunOf};
ghost use Rattle.live_work.specs.Plain.{added_by, plain_answer, plain_answers, list_behind, plain_ran};

use eng_index::Index;
use lb_base::{List, Memory, Record, Seqnum, Tag, Words};
use live_text::{LiveAnswer, LiveOp, LiveRan, LiveText, record_of};
use std::alloc::Global;

/// Appends a record to a list with its index, and answers its seqnum.
fn append(
    alloc: Global,
    worker: u32,
    tags: &[Tag],
    text: &Words,
    list: &mut List<(u32, Record)>,
    index: &mut Index,
) -> Result<LiveAnswer, Memory>
    requires { IsIndexOf (log_of list.old) index.old }
    ensures index { OnOk result (IsIndexOf (log_of list.new) index.new) }
    ensures list { OnOk result (list.new ≡ list.old ++ added_by worker (LiveOp.Append tags.now text.now)) }
    ensures answer { IfOk result (λ a. a ≡ plain_answer list.old (LiveOp.Append tags.now text.now)) }
{
    let record = record_of(alloc, tags, text)?;
    index.add(&record)?;
    list.push((worker, record))?;
    Ok(LiveAnswer::Append(Seqnum(list.len() as u64)))
}

/// Does one line of a worker on a list with its index.
fn do_line(
    alloc: Global,
    worker: u32,
    op: &LiveOp,
    list: &mut List<(u32, Record)>,
    index: &mut Index,
) -> Result<LiveAnswer, Memory>
    requires { IsIndexOf (log_of list.old) index.old }
    ensures index { OnOk result (IsIndexOf (log_of list.new) index.new) }
    ensures list { OnOk result (list.new ≡ list.old ++ added_by worker op.now) }
    ensures answer { IfOk result (λ a. a ≡ plain_answer list.old op.now) }
{
    let position = list.len() as u64;
    match op {
        LiveOp::Append(tags, text) => append(alloc, worker, tags.as_slice(), text, list, index),
        LiveOp::Next(tag, from) => Ok(LiveAnswer::Next(index.next(*tag, *from), position)),
        LiveOp::Prev(tag, upto) => Ok(LiveAnswer::Prev(index.prev(*tag, *upto), position)),
        LiveOp::Count(tag) => Ok(LiveAnswer::Count(index.count(*tag), position)),
    }
}

/// Does the lines of a worker.
fn do_lines(
    alloc: Global,
    worker: u32,
    lines: &[(u32, LiveOp)],
    list: &mut List<(u32, Record)>,
    index: &mut Index,
) -> Result<List<LiveAnswer>, Memory>
    requires { IsIndexOf (log_of list.old) index.old }
    ensures index { OnOk result (IsIndexOf (log_of list.new) index.new) }
    ensures list { OnOk result (list.new ≡ list_behind worker (ops_of worker lines.now) list.old) }
    ensures answers { IfOk result (λ a. a ≡ plain_answers worker (ops_of worker lines.now) list.old) }
{
    let mut answers = List::new(alloc);
    'lines: for line in lines {
        if line.0 == worker {
            answers.push(do_line(alloc, worker, &line.1, list, index)?)?;
        }
    }
    Ok(answers)
}

/// Does the lines of each worker, one worker after another.
fn in_turn(alloc: Global, text: &LiveText) -> Result<LiveRan, Memory>
    ensures { IfOk result (λ ran. ran ≡ plain_ran text.now) }
{
    let mut list = List::new(alloc);
    let mut index = Index::new(alloc)?;
    let mut answers = List::new(alloc);
    let lines = text.lines.as_slice();
    'workers: for done in 0..text.workers {
        let worker = done + 1;
        answers.push(do_lines(alloc, worker, lines, &mut list, &mut index)?)?;
    }
    Ok(LiveRan { list, answers })
}

/// What a text comes to on one thread, over a plain list, with one worker after another. The list and the answers are right for the
/// text.
pub fn live_plain(alloc: Global, text: &LiveText) -> Result<LiveRan, Memory>
    ensures plain { IfOk result (λ ran. ran ≡ plain_ran text.now) }
    ensures right { IfOk result (λ ran. IsRunOf text.now ran) }
{
    match in_turn(alloc, text) {
        Ok(ran) => Ok(ran),
        Err(_) => Err(Memory),
    }
}
