//! How a list and answers are printed.

use lb_base::{List, Memory, Record, Seqnum, Tag, Words};
use live_text::{LiveAnswer, LiveRan, print_ran, record_of};
use std::alloc::Global;
use std::test::Fail;

fn record(alloc: Global, tags: &[Tag], text: &str) -> Result<Record, Memory> {
    record_of(alloc, tags, &Words::from_text(alloc, text)?)
}

/// Two records, the second by worker 2, and answers of two workers.
fn two_workers(alloc: Global) -> Result<LiveRan, Memory> {
    let mut list = List::new(alloc);
    list.push((1, record(alloc, &[Tag(7), Tag(8)], "a\"\n")?))?;
    list.push((2, record(alloc, &[Tag(0)], "")?))?;
    let mut answers = List::new(alloc);
    answers.push(List::from_slice(
        alloc,
        &[
            LiveAnswer::Append(Seqnum(1)),
            LiveAnswer::Prev(Some(Seqnum(1)), 1),
            LiveAnswer::Prev(None, 1),
            LiveAnswer::Count(1, 2),
        ],
    )?)?;
    answers.push(List::from_slice(
        alloc,
        &[
            LiveAnswer::Append(Seqnum(2)),
            LiveAnswer::Next(Some(Seqnum(2)), 2),
            LiveAnswer::Next(None, 2),
        ],
    )?)?;
    Ok(LiveRan { list, answers })
}

#[test]
fn prints_lists_and_answers(rt: HostRuntime) -> Result<(), Fail> {
    let ran = two_workers(rt.alloc())?;
    let text = print_ran(rt.alloc(), &ran)?;
    assert_eq!(rt;
        text.as_str(),
        "list\n1 1 7,8 \"a\\\"\\n\"\n2 2 0 \"\"\nworker 1\nappend 1\nprev 1 at 1\nprev none at 1\ncount 1 at 2\nworker 2\nappend 2\nnext 2 at 2\nnext none at 2\nend\n"
    );
    Ok(())
}
