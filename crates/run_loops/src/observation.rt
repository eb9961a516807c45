//! What a nemesis is told of an event, by its answer.

ghost use Rattle.std.specs.Prelude.{◌≡◌};
ghost use Rattle.run_with.specs.Runs.{is_send as is_send_line, step_sent, attempt_started, attempt_stepped, seen_of};

use boki_types::{Event, Line, StepLine};
use nemesis_types::{Seen, Started};

/// Whether a step sent a record.
fn is_send(line: &StepLine) -> bool
    ensures { result ≡ is_send_line line.now }
{
    match line {
        StepLine::SendInit(..) => true,
        StepLine::SendFinish(..) => true,
        StepLine::SendRead(..) => true,
        StepLine::SendWrite(..) => true,
        StepLine::SendJoin(..) => true,
        StepLine::SendSpawn(..) => true,
        StepLine::SendPush(..) => true,
        StepLine::SendPop(..) => true,
        StepLine::SendBegin(..) => true,
        StepLine::SendCommit(..) => true,
        StepLine::SendReadAll(..) => true,
        _ => false,
    }
}

/// Whether an event sent a step's record.
fn sent(event: &Event, line: &Line) -> bool
    ensures { result ≡ step_sent event.now line.now }
{
    match event {
        Event::Step { .. } => match line {
            Line::Step(step) => is_send(step),
            _ => false,
        },
        _ => false,
    }
}

/// The attempt that an event started.
fn started(event: &Event, line: &Line) -> Option<Started>
    ensures { result ≡ attempt_started event.now line.now }
{
    match event {
        Event::Start {
            attempt,
            path,
            engine,
        } => match line {
            Line::Started => Some(Started {
                attempt: *attempt,
                path: *path,
                engine: *engine,
            }),
            _ => None,
        },
        _ => None,
    }
}

/// The attempt that an event stepped.
fn stepped(event: &Event) -> Option<u32>
    ensures { result ≡ attempt_stepped event.now }
{
    match event {
        Event::Step { attempt } => Some(*attempt),
        _ => None,
    }
}

/// What a nemesis is told of an event of the plan.
pub(crate) fn seen(n: u64, event: &Event, line: &Line) -> Seen
    ensures { result ≡ seen_of n event.now line.now }
{
    Seen {
        event: n,
        started: started(event, line),
        stepped: stepped(event),
        sent: sent(event, line),
    }
}
