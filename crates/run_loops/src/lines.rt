//! The lines of a run.

ghost use Rattle.std.specs.Prelude.{◌≡◌, ◌≤◌, [], ◌∷◌, OnOk, OnErr, IsErrOf};
ghost use Rattle.lb_base.specs.Devices.{CountRose, Appends, AppendsPrefix};
ghost use Rattle.run_with.specs.Runs.{Planned, Added, Ignored};
ghost use Rattle.run_with.specs.Written.{text_of_lines};

use crate::cluster::Cluster;
use boki_types::{Event, Line, Plan};
use lb_base::{PutFault, Sink, write_line};

/// Writes the line of an event of the plan.
pub(crate) fn write_planned<C: Cluster, K: Sink>(
    cluster: &C,
    plan: &Plan,
    n: u64,
    line: &Line,
    sink: &mut K,
) -> Result<(), PutFault>
    ensures ok { OnOk result (Appends (K.held sink.old) (K.held sink.new) (text_of_lines (C.line_text plan.now.program.functions) (Planned n line.now ∷ []))) }
    ensures err { OnErr result (AppendsPrefix (K.held sink.old) (K.held sink.new) (text_of_lines (C.line_text plan.now.program.functions) (Planned n line.now ∷ []))) }
    ensures fault { IsErrOf result PutFault.Fault → CountRose (K.faults sink.old) (K.faults sink.new) }
    ensures later { K.faults sink.old ≤ K.faults sink.new }
{
    let text = cluster.planned(plan, n, line)?;
    write_line(sink, text.as_str().as_bytes())
}

/// Writes the line of an event that a nemesis gave.
pub(crate) fn write_added<C: Cluster, K: Sink>(
    cluster: &C,
    plan: &Plan,
    n: u64,
    number: u32,
    event: &Event,
    line: &Line,
    sink: &mut K,
) -> Result<(), PutFault>
    ensures ok { OnOk result (Appends (K.held sink.old) (K.held sink.new) (text_of_lines (C.line_text plan.now.program.functions) (Added n number event.now line.now ∷ []))) }
    ensures err { OnErr result (AppendsPrefix (K.held sink.old) (K.held sink.new) (text_of_lines (C.line_text plan.now.program.functions) (Added n number event.now line.now ∷ []))) }
    ensures fault { IsErrOf result PutFault.Fault → CountRose (K.faults sink.old) (K.faults sink.new) }
    ensures later { K.faults sink.old ≤ K.faults sink.new }
{
    let text = cluster.added(plan, n, number, event, line)?;
    write_line(sink, text.as_str().as_bytes())
}

/// Writes that an event was ignored.
pub(crate) fn write_ignored<C: Cluster, K: Sink>(
    cluster: &C,
    plan: &Plan,
    n: u64,
    number: u32,
    sink: &mut K,
) -> Result<(), PutFault>
    ensures ok { OnOk result (Appends (K.held sink.old) (K.held sink.new) (text_of_lines (C.line_text plan.now.program.functions) (Ignored n number ∷ []))) }
    ensures err { OnErr result (AppendsPrefix (K.held sink.old) (K.held sink.new) (text_of_lines (C.line_text plan.now.program.functions) (Ignored n number ∷ []))) }
    ensures fault { IsErrOf result PutFault.Fault → CountRose (K.faults sink.old) (K.faults sink.new) }
    ensures later { K.faults sink.old ≤ K.faults sink.new }
{
    let text = cluster.ignored(plan, n, number)?;
    write_line(sink, text.as_str().as_bytes())
}
