//! The definitions of the machine and of the failure-free execution, computed on worked examples: each function has
//! as its contract that the plan of that name gives the lines and the report that stand beside it in `examples/`.
#![tactic(auto)]

mod by_hand;

ghost use Rattle.computed_examples.specs.Branches.{BranchesRun};
ghost use Rattle.computed_examples.specs.Children.{ChildrenRun};
ghost use Rattle.computed_examples.specs.Conditions.{ConditionsRun};
ghost use Rattle.computed_examples.specs.LateWrite.{LateWriteRun};
ghost use Rattle.computed_examples.specs.LostReply.{LostReplyRun};
ghost use Rattle.computed_examples.specs.MarkerAdoptedTwice.{MarkerAdoptedTwiceRun};
ghost use Rattle.computed_examples.specs.MissingObject.{MissingObjectRun};
ghost use Rattle.computed_examples.specs.MixedFormats.{MixedFormatsRun};
ghost use Rattle.computed_examples.specs.NamesRead.{NamesReadRun};
ghost use Rattle.computed_examples.specs.OutlivedTrim.{OutlivedTrimRun};
ghost use Rattle.computed_examples.specs.QueueInOrder.{QueueInOrderRun};
ghost use Rattle.computed_examples.specs.ReadAtACursor.{ReadAtACursorRun};
ghost use Rattle.computed_examples.specs.ReadGroup.{ReadGroupRun};
ghost use Rattle.computed_examples.specs.ReadOfAVersion.{ReadOfAVersionRun};
ghost use Rattle.computed_examples.specs.RepeatedBehindAFence.{RepeatedBehindAFenceRun};
ghost use Rattle.computed_examples.specs.RepeatedVersion.{RepeatedVersionRun};
ghost use Rattle.computed_examples.specs.RestartedEngine.{RestartedEngineRun};
ghost use Rattle.computed_examples.specs.Smallest.{SmallestRun};
ghost use Rattle.computed_examples.specs.StaleSwitchEnd.{StaleSwitchEndRun};
ghost use Rattle.computed_examples.specs.SweptNames.{SweptNamesRun};
ghost use Rattle.computed_examples.specs.Switch.{SwitchRun};
ghost use Rattle.computed_examples.specs.TrapKinds.{TrapKindsRun};
ghost use Rattle.computed_examples.specs.Traps.{TrapsRun};
ghost use Rattle.computed_examples.specs.TwoAttempts.{TwoAttemptsRun};
ghost use Rattle.computed_examples.specs.TwoPops.{TwoPopsRun};
ghost use Rattle.computed_examples.specs.TwoTransactions.{TwoTransactionsRun};
ghost use Rattle.computed_examples.specs.UnevenReplicas.{UnevenReplicasRun};
ghost use Rattle.computed_examples.specs.UnfinishedWriter.{UnfinishedWriterRun};

pub use by_hand::{illegal_turns, known_tags};

/// Loops, branches and operators: scripts that ask no operation.
pub fn branches()
    ensures { BranchesRun }
{}

/// A spawn, and two joins of the child.
pub fn children()
    ensures { ChildrenRun }
{}

/// Conditions, for which dead records count nothing, and trimmed tags.
pub fn conditions()
    ensures { ConditionsRun }
{}

/// In mode W a write that a later read has fenced is stored and logged.
pub fn late_write()
    ensures { LateWriteRun }
{}

/// A lost reply: the record that is sent again is dead, and nothing is done twice.
pub fn lost_reply()
    ensures { LostReplyRun }
{}

/// A marker answers what was written below it, also to an attempt that adopts it after a version at its own seqnum.
pub fn marker_adopted_twice()
    ensures { MarkerAdoptedTwiceRun }
{}

/// A missing object reads as none, and a sum with none traps.
pub fn missing_object()
    ensures { MissingObjectRun }
{}

/// An old and a new engine write at one place, with the value under its name and in the record.
pub fn mixed_formats()
    ensures { MixedFormatsRun }
{}

/// A commit fails where another wrote a name that its transaction only read.
pub fn names_read()
    ensures { NamesReadRun }
{}

/// An attempt that outlives a trim stops; the floor, and what the store holds.
pub fn outlived_trim()
    ensures { OutlivedTrimRun }
{}

/// Two pushes and a pop, which answers the value that was pushed first.
pub fn queue_in_order()
    ensures { QueueInOrderRun }
{}

/// In mode R a read answers at its cursor, and not the newest write.
pub fn read_at_a_cursor()
    ensures { ReadAtACursorRun }
{}

/// A read of two objects at one record, which fences both.
pub fn read_group()
    ensures { ReadGroupRun }
{}

/// A switch from mode W to R, where a read answers a version.
pub fn read_of_a_version()
    ensures { ReadOfAVersionRun }
{}

/// A free write that is there is done, also where a later read has fenced its object.
pub fn repeated_behind_a_fence()
    ensures { RepeatedBehindAFenceRun }
{}

/// In mode W a free write that a second attempt and a missed call repeat is one version.
pub fn repeated_version()
    ensures { RepeatedVersionRun }
{}

/// An engine restarts: its auxiliary data and its attempts are gone, and a new attempt goes on.
pub fn restarted_engine()
    ensures { RestartedEngineRun }
{}

/// The smallest run: one invocation writes an object, reads it and ends.
pub fn smallest()
    ensures { SmallestRun }
{}

/// A record that was sent to end one switch doesn't end the next one early.
pub fn stale_switch_end()
    ensures { StaleSwitchEndRun }
{}

/// What the store holds before and after a sweep passes two logged writes.
pub fn swept_names()
    ensures { SweptNamesRun }
{}

/// A switch from mode R to W waits for an invocation that began before it; between them the mode is T.
pub fn switch()
    ensures { SwitchRun }
{}

/// One trap of each other kind, and which comes first where two could.
pub fn trap_kinds()
    ensures { TrapKindsRun }
{}

/// Traps as results: an integer out of range, and a loop without end.
pub fn traps()
    ensures { TrapsRun }
{}

/// Two attempts of one transfer, of which one is killed between storing its value and logging its write.
pub fn two_attempts()
    ensures { TwoAttemptsRun }
{}

/// Two pops of a queue with one value.
pub fn two_pops()
    ensures { TwoPopsRun }
{}

/// Two transactions on one name: the second commit fails.
pub fn two_transactions()
    ensures { TwoTransactionsRun }
{}

/// Replicas that lag: a cut orders what each replica has, and the shards in ascending number.
pub fn uneven_replicas()
    ensures { UnevenReplicasRun }
{}

/// An invocation of mode W without its end: its go turn counts the versions at its last record.
pub fn unfinished_writer()
    ensures { UnfinishedWriterRun }
{}
