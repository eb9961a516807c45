//! Worked plans through the call of the program. What is expected was worked out by hand from the rules of the texts.

ghost use Rattle.std.specs.Prelude.{◌≤◌};

use boki_call::{Status, call};
use boki_types::Kind;
use cluster_run::Cluster;
use lb_base::{MemSink, MemSource, Sink, Source, SureSink, SureSource};
use std::alloc::{AllocError, Global};
use std::sync::Wait;
use std::test::Fail;
use std::thread::Threads;

/// The smallest use: one invocation with a write and a read.
pub(crate) const FIRST: &str = r#"setup 1 1 1 R
function f(a)
  write "x", a
  let v = read "x"
  return v + 1
end
events
submit 1 1 f(4)
sync
start 1 1 1
step 1
sync
step 1
step 1
step 1
sync
step 1
step 1
step 1
sync
step 1
"#;

/// What it prints.
const FIRST_LINES: &str = r#"1 sent 1.1
2 sync 1
3 started
4 send 1.2 init
5 sync 2
6 adopt 2 init R
7 store "x" 4
8 send 1.3 write "x"
9 sync 3
10 adopt 3 write "x"
11 read "x" 4
12 send 1.4 finish value 5
13 sync 4
14 over value 5
report
turn submit 1 f(4)
turn go 1 0
turn go 1 2
turn end 1
result 1 value 5
object "x" 4
end
"#;

/// A read of a name that was never written: `none + 1` traps.
const MISSING: &str = r#"setup 1 1 1 R
function h(k)
  let v = read k
  return v + 1
end
events
submit 1 1 h("x")
sync
start 1 1 1
step 1
sync
step 1
step 1
step 1
sync
step 1
"#;

/// What it prints.
const MISSING_LINES: &str = r#"1 sent 1.1
2 sync 1
3 started
4 send 1.2 init
5 sync 2
6 adopt 2 init R
7 read "x" none
8 send 1.3 finish trap kind
9 sync 3
10 over trap kind
report
turn submit 1 h("x")
turn go 1 1
turn end 1
result 1 trap kind
end
"#;

/// A plan that isn't in its canonical text.
const LOOSE: &str = r#"# demo
setup 1 1 1 R

function f( a )
 return (a+1)*2
end
events
repeat 2
cut
end
"#;

/// The same plan in its canonical text.
const CANONICAL: &str = r#"setup 1 1 1 R
function f(a)
  return (a + 1) * 2
end
events
repeat 2
  cut
end
"#;

/// What the generator makes of one transfer.
const ONE_TRANSFER: &str = r#"setup 4 1 4 R
object "a0" 1000
object "a1" 1000
object "a2" 1000
object "a3" 1000
object "a4" 1000
object "a5" 1000
object "a6" 1000
object "a7" 1000
object "a8" 1000
object "a9" 1000
function move(a, b, n)
  let x = read a
  let y = read b
  write a, x - n
  write b, y + n
  return x - n
end
events
submit 2 1 move("a1", "a2", 1)
sync
start 1 1 2
repeat 12
  step 1
  sync
end
"#;

const USAGE: &str =
    "usage: boki run [--with I] [--json] | judge | check | make N [--plan] | live | flow | log | audit | mux\n";

pub(crate) fn words_of(alloc: Global, texts: &[&str]) -> Result<Vec<String>, AllocError> {
    let mut words = Vec::new(alloc);
    for text in texts {
        words.push(String::from_str(alloc, text)?)?;
    }
    Ok(words)
}

/// The call with no nemeses.
fn called<R: Threads + Wait + Sync, S: Source, K: Sink>(
    rt: &R,
    alloc: Global,
    words: &[String],
    source: &mut S,
    sink: &mut K,
) -> Status {
    call::<Cluster, R, S, K>(rt, alloc, words, source, sink, Vec::new(alloc))
}

/// Calls over devices that never fail.
fn answer<R: Threads + Wait + Sync>(
    rt: &R,
    alloc: Global,
    texts: &[&str],
    text: &[u8],
) -> Result<(Status, SureSink), AllocError> {
    let words = words_of(alloc, texts)?;
    let mut source = SureSource::new(Vec::from_slice(alloc, text)?);
    let mut sink = SureSink::new(alloc);
    let status = called(rt, alloc, words.as_slice(), &mut source, &mut sink);
    Ok((status, sink))
}

/// Runs the first plan over a source whose calls `take` fail, and a sink that takes `most` bytes a call and whose calls `put` fail.
fn run_first<R: Threads + Wait + Sync>(
    rt: &R,
    alloc: Global,
    most: usize,
    take: u64,
    put: u64,
) -> Result<(Status, MemSink), AllocError>
    requires { 1 ≤ most }
{
    let words = words_of(alloc, &["run"])?;
    let text = Vec::from_slice(alloc, FIRST.as_bytes())?;
    let mut source = MemSource::new(text, vec![in alloc; take]?);
    let mut sink = MemSink::new(alloc, most, vec![in alloc; put]?);
    let status = called(rt, alloc, words.as_slice(), &mut source, &mut sink);
    Ok((status, sink))
}

#[test]
fn worked_plans_give_their_lines(rt: HostRuntime) -> Result<(), Fail> {
    let plans = [
        (FIRST, FIRST_LINES),
        (MISSING, MISSING_LINES),
        (LOOSE, "1 same\n2 same\nreport\nend\n"),
        ("setup 1 1 1 R\nevents\n", "report\nend\n"),
    ];
    for (text, lines) in plans {
        let (status, sink) = answer(&rt, rt.alloc(), &["run"], text.as_bytes())?;
        assert_eq!(rt; status, Status::Done);
        assert_eq!(rt; sink.bytes(), lines.as_bytes());
    }
    Ok(())
}

#[test]
fn plans_are_printed_in_their_canonical_text(rt: HostRuntime) -> Result<(), Fail> {
    let calls: [(&[&str], &str, &str); 4] = [
        (&["check"], FIRST, FIRST),
        (&["check"], LOOSE, CANONICAL),
        (&["make", "1", "--plan"], LOOSE, ONE_TRANSFER),
        (&["make", "--plan", "1"], LOOSE, ONE_TRANSFER),
    ];
    for (texts, text, printed) in calls {
        let (status, sink) = answer(&rt, rt.alloc(), texts, text.as_bytes())?;
        assert_eq!(rt; status, Status::Done);
        assert_eq!(rt; sink.bytes(), printed.as_bytes());
    }
    Ok(())
}

#[test]
fn transfers_are_run_and_summed_up(rt: HostRuntime) -> Result<(), Fail> {
    let (status, sink) = answer(&rt, rt.alloc(), &["make", "1"], LOOSE.as_bytes())?;
    assert_eq!(rt; status, Status::Done);
    let line = "events 27 records 5 turns 5 ended 1 objects 10 sum 10000\n";
    assert_eq!(rt; sink.bytes(), line.as_bytes());
    Ok(())
}

#[test]
fn live_texts_are_run(rt: HostRuntime) -> Result<(), Fail> {
    let text = "live 1\n1 append 7 \"a\"\n1 count 7\n";
    let (status, sink) = answer(&rt, rt.alloc(), &["live"], text.as_bytes())?;
    assert_eq!(rt; status, Status::Done);
    let output = "list\n1 1 7 \"a\"\nworker 1\nappend 1\ncount 1 at 1\nend\n";
    assert_eq!(rt; sink.bytes(), output.as_bytes());
    Ok(())
}

#[test]
fn turns_are_judged(rt: HostRuntime) -> Result<(), Fail> {
    let text = "setup 1 1 1 R\nobject \"x\" 1\nturns\n";
    let (status, sink) = answer(&rt, rt.alloc(), &["judge"], text.as_bytes())?;
    assert_eq!(rt; status, Status::Done);
    assert_eq!(rt; sink.bytes(), b"report\nobject \"x\" 1\nend\n".as_slice());
    Ok(())
}

#[test]
fn other_words_give_the_usage_line(rt: HostRuntime) -> Result<(), Fail> {
    // Behind the words that are no command's stand the commands that aren't built yet.
    let words: [&[&str]; 13] = [
        &[],
        &[""],
        &["run", "--with", "0"],
        &["check", "x"],
        &["make", "0"],
        &["make", "4001"],
        &["make", "0", "--plan"],
        &["make", "--", "5", "--plan"],
        &["run", "--with", "1"],
        &["run", "--json", "--json"],
        &["flow"],
        &["log"],
        &["mux"],
    ];
    for texts in words {
        let (status, sink) = answer(&rt, rt.alloc(), texts, FIRST.as_bytes())?;
        assert_eq!(rt; status, Status::Usage);
        assert_eq!(rt; sink.bytes(), USAGE.as_bytes());
    }
    Ok(())
}

/// The first plan, whose call has no argument.
fn without_argument(alloc: Global) -> Result<String, AllocError> {
    let mut text = String::new(alloc);
    for (i, part) in FIRST.split("f(4)").enumerate() {
        if i > 0 {
            text.push_str("f()")?;
        }
        text.push_str(part)?;
    }
    Ok(text)
}

/// Whether `run` and `check` both refuse the text with this line.
fn is_refused<R: Threads + Wait + Sync>(
    rt: &R,
    alloc: Global,
    text: &[u8],
    line: &str,
) -> Result<bool, AllocError> {
    for word in ["run", "check"] {
        let (status, sink) = answer(rt, alloc, &[word], text)?;
        if status.code() != 1 || sink.bytes() != line.as_bytes() {
            return Ok(false);
        }
    }
    Ok(true)
}

#[test]
fn bad_texts_are_refused_by_line_and_kind(rt: HostRuntime) -> Result<(), Fail> {
    let first = FIRST.as_bytes();
    let (whole, _) = first.split_at(first.len().saturating_sub(1));
    let (head, _) = first.split_at(first.len().min(77));
    let texts: [(&[u8], &str); 13] = [
        (b"setup 1 1 17 R\nevents\n", "refused 1 range\n"),
        (
            b"setup 1 1 1 R\nevents\nsubmit 1 1 nobody()\n",
            "refused 3 name\n",
        ),
        (b"setup 1 1 1 R\nevents", "refused 2 truncated\n"),
        (b"setup 1 1 1 R\n", "refused 2 end\n"),
        (b"", "refused 1 end\n"),
        (whole, "refused 21 truncated\n"),
        (head, "refused 6 end\n"),
        (&[255, 10], "refused 1 utf8\n"),
        (
            b"setup 1 1 1 R\nevents\nrepeat 200000\ncut\ncut\nend\n",
            "refused 6 events\n",
        ),
        (
            b"setup 1 1 1 R\nobject \"x\" 1\nobject \"x\" 2\nevents\n",
            "refused 3 name\n",
        ),
        (b"setup 1 1 1 R\nevents\ncatch 2\n", "refused 3 range\n"),
        (b"setup 1 1 1 R\nevent\n", "refused 2 syntax\n"),
        (
            b"setup 1 1 1 R\nevents\nsubmit 1 1 f(99999999999999999999)\n",
            "refused 3 range\n",
        ),
    ];
    for (text, line) in texts {
        assert!(rt; is_refused(&rt, rt.alloc(), text, line)?, "not {line}");
    }
    let text = without_argument(rt.alloc())?;
    assert!(rt; is_refused(&rt, rt.alloc(), text.as_bytes(), "refused 8 arity\n")?);
    Ok(())
}

#[test]
fn a_text_past_the_limit_is_refused_as_a_whole(rt: HostRuntime) -> Result<(), Fail> {
    let alloc = rt.alloc();
    let text = vec![in alloc; b'#'; 1_048_577]?;
    for word in ["run", "check"] {
        let (status, sink) = answer(&rt, alloc, &[word], &text)?;
        let kind = Kind::Length;
        assert_eq!(rt; status, Status::Refused { line: 0, kind });
        assert_eq!(rt; sink.bytes(), b"refused 0 length\n".as_slice());
    }
    Ok(())
}

#[test]
fn a_sink_that_takes_5_bytes_a_call_gets_all(rt: HostRuntime) -> Result<(), Fail> {
    let (status, sink) = run_first(&rt, rt.alloc(), 5, 0, 0)?;
    assert_eq!(rt; status, Status::Done);
    assert_eq!(rt; sink.bytes(), FIRST_LINES.as_bytes());
    Ok(())
}

#[test]
fn a_failing_put_leaves_the_lines_before(rt: HostRuntime) -> Result<(), Fail> {
    // 14 lines of events and 8 of the report, each handed over in one piece.
    let mut lines = 0u64;
    let mut before = 0usize;
    for line in FIRST_LINES.split_inclusive('\n') {
        lines = lines.saturating_add(1);
        let (status, sink) = run_first(&rt, rt.alloc(), 4096, 0, lines)?;
        assert_eq!(rt; status, Status::WriteFault);
        assert!(rt; FIRST_LINES.as_bytes().starts_with(sink.bytes()));
        assert_eq!(rt; sink.bytes().len(), before);
        before = before.saturating_add(line.len());
    }
    assert_eq!(rt; lines, 22);
    let (status, _) = run_first(&rt, rt.alloc(), 4096, 0, 23)?;
    assert_eq!(rt; status, Status::Done);
    let (_, sink) = run_first(&rt, rt.alloc(), 5, 0, 3)?;
    assert_eq!(rt; sink.bytes(), b"1 sent 1.1".as_slice());
    Ok(())
}

/// The words `check` over the loose plan, and a sink whose call `put` fails.
fn check_loose<R: Threads + Wait + Sync>(
    rt: &R,
    alloc: Global,
    put: u64,
) -> Result<(Status, MemSink), AllocError> {
    let words = words_of(alloc, &["check"])?;
    let mut source = SureSource::new(Vec::from_slice(alloc, LOOSE.as_bytes())?);
    let mut sink = MemSink::new(alloc, 4096, vec![in alloc; put]?);
    let status = called(rt, alloc, words.as_slice(), &mut source, &mut sink);
    Ok((status, sink))
}

#[test]
fn a_plan_is_written_line_by_line(rt: HostRuntime) -> Result<(), Fail> {
    let mut lines = 0u64;
    let mut before = 0usize;
    for line in CANONICAL.split_inclusive('\n') {
        lines = lines.saturating_add(1);
        let (status, sink) = check_loose(&rt, rt.alloc(), lines)?;
        assert_eq!(rt; status, Status::WriteFault);
        assert_eq!(rt; sink.bytes().len(), before);
        before = before.saturating_add(line.len());
    }
    let (status, sink) = check_loose(&rt, rt.alloc(), 0)?;
    assert_eq!(rt; status, Status::Done);
    assert_eq!(rt; sink.bytes(), CANONICAL.as_bytes());
    Ok(())
}

#[test]
fn a_failing_take_leaves_nothing(rt: HostRuntime) -> Result<(), Fail> {
    // The text comes at the first call, its end at the second.
    for k in [1, 2] {
        let (status, sink) = run_first(&rt, rt.alloc(), 4096, k, 0)?;
        assert_eq!(rt; status, Status::ReadFault);
        assert!(rt; sink.bytes().is_empty());
    }
    let (status, _) = run_first(&rt, rt.alloc(), 4096, 3, 0)?;
    assert_eq!(rt; status, Status::Done);
    Ok(())
}
