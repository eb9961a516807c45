//! Worked plans through the call of the program, with its own nemeses. What is expected was worked out by hand.

ghost use Rattle.std.specs.Prelude.{◌≤◌, vec_len, IfOk};

use crate::calls::{FIRST, words_of};
use boki_call::{Nemesis, Status, call};
use cluster_run::Cluster;
use lb_base::{Memory, SureSink, SureSource};
use nemesis::{Doubler, Killer, Loser};
use std::alloc::Global;
use std::sync::Wait;
use std::test::Fail;
use std::thread::Threads;

/// A write, sent again by the attempt that the doubler starts beside the first.
const SET: &str = r#"setup 1 1 1 R
function set(k, v)
  write k, v
  return v
end
events
submit 1 1 set("x", 1)
sync
start 1 1 1
step 1
sync
step 1
step 1
step 1
sync
step 1
step 1
sync
step 1
"#;

/// What the doubler makes of it.
const SET_DOUBLED: &str = r#"1 sent 1.1
2 sync 1
3 started
3+2 start 2049 1 1: started
4 send 1.2 init
4+2 step 2049: send 1.3 init
5 sync 3
6 adopt 2 init R
6+2 step 2049: adopt 2 init R
7 store "x" 1
7+2 step 2049: store "x" 1
8 send 1.4 write "x"
8+2 step 2049: send 1.5 write "x"
9 sync 5
10 adopt 4 write "x"
10+2 step 2049: adopt 4 write "x"
11 send 1.6 finish value 1
11+2 step 2049: send 1.7 finish value 1
12 sync 7
13 over value 1
13+2 step 2049: over value 1
report
turn submit 1 set("x", 1)
turn go 1 0
turn go 1 1
turn end 1
result 1 value 1
object "x" 1
end
"#;

/// What the killer makes of the first plan: its attempt's third step behind the Init is its last.
const FIRST_KILLED: &str = r#"1 sent 1.1
2 sync 1
3 started
4 send 1.2 init
5 sync 2
6 adopt 2 init R
7 store "x" 4
8 send 1.3 write "x"
9 sync 3
10 adopt 3 write "x"
10+1 kill 1: killed
11 idle
12 idle
13 sync 3
14 idle
report
turn submit 1 f(4)
turn go 1 0
turn go 1 1
object "x" 4
end
"#;

/// The first plan's report as JSON, behind the lines of its run.
const FIRST_JSON: &str = r#"1 sent 1.1
2 sync 1
3 started
4 send 1.2 init
5 sync 2
6 adopt 2 init R
7 store "x" 4
8 send 1.3 write "x"
9 sync 3
10 adopt 3 write "x"
11 read "x" 4
12 send 1.4 finish value 5
13 sync 4
14 over value 5
{"objects":{"x":4},"queues":{},"results":{"1":{"value":5}},"store":{},"turns":["submit 1 f(4)","go 1 0","go 1 2","end 1"]}
"#;

/// A killer, a doubler and a loser, as the program hands them in.
fn handed(alloc: Global) -> Result<Vec<Box<dyn Nemesis + Send>>, Memory>
    ensures { IfOk result (λ nemeses. vec_len nemeses ≤ 16) }
{
    let mut nemeses: Vec<Box<dyn Nemesis + Send>> = Vec::new(alloc);
    nemeses.push(Box::new(alloc, Killer::new())?)?;
    nemeses.push(Box::new(alloc, Doubler::new())?)?;
    nemeses.push(Box::new(alloc, Loser::new())?)?;
    Ok(nemeses)
}

/// Calls with these nemeses, over devices that never fail.
fn answer<R: Threads + Wait + Sync>(
    rt: &R,
    alloc: Global,
    texts: &[&str],
    text: &str,
) -> Result<(Status, SureSink), Memory> {
    let words = words_of(alloc, texts)?;
    let mut source = SureSource::new(Vec::from_slice(alloc, text.as_bytes())?);
    let mut sink = SureSink::new(alloc);
    let nemeses = handed(alloc)?;
    let status = call::<Cluster, R, SureSource, SureSink>(
        rt,
        alloc,
        words.as_slice(),
        &mut source,
        &mut sink,
        nemeses,
    );
    Ok((status, sink))
}

#[test]
fn the_nemesis_that_is_named_disturbs_the_run(rt: HostRuntime) -> Result<(), Fail> {
    let runs: [(&[&str], &str, &str); 4] = [
        (&["run", "--with", "1"], FIRST, FIRST_KILLED),
        (&["run", "--with", "2"], SET, SET_DOUBLED),
        (&["run", "--json"], FIRST, FIRST_JSON),
        (
            &["run", "--json", "--with", "2"],
            "setup 1 1 1 R\nevents\n",
            EMPTY_JSON,
        ),
    ];
    for (texts, text, printed) in runs {
        let (status, sink) = answer(&rt, rt.alloc(), texts, text)?;
        assert_eq!(rt; status, Status::Done);
        assert_eq!(rt; sink.bytes(), printed.as_bytes());
    }
    Ok(())
}

const EMPTY_JSON: &str =
    "{\"objects\":{},\"queues\":{},\"results\":{},\"store\":{},\"turns\":[]}\n";

#[test]
fn a_number_that_no_nemesis_has_gives_the_usage_line(rt: HostRuntime) -> Result<(), Fail> {
    let (status, sink) = answer(&rt, rt.alloc(), &["run", "--with", "4"], FIRST)?;
    assert_eq!(rt; status, Status::Usage);
    assert!(rt; sink.bytes().starts_with(b"usage: boki "));
    Ok(())
}
