//! Runs with nemeses that give the same event each time that they are asked, whether a plan can have it or not.

ghost use Rattle.boki_types.specs.declared.event.Event.TheVariants as event;
ghost use Rattle.std.specs.Prelude.{◌≤◌, [], Some, false, vec_len, IfOk};

use crate::calls::{FIRST, words_of};
use boki_call::{Nemesis, Status, call};
use boki_types::Event;
use cluster_run::Cluster;
use lb_base::{Memory, SureSink, SureSource};
use nemesis_types::Seen;
use std::alloc::Global;
use std::sync::Wait;
use std::test::Fail;
use std::thread::Threads;

/// Catches this engine up.
#[derive(Drop)]
struct Catcher {
    engine: u32,
}

impl Nemesis for Catcher {
    ghost automaton = { λ s. record {
      list = [];
      next = λ list seen. (Some (event.Catch s.engine), list);
      seed = λ list n. list;
      ends = λ list. false;
    } };

    fn next(&mut self, _seen: &Seen) -> Option<Event> {
        Some(Event::Catch {
            engine: self.engine,
        })
    }

    fn reseed(&mut self, _n: u64) {}

    fn spent(&self) -> bool {
        false
    }
}

/// Restarts this engine.
#[derive(Drop)]
struct Restarter {
    engine: u32,
}

impl Nemesis for Restarter {
    ghost automaton = { λ s. record {
      list = [];
      next = λ list seen. (Some (event.Restart s.engine), list);
      seed = λ list n. list;
      ends = λ list. false;
    } };

    fn next(&mut self, _seen: &Seen) -> Option<Event> {
        Some(Event::Restart {
            engine: self.engine,
        })
    }

    fn reseed(&mut self, _n: u64) {}

    fn spent(&self) -> bool {
        false
    }
}

/// Makes the store call of this attempt's next step, and loses its answer.
#[derive(Drop)]
struct Misser {
    attempt: u32,
}

impl Nemesis for Misser {
    ghost automaton = { λ s. record {
      list = [];
      next = λ list seen. (Some (event.Miss s.attempt), list);
      seed = λ list n. list;
      ends = λ list. false;
    } };

    fn next(&mut self, _seen: &Seen) -> Option<Event> {
        Some(Event::Miss {
            attempt: self.attempt,
        })
    }

    fn reseed(&mut self, _n: u64) {}

    fn spent(&self) -> bool {
        false
    }
}

/// What the first plan prints beside a nemesis that catches up an engine that there isn't.
const FIRST_IGNORED: &str = r#"1 sent 1.1
1+1 ignored
2 sync 1
2+1 ignored
3 started
3+1 ignored
4 send 1.2 init
4+1 ignored
5 sync 2
5+1 ignored
6 adopt 2 init R
6+1 ignored
7 store "x" 4
7+1 ignored
8 send 1.3 write "x"
8+1 ignored
9 sync 3
9+1 ignored
10 adopt 3 write "x"
10+1 ignored
11 read "x" 4
11+1 ignored
12 send 1.4 finish value 5
12+1 ignored
13 sync 4
13+1 ignored
14 over value 5
14+1 ignored
report
turn submit 1 f(4)
turn go 1 0
turn go 1 2
turn end 1
result 1 value 5
object "x" 4
end
"#;

/// Sixteen, of which some give events that the first plan can't have: engine 1 is its only one.
fn sixteen(alloc: Global) -> Result<Vec<Box<dyn Nemesis + Send>>, Memory>
    ensures { IfOk result (λ nemeses. vec_len nemeses ≤ 16) }
{
    let mut nemeses: Vec<Box<dyn Nemesis + Send>> = Vec::new(alloc);
    nemeses.push(Box::new(alloc, Catcher { engine: 0 })?)?;
    nemeses.push(Box::new(alloc, Catcher { engine: 1 })?)?;
    nemeses.push(Box::new(alloc, Catcher { engine: 2 })?)?;
    nemeses.push(Box::new(alloc, Catcher { engine: 9 })?)?;
    nemeses.push(Box::new(alloc, Catcher { engine: 4294967295 })?)?;
    nemeses.push(Box::new(alloc, Restarter { engine: 0 })?)?;
    nemeses.push(Box::new(alloc, Restarter { engine: 2 })?)?;
    nemeses.push(Box::new(alloc, Restarter { engine: 9 })?)?;
    nemeses.push(Box::new(alloc, Restarter { engine: 1 })?)?;
    nemeses.push(Box::new(alloc, Misser { attempt: 0 })?)?;
    nemeses.push(Box::new(alloc, Misser { attempt: 1 })?)?;
    nemeses.push(Box::new(alloc, Misser { attempt: 2 })?)?;
    nemeses.push(Box::new(alloc, Misser { attempt: 9 })?)?;
    nemeses.push(Box::new(alloc, Misser { attempt: 4096 })?)?;
    nemeses.push(Box::new(alloc, Misser { attempt: 4097 })?)?;
    nemeses.push(Box::new(
        alloc,
        Misser {
            attempt: 4294967295,
        },
    )?)?;
    Ok(nemeses)
}

/// A run of the first plan with these nemeses, over devices that never fail.
fn run_with<R: Threads + Wait + Sync>(
    rt: &R,
    alloc: Global,
    nemeses: Vec<Box<dyn Nemesis + Send>>,
) -> Result<(Status, SureSink), Memory>
    requires { vec_len nemeses ≤ 16 }
{
    let Ok(words) = words_of(alloc, &["run", "--with", "all"]) else {
        drop(nemeses);
        return Err(Memory);
    };
    let Ok(text) = Vec::from_slice(alloc, FIRST.as_bytes()) else {
        drop(nemeses);
        return Err(Memory);
    };
    let mut source = SureSource::new(text);
    let mut sink = SureSink::new(alloc);
    let status = call::<Cluster, R, SureSource, SureSink>(
        rt,
        alloc,
        words.as_slice(),
        &mut source,
        &mut sink,
        nemeses,
    );
    Ok((status, sink))
}

#[test]
fn an_event_that_the_plan_cannot_have_is_ignored(rt: HostRuntime) -> Result<(), Fail> {
    let alloc = rt.alloc();
    let mut nemeses: Vec<Box<dyn Nemesis + Send>> = Vec::new(alloc);
    nemeses.push(Box::new(alloc, Catcher { engine: 9 })?)?;
    let (status, sink) = run_with(&rt, alloc, nemeses)?;
    assert_eq!(rt; status, Status::Done);
    assert_eq!(rt; sink.bytes(), FIRST_IGNORED.as_bytes());
    Ok(())
}

#[test]
fn sixteen_nemeses_end(rt: HostRuntime) -> Result<(), Fail> {
    let (status, sink) = run_with(&rt, rt.alloc(), sixteen(rt.alloc())?)?;
    assert_eq!(rt; status, Status::Done);
    assert!(rt;
        sink.bytes()
            .ends_with(b"\nreport\nturn submit 1 f(4)\nend\n")
    );
    Ok(())
}
