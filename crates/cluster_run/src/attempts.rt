//! Events of attempts.
ghost use Rattle.std.specs.Prelude.{◌≡◌, IfOk, OnErr};
ghost use Rattle.boki_types.specs.declared.event.Event.TheVariants as event;
ghost use Rattle.cluster_run.specs.Attempts.{CanDoAll, DoesAll, DoesToAttempts};
ghost use Rattle.cluster_run.specs.Killed.{kept_runs_on, running_count, KillsAt, KillsOn};

use boki_flow::{Attempt, Life, Parts};
use boki_types::{Line, Program};
use cluster_events::restart as restart_parts;
use indexmap::IndexMap;
use lb_base::{Memory, Path};
use std::alloc::Global;

/// A new attempt under a number that no other has. After `Memory` the attempts are as before.
pub(crate) fn start(
    attempts: &mut IndexMap<u32, Attempt>,
    number: u32,
    path: Path,
    engine: u32,
) -> Result<Line, Memory>
    ensures done { IfOk result (DoesToAttempts (event.Start number path engine) attempts.old.entries attempts.new.entries) }
    ensures err { OnErr result (attempts.new.entries ≡ attempts.old.entries) }
{
    // `len` says that no two have one number, which the proof cites.
    let _count = attempts.len();
    if attempts.contains_key(&number) {
        return Ok(Line::Ignored);
    }
    drop(attempts.insert(number, Attempt::new(path, engine)?)?);
    Ok(Line::Started)
}

/// A step of an attempt.
pub(crate) fn step_attempt(
    alloc: Global,
    program: &Program,
    parts: &mut Parts,
    attempts: &mut IndexMap<u32, Attempt>,
    number: u32,
) -> Result<Line, Memory>
    requires { CanDoAll program.now.functions (event.Step number) parts.old attempts.old.entries }
    ensures { IfOk result (DoesAll program.now.functions (event.Step number) parts.old parts.new attempts.old.entries attempts.new.entries) }
{
    // The length has 64 bits.
    let _length = parts.book.length();
    match attempts.get_mut(&number) {
        Some(attempt) => {
            let line = attempt.step(alloc, parts, program)?;
            Ok(Line::Step(line))
        }
        None => Ok(Line::Ignored),
    }
}

/// The store call of an attempt's next step, whose answer is lost.
pub(crate) fn miss_attempt(
    alloc: Global,
    program: &Program,
    parts: &mut Parts,
    attempts: &mut IndexMap<u32, Attempt>,
    number: u32,
) -> Result<Line, Memory>
    requires { CanDoAll program.now.functions (event.Miss number) parts.old attempts.old.entries }
    ensures { IfOk result (DoesAll program.now.functions (event.Miss number) parts.old parts.new attempts.old.entries attempts.new.entries) }
{
    match attempts.get_mut(&number) {
        Some(attempt) => Ok(Line::Missed(attempt.miss(alloc, parts, program)?)),
        None => Ok(Line::Ignored),
    }
}

/// An attempt is killed.
pub(crate) fn kill_attempt(attempts: &mut IndexMap<u32, Attempt>, number: u32) -> Line
    ensures { DoesToAttempts (event.Kill number) attempts.old.entries attempts.new.entries result }
{
    match attempts.get_mut(&number) {
        Some(attempt) => {
            if attempt.kill() {
                Line::Killed
            } else {
                Line::Idle
            }
        }
        None => Line::Ignored,
    }
}

/// An attempt forgets that it waits for a record.
pub(crate) fn lose_record(attempts: &mut IndexMap<u32, Attempt>, number: u32) -> Line
    ensures { DoesToAttempts (event.Lose number) attempts.old.entries attempts.new.entries result }
{
    match attempts.get_mut(&number) {
        Some(attempt) => {
            if attempt.lose() {
                Line::Lost
            } else {
                Line::Nothing
            }
        }
        None => Line::Ignored,
    }
}

/// An engine loses what it had in memory, and its attempts that run are killed. After `Memory` all is as before.
pub(crate) fn restart(
    program: &Program,
    parts: &mut Parts,
    attempts: &mut IndexMap<u32, Attempt>,
    engine: u32,
) -> Result<Line, Memory>
    requires { CanDoAll program.now.functions (event.Restart engine) parts.old attempts.old.entries }
    ensures done { IfOk result (DoesAll program.now.functions (event.Restart engine) parts.old parts.new attempts.old.entries attempts.new.entries) }
    ensures parts { OnErr result (parts.new ≡ parts.old) }
    ensures attempts { OnErr result (attempts.new.entries ≡ attempts.old.entries) }
{
    let killed = running_on(attempts, engine)?;
    restart_parts(parts, engine);
    kill_on(attempts, engine);
    Ok(Line::Restarted(killed))
}

/// Whether an attempt runs on the engine.
fn runs_on(attempt: &Attempt, engine: u32) -> bool
    ensures { result ≡ kept_runs_on engine attempt.now }
{
    matches!(attempt.life(), Life::Running) && attempt.engine() == engine
}

/// How many attempts run on the engine.
fn running_on(attempts: &IndexMap<u32, Attempt>, engine: u32) -> Result<u32, Memory>
    ensures { IfOk result (λ count. count ≡ running_count engine attempts.now.entries) }
{
    let mut count: u32 = 0;
    for (_, attempt) in attempts.iter() {
        if runs_on(attempt, engine) {
            let Some(more) = count.checked_add(1) else {
                return Err(Memory);
            };
            count = more;
        }
    }
    Ok(count)
}

/// Kills those.
fn kill_on(attempts: &mut IndexMap<u32, Attempt>, engine: u32)
    ensures { KillsOn engine attempts.old.entries attempts.new.entries }
{
    for index in 0..attempts.len() {
        kill_at(attempts, index, engine);
    }
}

/// Kills the attempt at an index if it runs on the engine.
fn kill_at(attempts: &mut IndexMap<u32, Attempt>, index: usize, engine: u32)
    ensures { KillsAt engine index attempts.old.entries attempts.new.entries }
{
    if let Some(attempt) = attempts.get_index_mut(index) {
        if runs_on(attempt, engine) {
            attempt.kill();
        }
    }
}
