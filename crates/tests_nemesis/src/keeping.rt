//! Which of the nemeses that are handed in are kept.

ghost use Rattle.std.specs.Prelude.{◌≤◌, vec_len, IfOk};

use crate::standard::{stepped, stepped_by};
use lb_base::Memory;
use nemesis::{Doubler, Kept, Killer, Loser, Nemesis, keep_all, keep_one};
use std::alloc::Global;
use std::test::Fail;

/// A killer, a doubler and a loser, as the program hands them in.
fn handed(alloc: Global) -> Result<Vec<Box<dyn Nemesis + Send>>, Memory>
    ensures { IfOk result (λ nemeses. vec_len nemeses ≤ 16) }
{
    let mut nemeses: Vec<Box<dyn Nemesis + Send>> = Vec::new(alloc);
    nemeses.push(Box::new(alloc, Killer::new())?)?;
    nemeses.push(Box::new(alloc, Doubler::new())?)?;
    nemeses.push(Box::new(alloc, Loser::new())?)?;
    Ok(nemeses)
}

/// The numbers of those that are kept.
fn numbers(alloc: Global, kept: &[Kept]) -> Result<Vec<u32>, Memory> {
    let mut found = Vec::new(alloc);
    for one in kept {
        found.push(one.0)?;
    }
    Ok(found)
}

#[test]
fn all_are_kept_with_their_numbers(rt: HostRuntime) -> Result<(), Fail> {
    let kept = keep_all(rt.alloc(), handed(rt.alloc())?)?;
    let found = numbers(rt.alloc(), kept.as_slice())?;
    assert_eq!(rt; found.as_slice(), [1, 2, 3].as_slice());
    Ok(())
}

/// The attempt that the first of them steps behind the step of an attempt.
fn step_of_first(kept: &mut Vec<Kept>, attempt: u32) -> Option<u32> {
    let given = kept.first_mut()?.1.next(&stepped(attempt, false));
    let found = stepped_by(&given);
    drop(given);
    found
}

#[test]
fn the_second_is_the_doubler(rt: HostRuntime) -> Result<(), Fail> {
    let mut kept = keep_one(rt.alloc(), handed(rt.alloc())?, 2)?;
    let found = numbers(rt.alloc(), kept.as_slice())?;
    assert_eq!(rt; found.as_slice(), [2].as_slice());
    assert_eq!(rt; step_of_first(&mut kept, 1), Some(2049));
    Ok(())
}

/// How many are kept where the number is this.
fn count_kept(alloc: Global, number: u32) -> Result<usize, Memory> {
    let kept = keep_one(alloc, handed(alloc)?, number)?;
    Ok(kept.len())
}

#[test]
fn none_has_another_number(rt: HostRuntime) -> Result<(), Fail> {
    assert_eq!(rt; count_kept(rt.alloc(), 0)?, 0);
    assert_eq!(rt; count_kept(rt.alloc(), 4)?, 0);
    Ok(())
}
