//! Which of the nemeses that are handed in are kept.

ghost use Rattle.std.specs.Prelude.{◌≡◌, ◌≤◌, [], map, vec_len, IfOk};
ghost use Rattle.nemesis_types.specs.Kept.{numbered_nemesis, all_kept, one_kept};

use crate::keeping::Kept;
use crate::law::Nemesis;
use lb_base::Memory;
use std::alloc::Global;

/// Keeps all that are handed in, each with its number, in their order.
///
/// After `Memory` all are dropped.
pub fn keep_all(alloc: Global, handed: Vec<Box<dyn Nemesis + Send>>) -> Result<Vec<Kept>, Memory>
    requires few { vec_len handed ≤ 16 }
    ensures { IfOk result (λ kept. map (λ b. numbered_nemesis b.0 (automaton b.1)) kept.items ≡ all_kept (map (λ b. automaton b) handed.items)) }
{
    let mut kept = Vec::new(alloc);
    let mut number = 1;
    'handed: for one in handed {
        kept.push((number, one))?;
        number += 1;
    }
    Ok(kept)
}

/// Keeps the one that has a number, from 1, in the list that was handed in, and drops the others; none where
/// no nemesis has that number.
///
/// After `Memory` all are dropped.
pub fn keep_one(
    alloc: Global,
    mut handed: Vec<Box<dyn Nemesis + Send>>,
    number: u32,
) -> Result<Vec<Kept>, Memory>
    ensures { IfOk result (λ kept. map (λ b. numbered_nemesis b.0 (automaton b.1)) kept.items ≡ one_kept number (map (λ b. automaton b) handed.items)) }
{
    let mut kept = Vec::new(alloc);
    if number == 0 || number as usize > handed.len() {
        return Ok(kept);
    }
    kept.push((number, handed.remove(number as usize - 1)))?;
    Ok(kept)
}
