//! A look covers what the engine appended and learned.
ghost use Rattle.std.specs.Prelude.{◌≡◌, ◌<◌, ◌≤◌, ℕ, length, map, IfOk, IfErr};
ghost use mathlib.Core.List.{IsPrefix};
ghost use Rattle.lb_base.specs.Devices.{CountRose};
ghost use Rattle.live_log.specs.Engines.{AllBelow};

use crate::door::Door;
use crate::engine::LiveEngine;
use crate::fault::LiveFault;
use crate::log::LiveLog;
use crate::naming::Naming;
use std::sync::Wait;

/// Lets an engine learn what is published and look, and answers how much it learned and the position. It takes the lock, for which
/// it may wait.
///
/// The position is no less than what the engine learned, and covers all of its own appends. `Refused` comes only where the door's
/// refusals rose in this call, and then the engine has learned and has seen no more. After `Memory` the list was seen, and the position
/// is between the old one and its length.
pub fn learn_then_catch_up<J: Naming, D: Door, R: Wait>(
    rt: &R,
    log: &LiveLog<J>,
    who: &mut LiveEngine<J>,
    door: &mut D,
) -> Result<(u64, u64), LiveFault>
    ensures counted { D.refusals door.old ≤ D.refusals door.new }
    ensures covers { IfOk result (λ p. p.0 ≤ p.1) }
    ensures own { IfOk result (λ p. AllBelow p.1 (map (λ own. own.0) who.new.appends)) }
    ensures position { IfOk result (λ p. p.1 ≡ who.new.position) }
    ensures refused { IfErr result (λ e. e ≡ LiveFault.Refused → CountRose (D.refusals door.old) (D.refusals door.new) × (who.new ≡ record who.old { known = who.new.known })) }
    ensures memory { IfErr result (λ e. e ≡ LiveFault.Memory → IsPrefix who.old.known who.new.seen) }
    ensures known { IsPrefix who.old.known who.new.known }
    ensures grows { IsPrefix who.old.seen who.new.seen × (who.old.position ≤ who.new.position) × (who.new.position ≤ length who.new.seen) }
    ensures same { (who.new.number ≡ who.old.number) × (who.new.appends ≡ who.old.appends) }
{
    let Ok(learned) = log.learn(rt, who) else {
        unreachable!();
    };
    let position = who.catch_up(door)?;
    Ok((learned, position))
}
