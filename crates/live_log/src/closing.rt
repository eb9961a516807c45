//! How a log is closed.
ghost use Rattle.std.specs.Prelude.{◌≡◌, ◌≤◌, ℕ, length, IsOk, IfErr, IfNone, IfSome, All};
ghost use Rattle.lb_base.specs.Devices.{CountRose};
ghost use Rattle.live_log.specs.Engines.{records_in};
ghost use Rattle.live_log.specs.AppendCounts.{total_at};
ghost use Rattle.live_log.specs.Closing.{IsLater, IsCaughtUp, Pointwise, EachCounted, EachSound, IsLeastAhead};

use crate::append_counts::AppendCounts;
use crate::appended::Appended;
use crate::door::Door;
use crate::engine::LiveEngine;
use crate::fault::LiveFault;
use crate::naming::Naming;
use crate::sequencer::Sequencer;

// Lets one engine see the whole list.
fn catch_up_one<J: Naming, D: Door>(
    sequencer: &mut Sequencer<J>,
    engine: &mut LiveEngine<J>,
    door: &mut D,
) -> Result<(), LiveFault>
    ensures sequencer { sequencer.new ≡ sequencer.old }
    ensures counted { D.refusals door.old ≤ D.refusals door.new }
    ensures caught { IsOk result → IsCaughtUp sequencer.old engine.old engine.new }
    ensures later { IsLater engine.old engine.new }
    ensures refused { IfErr result (λ e. e ≡ LiveFault.Refused → CountRose (D.refusals door.old) (D.refusals door.new)) }
{
    engine.learn(sequencer);
    match engine.catch_up(door) {
        Ok(_) => Ok(()),
        Err(e) => Err(e),
    }
}

/// Lets each engine see the whole list.
pub(crate) fn catch_up_all<J: Naming, D: Door>(
    sequencer: &mut Sequencer<J>,
    engines: &mut Vec<LiveEngine<J>>,
    door: &mut D,
) -> Result<(), LiveFault>
    ensures sequencer { sequencer.new ≡ sequencer.old }
    ensures counted { D.refusals door.old ≤ D.refusals door.new }
    ensures caught { IsOk result → Pointwise (IsCaughtUp sequencer.old) engines.old.items engines.new.items }
    ensures later { Pointwise IsLater engines.old.items engines.new.items }
    ensures refused { IfErr result (λ e. e ≡ LiveFault.Refused → CountRose (D.refusals door.old) (D.refusals door.new)) }
{
    for at in 0..engines.len() {
        catch_up_one(sequencer, &mut engines[at], door)?;
    }
    Ok(())
}

/// The least number of an engine whose position is above so much, with that position.
pub(crate) fn least_ahead<J: Naming>(
    engines: &Vec<LiveEngine<J>>,
    length: u64,
) -> Option<(u32, u64)>
    ensures none { IfNone result (All (λ e. e.position ≤ length) engines.now.items) }
    ensures least { IfSome result (λ p. IsLeastAhead length engines.now.items p.0 p.1) }
{
    let mut least: Option<(u32, u64)> = None;
    for engine in engines.iter() {
        if engine.position() > length {
            match least {
                Some((number, _)) if number <= engine.number() => {}
                _ => least = Some((engine.number(), engine.position())),
            }
        }
    }
    least
}

/// Compares all engines with their ledgers.
pub(crate) fn audit_all<J: Naming>(
    list: &[Appended],
    counts: AppendCounts<J>,
    engines: &mut Vec<LiveEngine<J>>,
)
    requires { (n : ℕ) → 1 ≤ n → n ≤ 16 → total_at counts n ≡ records_in n list.now }
    ensures same { engines.new.items ≡ engines.old.items }
    ensures counted { EachCounted list.now engines.old.items }
    ensures sound { EachSound engines.old.items }
{
    let mut counts = counts;
    for at in 0..engines.len() {
        engines[at].audit(&mut counts);
    }
}
