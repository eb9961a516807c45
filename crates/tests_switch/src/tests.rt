//! Switches and trims by hand, and beside a plain scan.
use crate::history::History;
use crate::plain::{Plain, Said};
use hm_switch::Ending;
use lb_base::{Memory, Mode, Path, Seqnum};
use std::alloc::Global;
use std::test::Fail;

fn sync(history: &mut History) -> Result<(), Memory> {
    history.cut()?;
    history.catch_up()
}

fn is_request(path: Path, request: u32) -> bool {
    match Path::request(request) {
        Some(other) => {
            let is = path == other;
            drop((path, other));
            is
        }
        None => {
            drop(path);
            false
        }
    }
}

fn is_sent(ending: Ending) -> bool {
    let is = matches!(&ending, Ending::Sent(_));
    drop(ending);
    is
}

fn is_idle(ending: Ending) -> bool {
    let is = matches!(&ending, Ending::Idle);
    drop(ending);
    is
}

fn is_unfinished(ending: Ending, request: u32) -> bool {
    match ending {
        Ending::Unfinished(path) => is_request(path, request),
        _ => false,
    }
}

// Whether an end is idle while the engine hasn't seen the begin, then unfinished, and sent once the invocation ended.
fn ends(history: &mut History) -> Result<(bool, bool, bool), Memory> {
    history.init(1)?;
    history.begin_w()?;
    let idle = is_idle(history.end()?);
    sync(history)?;
    let open = is_unfinished(history.end()?, 1);
    history.finish(1)?;
    sync(history)?;
    Ok((idle, open, is_sent(history.end()?)))
}

/// A switch ends only when the invocation open at its begin has ended.
#[test]
fn ends_behind_the_last_finish(rt: HostRuntime) -> Result<(), Fail> {
    let mut history = History::new(rt.alloc())?;
    let answers = ends(&mut history);
    drop(history);
    assert_eq!(rt; answers?, (true, true, true));
    Ok(())
}

fn switch(history: &mut History) -> Result<(), Memory> {
    history.init(1)?;
    history.begin_w()?;
    history.finish(1)?;
    history.any_end()?;
    sync(history)
}

// The modes at three seqnums, from this one on.
fn modes_from(history: &History, seq: u64) -> Result<(Mode, Mode, Mode), Memory> {
    let second = seq.saturating_add(1);
    let third = seq.saturating_add(2);
    Ok((
        history.mode_at(seq)?,
        history.mode_at(second)?,
        history.mode_at(third)?,
    ))
}

/// The modes behind the records of a switch: at 1 and 2 R, at 3 and 4 T, from 5 on W.
#[test]
fn tells_the_mode_at_each_seqnum(rt: HostRuntime) -> Result<(), Fail> {
    let mut history = History::new(rt.alloc())?;
    let switched = switch(&mut history);
    let from_one = modes_from(&history, 1);
    let from_four = modes_from(&history, 4);
    drop(history);
    switched?;
    assert_eq!(rt; from_one?, (Mode::R, Mode::R, Mode::T));
    assert_eq!(rt; from_four?, (Mode::T, Mode::W, Mode::W));
    Ok(())
}

// A Trim's bound, and the floor once it is seen.
fn trims(history: &mut History) -> Result<(Seqnum, Seqnum), Memory> {
    history.init(7)?;
    history.init(2)?;
    history.finish(7)?;
    sync(history)?;
    let bound = history.trim()?.1;
    sync(history)?;
    Ok((bound, history.last_trim()?))
}

// The floor of an engine that sees nothing, and its Trim's bound.
fn trims_unseen(history: &mut History) -> Result<(Seqnum, Seqnum), Memory> {
    history.restart();
    Ok((history.last_trim()?, history.trim()?.1))
}

/// A Trim goes to the Init of the open invocation that began first, whatever its path; and a restarted engine sees none.
#[test]
fn trims_to_the_first_open_init(rt: HostRuntime) -> Result<(), Fail> {
    let mut history = History::new(rt.alloc())?;
    let seen = trims(&mut history);
    let unseen = trims_unseen(&mut history);
    drop(history);
    assert_eq!(rt; seen?, (Seqnum(2), Seqnum(2)));
    assert_eq!(rt; unseen?, (Seqnum(0), Seqnum(1)));
    Ok(())
}

// A linear congruential generator of 64 bits; its upper bits are the number.
#[derive(Drop)]
struct Draws {
    state: u64,
}

impl Draws {
    fn below(&mut self, bound: u64) -> u64 {
        self.state = self
            .state
            .wrapping_mul(6_364_136_223_846_793_005)
            .wrapping_add(1_442_695_040_888_963_407);
        (self.state >> 33).checked_rem(bound).unwrap_or(0)
    }

    fn said(&mut self, next: u64) -> Said {
        let request = u32::try_from(self.below(6)).unwrap_or(0).saturating_add(1);
        match self.below(9) {
            0 | 1 | 2 => Said::Init(request),
            3 | 4 => Said::Finish(request),
            5 => Said::Begin(Mode::R),
            6 => Said::Begin(Mode::W),
            7 => Said::End,
            _ => Said::Trim(self.below(next.saturating_add(2))),
        }
    }
}

fn say(history: &mut History, said: Said) -> Result<(), Memory> {
    match said {
        Said::Init(request) => history.init(request),
        Said::Finish(request) => history.finish(request),
        Said::Begin(Mode::R) => history.begin_r().map(|_| ()),
        Said::Begin(_) => history.begin_w().map(|_| ()),
        Said::End => history.any_end(),
        Said::Trim(bound) => history.any_trim(bound),
    }
}

fn tells_alike(history: &History, plain: &Plain, seq: u64) -> Result<bool, Memory> {
    let floor = history.last_trim()?;
    let mode = history.mode_at(seq)?;
    let behind = history.mode_at(plain.next())?;
    Ok(
        floor.0 == plain.floor()
            && mode == plain.mode_at(seq)
            && behind == plain.mode_at(plain.next()),
    )
}

fn is_end(ending: Ending, plain: &Plain) -> bool {
    match plain.pending() {
        None => is_idle(ending),
        Some((_, begun)) => match plain.least_open(begun) {
            Some(request) => is_unfinished(ending, request),
            None => is_sent(ending),
        },
    }
}

// An end and a trim, which go on with the history where they are sent.
fn ends_alike(history: &mut History, plain: &mut Plain) -> Result<bool, Fail> {
    let ending = history.end()?;
    let sends = matches!(&ending, Ending::Sent(_));
    let alike = is_end(ending, plain);
    if sends {
        plain.add(Said::End)?;
    }
    sync(history)?;
    Ok(alike)
}

fn trims_alike(history: &mut History, plain: &mut Plain) -> Result<bool, Fail> {
    let bound = history.trim()?.1;
    let alike = bound.0 == plain.limit();
    plain.add(Said::Trim(bound.0))?;
    sync(history)?;
    Ok(alike)
}

fn goes_alike(history: &mut History, plain: &mut Plain, draws: &mut Draws) -> Result<bool, Fail> {
    let said = draws.said(plain.next());
    say(history, said)?;
    plain.add(said)?;
    sync(history)?;
    let told = tells_alike(history, plain, draws.below(plain.next()))?;
    let alike = match draws.below(4) {
        0 => ends_alike(history, plain)?,
        1 => trims_alike(history, plain)?,
        _ => true,
    };
    Ok(told && alike)
}

fn all_alike(history: &mut History, plain: &mut Plain, seed: u64) -> Result<bool, Fail> {
    let mut draws = Draws { state: seed };
    let mut alike = true;
    for _ in 0..60 {
        alike = goes_alike(history, plain, &mut draws)? && alike;
    }
    Ok(alike)
}

fn agrees(alloc: Global, seed: u64) -> Result<bool, Fail> {
    let mut history = History::new(alloc)?;
    let mut plain = Plain::new(alloc);
    let alike = all_alike(&mut history, &mut plain, seed);
    drop((history, plain));
    alike
}

/// 20 histories of 60 records and more, of six invocations, some of which begin twice.
#[test]
fn agrees_with_a_plain_scan(rt: HostRuntime) -> Result<(), Fail> {
    for seed in 1..=20 {
        assert!(rt; agrees(rt.alloc(), seed)?, "seed {seed}");
    }
    Ok(())
}
