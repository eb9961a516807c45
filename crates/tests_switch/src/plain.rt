//! A plain scan: each question goes over all that was said.
use lb_base::Mode;
use std::alloc::{AllocError, Global};

#[derive(Clone, Copy, Debug, PartialEq, Eq)]
pub enum Said {
    Init(u32),
    Finish(u32),
    Begin(Mode),
    End,
    Trim(u64),
}

/// What was said, each with the mode behind it, and the floor.
#[derive(Drop)]
pub struct Plain {
    past: Vec<Said>,
    modes: Vec<Mode>,
    current: Mode,
    pending: Option<(Mode, u64)>,
    floor: u64,
}

impl Plain {
    pub fn new(alloc: Global) -> Plain {
        Plain {
            past: Vec::new(alloc),
            modes: Vec::new(alloc),
            current: Mode::R,
            pending: None,
            floor: 0,
        }
    }

    /// The next seqnum.
    pub fn next(&self) -> u64 {
        (self.past.len() as u64).saturating_add(1)
    }

    fn is_ended(&self, request: u32) -> bool {
        self.past.iter().any(|said| *said == Said::Finish(request))
    }

    /// The first Init below a bound of an invocation that hasn't ended.
    fn first_open(&self, below: u64) -> Option<u64> {
        let mut seq = 0;
        for said in &self.past {
            seq = u64::saturating_add(seq, 1);
            if let Said::Init(request) = said {
                if seq < below && !self.is_ended(*request) {
                    return Some(seq);
                }
            }
        }
        None
    }

    /// The least request that began below a bound and hasn't ended.
    pub fn least_open(&self, below: u64) -> Option<u32> {
        let mut least = None;
        let mut seq = 0;
        for said in &self.past {
            seq = u64::saturating_add(seq, 1);
            if let Said::Init(request) = said {
                if seq < below && !self.is_ended(*request) {
                    least = Some(least.map_or(*request, |other: u32| other.min(*request)));
                }
            }
        }
        least
    }

    pub fn pending(&self) -> Option<(Mode, u64)> {
        self.pending
    }

    pub fn floor(&self) -> u64 {
        self.floor
    }

    /// What may be trimmed.
    pub fn limit(&self) -> u64 {
        self.first_open(u64::MAX).unwrap_or(self.next())
    }

    /// The mode of an Init at a seqnum.
    pub fn mode_at(&self, seq: u64) -> Mode {
        let behind = seq.saturating_sub(2).min(self.modes.len() as u64) as usize;
        if seq < 2 {
            return Mode::R;
        }
        self.modes.get(behind).copied().unwrap_or(self.mode())
    }

    fn mode(&self) -> Mode {
        match self.pending {
            Some(_) => Mode::T,
            None => self.current,
        }
    }

    fn switch(&mut self, said: Said) {
        match (said, self.pending) {
            (Said::Begin(target), None) => {
                if target != self.current {
                    self.pending = Some((target, self.next()));
                }
            }
            (Said::End, Some((target, begun))) => {
                if self.first_open(begun).is_none() {
                    self.current = target;
                    self.pending = None;
                }
            }
            _ => {}
        }
    }

    /// One more is said.
    pub fn add(&mut self, said: Said) -> Result<(), AllocError> {
        self.switch(said);
        if let Said::Trim(bound) = said {
            if bound <= self.next() && self.first_open(bound).is_none() {
                self.floor = self.floor.max(bound);
            }
        }
        self.past.push(said)?;
        let mode = self.mode();
        self.modes.push(mode)?;
        Ok(())
    }
}
