//! A view goes on by one record.
ghost use Rattle.std.specs.Prelude.{OnOk};
ghost use Rattle.hm_switch.specs.declared.marks.Mark.TheVariants as said;
ghost use Rattle.hm_switch.specs.SwitchStates.{Takes};

use crate::marks::Mark;
use crate::view::SwitchView;
use lb_base::{Memory, Mode, Path};

impl SwitchView {
    /// A record comes that says this at a seqnum.
    pub(crate) fn take(&mut self, seq: u64, mark: Mark) -> Result<(), Memory>
        ensures { OnOk result (Takes seq mark self.old self.new) }
    {
        match mark {
            Mark::Init(path) => self.take_init(seq, path),
            Mark::Finish(path) => self.take_finish(seq, path),
            Mark::SwitchBegin(target) => self.take_begin(seq, target),
            Mark::SwitchEnd => self.take_end(seq),
            Mark::Trim(bound) => self.take_trim(seq, bound),
            Mark::Other => self.pass(seq),
        }
    }

    fn take_init(&mut self, seq: u64, path: Path) -> Result<(), Memory>
        ensures { OnOk result (Takes seq (said.Init path) self.old self.new) }
    {
        self.lives.begin(seq, path)?;
        self.position = seq;
        Ok(())
    }

    fn take_finish(&mut self, seq: u64, path: Path) -> Result<(), Memory>
        ensures { OnOk result (Takes seq (said.Finish path) self.old self.new) }
    {
        self.lives.end(path)?;
        self.position = seq;
        Ok(())
    }

    fn take_begin(&mut self, seq: u64, target: Mode) -> Result<(), Memory>
        ensures { OnOk result (Takes seq (said.SwitchBegin target) self.old self.new) }
    {
        self.modes.begin(seq, target)?;
        self.position = seq;
        Ok(())
    }

    fn take_end(&mut self, seq: u64) -> Result<(), Memory>
        ensures { OnOk result (Takes seq said.SwitchEnd self.old self.new) }
    {
        self.modes.end(seq, &self.lives)?;
        self.position = seq;
        Ok(())
    }

    fn take_trim(&mut self, seq: u64, bound: u64) -> Result<(), Memory>
        ensures { OnOk result (Takes seq (said.Trim bound) self.old self.new) }
    {
        let counted = self.lives.counted(seq, bound);
        self.floor = self.floor.max(counted);
        self.position = seq;
        Ok(())
    }

    fn pass(&mut self, seq: u64) -> Result<(), Memory>
        ensures { OnOk result (Takes seq said.Other self.old self.new) }
    {
        self.position = seq;
        Ok(())
    }
}
