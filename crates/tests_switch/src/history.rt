//! A book with one engine, and what is said in it.
ghost use Rattle.std.specs.Prelude.{IsTrue};
ghost use Rattle.boki_model.specs.Bodies.{in_range};

use boki_types::Body;
use book_api::Book;
use hm_switch::{Ending, Sent};
use lb_base::{Memory, Mode, Outcome, Path, Seqnum, Value};
use std::alloc::Global;
use std::marker::Model;
use step_log::send_body;

#[derive(Drop)]
pub struct History {
    alloc: Global,
    book: Book,
}

impl Model for History {
    ghost use Rattle.book_api.specs.Books.{BookState, HasEngine};
    ghost use Rattle.step_log.specs.Sound.{Sound};

    ghost Value = { BookState };

    ghost view = { λ h. h.book };

    ghost invariant = { λ h. HasEngine 1 h.book × Sound h.book };
}

impl History {
    pub fn new(alloc: Global) -> Result<History, Memory> {
        let book = Book::new(alloc, 1, 1, 1)?;
        Ok(History { alloc, book })
    }

    /// What was sent is ordered.
    pub fn cut(&mut self) -> Result<(), Memory> {
        self.book.cut()?;
        Ok(())
    }

    /// The engine sees what is ordered.
    pub fn catch_up(&mut self) -> Result<(), Memory> {
        self.book.catch_up(1)?;
        Ok(())
    }

    /// The engine has lost what it saw.
    pub fn restart(&mut self) {
        self.book.restart(1);
    }

    fn say(&mut self, body: Body) -> Result<(), Memory>
        requires { IsTrue (in_range body) }
    {
        let sent = send_body(self.alloc, &mut self.book, 1, None, &body);
        drop(body);
        sent?;
        Ok(())
    }

    /// An invocation begins.
    pub fn init(&mut self, request: u32) -> Result<(), Memory> {
        match Path::request(request) {
            Some(path) => self.init_of(path),
            None => Ok(()),
        }
    }

    fn init_of(&mut self, path: Path) -> Result<(), Memory> {
        let _depth = path.depth();
        self.say(Body::Init { path })
    }

    /// An invocation ends.
    pub fn finish(&mut self, request: u32) -> Result<(), Memory> {
        match Path::request(request) {
            Some(path) => self.finish_of(path),
            None => Ok(()),
        }
    }

    fn finish_of(&mut self, path: Path) -> Result<(), Memory> {
        let _depth = path.depth();
        self.say(Body::Finish {
            path,
            index: 1,
            outcome: Outcome::Good(Value::Nothing),
        })
    }

    /// A SwitchEnd is sent, whether it counts or not.
    pub fn any_end(&mut self) -> Result<(), Memory> {
        self.say(Body::SwitchEnd)
    }

    /// A Trim of any bound is sent, whether it counts or not.
    pub fn any_trim(&mut self, bound: u64) -> Result<(), Memory> {
        self.say(Body::Trim { w: bound })
    }

    pub fn begin_r(&mut self) -> Result<Sent, Memory> {
        hm_switch::begin(self.alloc, &mut self.book, 1, Mode::R)
    }

    pub fn begin_w(&mut self) -> Result<Sent, Memory> {
        hm_switch::begin(self.alloc, &mut self.book, 1, Mode::W)
    }

    pub fn end(&mut self) -> Result<Ending, Memory> {
        hm_switch::end(self.alloc, &mut self.book, 1, Mode::R)
    }

    pub fn trim(&mut self) -> Result<(Sent, Seqnum), Memory> {
        hm_switch::trim(self.alloc, &mut self.book, 1)
    }

    pub fn last_trim(&self) -> Result<Seqnum, Memory> {
        hm_switch::last_trim(self.alloc, &self.book, 1)
    }

    pub fn mode_at(&self, seq: u64) -> Result<Mode, Memory> {
        hm_switch::mode_at(self.alloc, &self.book, 1, Mode::R, Seqnum(seq))
    }
}
