//! A view goes on to its engine's position.
ghost use Rattle.std.specs.Prelude.{◌≡◌, ◌<◌, OnOk, OnErr};
ghost use Rattle.book_api.specs.Books.{HasEngine, position};
ghost use Rattle.step_log.specs.Sound.{Sound};
ghost use Rattle.hm_switch.specs.Marks.{mark_in};
ghost use Rattle.hm_switch.specs.SwitchStates.{Follows, IsCurrent, Takes, GoesOn, ComesTo};

use crate::next::{mark_at, next_marked};
use crate::view::SwitchView;
use book_api::Book;
use lb_base::{Memory, Seqnum};

impl SwitchView {
    /// Goes on to the engine's position: over what came since the last call, each record once. The view is to be one of this
    /// engine of the book, which is to be sound. After `Memory` it is still such a view, which may have gone back to no records.
    pub fn advance(&mut self, book: &Book, engine: u32) -> Result<(), Memory>
        requires engine { HasEngine engine book.now }
        requires sound { Sound book.now }
        requires follows { Follows book.now engine self.old }
        ensures ok { OnOk result (IsCurrent book.now engine self.new) }
        ensures err { OnErr result (Follows book.now engine self.new) }
        ensures first { self.new.first ≡ self.old.first }
    {
        let first = self.first;
        match self.go_to_end(book, engine) {
            Ok(()) => Ok(()),
            Err(Memory) => {
                self.reset(first);
                Err(Memory)
            }
        }
    }

    // Goes on to the engine's position.
    fn go_to_end(&mut self, book: &Book, engine: u32) -> Result<(), Memory>
        requires engine { HasEngine engine book.now }
        requires sound { Sound book.now }
        requires follows { Follows book.now engine self.old }
        ensures { OnOk result (ComesTo book.now engine self.old self.new) }
    {
        let end = book.position(engine);
        'going: while self.place() < end {
            self.go_on(book, engine)?;
        }
        Ok(())
    }

    // Goes on by one record that says something, or to the engine's position where none comes.
    fn go_on(&mut self, book: &Book, engine: u32) -> Result<(), Memory>
        requires engine { HasEngine engine book.now }
        requires sound { Sound book.now }
        requires follows { Follows book.now engine self.old }
        requires lacks { self.old.position < position book.now engine }
        ensures { OnOk result (GoesOn book.now engine self.old self.new) }
    {
        let end = book.position(engine);
        match next_marked(book, engine, self.place()) {
            Some(seq) => self.go_to(book, seq),
            None => {
                self.pass_to(end);
                Ok(())
            }
        }
    }

    // Goes on by the record with a seqnum.
    fn go_to(&mut self, book: &Book, seq: Seqnum) -> Result<(), Memory>
        ensures { OnOk result (Takes seq.0 (mark_in book.now seq.0) self.old self.new) }
    {
        let mark = mark_at(self.alloc, book, seq)?;
        self.take(seq.0, mark)
    }
}
