//! The calls that make a view of their own: each goes over what the engine sees from its begin.
ghost use Rattle.std.specs.Prelude.{◌≡◌, ◌++◌, List, None, IfOk, OnErr, IsTrue};
ghost use Rattle.boki_types.specs.declared.body.Body.{Body};
ghost use Rattle.boki_types.specs.declared.body.Body.TheVariants as body;
ghost use Rattle.boki_model.specs.Bodies.{is_target};
ghost use Rattle.boki_model.specs.Floor.{floor};
ghost use Rattle.boki_model.specs.Live.{LogRecord};
ghost use Rattle.boki_model.specs.Modes.{mode_after};
ghost use Rattle.boki_model.specs.Order.{order};
ghost use Rattle.boki_machine.specs.Step.{records_below};
ghost use Rattle.switch_laws.specs.Trims.{TrimCounts};
ghost use Rattle.book_api.specs.Books.{HasEngine};
ghost use Rattle.step_log.specs.Sound.{Sound, IsBodySent, bodies, view};
ghost use Rattle.hm_switch.specs.SwitchStates.{IsCurrent};
ghost use Rattle.hm_switch.specs.Answers.{IsEnding, IsTrimSent};

use crate::sending::send;
use crate::view::SwitchView;
use boki_types::{Ending, Sent};
use book_api::Book;
use lb_base::{Memory, Mode, Seqnum};
use rec_codec::Body;
use std::alloc::Global;

/// The mode of an invocation whose Init is at a seqnum, of what the engine sees, in a book whose first mode is this one: T where
/// a switch pends below the seqnum, else the current mode there.
pub fn mode_at(
    alloc: Global,
    book: &Book,
    engine: u32,
    first: Mode,
    seq: Seqnum,
) -> Result<Mode, Memory>
    requires engine { HasEngine engine book.now }
    requires sound { Sound book.now }
    ensures { IfOk result (λ mode. mode ≡ mode_after first (records_below seq.0 (view book.now engine))) }
{
    let view = current(alloc, book, engine, first)?;
    let mode = view.mode_at(seq);
    drop(view);
    Ok(mode)
}

/// Sends the begin of a switch to the mode R or W, and answers where it stands. It is always sent, and it counts where no switch
/// pends and the target isn't the current mode. After `Memory` the book is as before.
pub fn begin(alloc: Global, book: &mut Book, engine: u32, target: Mode) -> Result<Sent, Memory>
    requires engine { HasEngine engine book.old }
    requires target { IsTrue (is_target target) }
    ensures ok { IfOk result (IsBodySent engine None (body.SwitchBegin target) book.old book.new) }
    ensures sound { Sound book.old → Sound book.new }
    ensures err { OnErr result (book.new ≡ book.old) }
{
    send(alloc, book, engine, Body::SwitchBegin { target })
}

/// Sends the end of the pending switch, as `SwitchView::end` does, in a book whose first mode is this one. After `Memory` the book
/// is as before.
pub fn end(alloc: Global, book: &mut Book, engine: u32, first: Mode) -> Result<Ending, Memory>
    requires engine { HasEngine engine book.old }
    requires sound { Sound book.old }
    ensures ok { IfOk result (IsEnding first engine book.old book.new) }
    ensures sound { Sound book.new }
    ensures err { OnErr result (book.new ≡ book.old) }
{
    let view = current(alloc, book, engine, first)?;
    let ending = view.end(book, engine);
    drop(view);
    ending
}

/// Sends a Trim, and answers where it stands and its bound, as `SwitchView::trim` does. It counts wherever it is ordered. After
/// `Memory` the book is as before.
pub fn trim(alloc: Global, book: &mut Book, engine: u32) -> Result<(Sent, Seqnum), Memory>
    requires engine { HasEngine engine book.old }
    requires sound { Sound book.old }
    ensures ok { IfOk result (IsTrimSent engine book.old book.new) }
    ensures counts { IfOk result (λ r. (since : List (LogRecord Body)) → TrimCounts r.1.0 (since ++ order (bodies book.old) book.old.vectors)) }
    ensures sound { Sound book.new }
    ensures err { OnErr result (book.new ≡ book.old) }
{
    let view = current(alloc, book, engine, Mode::R)?;
    let sent = view.trim(book, engine);
    drop(view);
    sent
}

/// The engine's floor: the greatest bound of a Trim that counts, of what the engine sees, or 0.
pub fn last_trim(alloc: Global, book: &Book, engine: u32) -> Result<Seqnum, Memory>
    requires engine { HasEngine engine book.now }
    requires sound { Sound book.now }
    ensures { IfOk result (λ bound. bound.0 ≡ floor (view book.now engine)) }
{
    let view = current(alloc, book, engine, Mode::R)?;
    let bound = view.floor();
    drop(view);
    Ok(bound)
}

// A view of what the engine sees.
fn current(alloc: Global, book: &Book, engine: u32, first: Mode) -> Result<SwitchView, Memory>
    requires engine { HasEngine engine book.now }
    requires sound { Sound book.now }
    ensures current { IfOk result (λ v. IsCurrent book.now engine v) }
    ensures first { IfOk result (λ v. v.first ≡ first) }
{
    let mut view = SwitchView::new(alloc, first);
    match view.advance(book, engine) {
        Ok(()) => Ok(view),
        Err(Memory) => {
            drop(view);
            Err(Memory)
        }
    }
}
