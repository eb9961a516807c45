//! What the types of one log have in common.
use std::marker::{Brand, PhantomData};
use std::sync::ledger::Ledger;

/// Which log it is: the history of its published list, and the names of the engines' ledgers.
pub trait Naming {
    ghost use Rattle.std.specs.Prelude.{ℕ};
    ghost use Rattle.logbook.specs.Pages.{Book};

    ghost book: { Book };

    ghost names: { ℕ → ℕ };

    ghost engines: { ℕ };
}

impl Naming for Brand {
    ghost use Rattle.live_log.specs.History.{no_book};

    ghost book = { no_book };

    ghost names = { λ n. 0 };

    ghost engines = { 0 };
}

/// The ledger of the engine with this number. No value of it is made.
pub(crate) struct EngineLedger<J, const E: u32> {
    of: PhantomData<J>,
}

impl<J: Naming, const E: u32> Ledger for EngineLedger<J, E> {
    ghost name = { J.names E };

    ghost parts = { 1 };
}
