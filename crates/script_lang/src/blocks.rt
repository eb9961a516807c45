//! The blocks that are open in a function.

ghost use Rattle.std.specs.Prelude.{◌≡◌, [], ◌∷◌, length, OnOk, IfOk, MatchOption};
ghost use Rattle.script_lang.specs.Functions.{nest_else, nest_end, nest_block};

use lb_base::Memory;
use std::alloc::Global;
use std::marker::Model;

/// The blocks that are open in a function, without the function itself, the innermost first. Of each it is told whether an
/// `else` may come.
#[derive(Debug, Drop)]
pub struct Blocks {
    open: Vec<bool>,
}

impl Model for Blocks {
    ghost use Rattle.std.specs.Prelude.{Bool, List, reverse};

    ghost Value = { List Bool };

    ghost view = { λ b. reverse b.open.items };
}

/// Where a line stands: in the function with these blocks open behind it, at the function's own end, nowhere, or in a block too
/// many.
#[derive(Debug, Drop)]
pub enum Nesting {
    Within(Blocks),
    FunctionEnd,
    Misplaced,
    TooDeep,
}

/// The most blocks in a function, without the function itself.
const MOST_BLOCKS: usize = 15;

impl Blocks {
    /// No block.
    pub(crate) fn new(alloc: Global) -> Blocks
        ensures { result ≡ [] }
    {
        Blocks {
            open: Vec::new(alloc),
        }
    }

    fn len(&self) -> usize
        ensures { result ≡ length self.now }
    {
        self.open.len()
    }

    fn push(&mut self, takes_else: bool) -> Result<(), Memory>
        ensures { OnOk result (self.new ≡ takes_else ∷ self.old) }
    {
        self.open.push(takes_else)?;
        Ok(())
    }

    fn pop(&mut self) -> Option<bool>
        ensures { MatchOption result ((self.old ≡ []) × (self.new ≡ [])) (λ last. self.old ≡ last ∷ self.new) }
    {
        self.open.pop()
    }

    /// At a line that opens a block.
    pub(crate) fn at_opening(mut self, takes_else: bool) -> Result<Nesting, Memory>
        ensures { IfOk result (λ placing. placing ≡ nest_block takes_else self) }
    {
        if self.len() < MOST_BLOCKS {
            self.push(takes_else)?;
            Ok(Nesting::Within(self))
        } else {
            Ok(Nesting::TooDeep)
        }
    }

    /// At an `else`.
    pub(crate) fn at_else(mut self) -> Result<Nesting, Memory>
        ensures { IfOk result (λ placing. placing ≡ nest_else self) }
    {
        match self.pop() {
            Some(true) => {
                self.push(false)?;
                Ok(Nesting::Within(self))
            }
            Some(false) => Ok(Nesting::Misplaced),
            None => Ok(Nesting::Misplaced),
        }
    }

    /// At an `end`.
    pub(crate) fn at_end(mut self) -> Nesting
        ensures { result ≡ nest_end self }
    {
        match self.pop() {
            Some(_) => Nesting::Within(self),
            None => Nesting::FunctionEnd,
        }
    }
}
