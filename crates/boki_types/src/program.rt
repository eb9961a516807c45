//! Functions and their lines.

ghost use Rattle.std.specs.Prelude.{◌≡◌, ◌<◌, ◌^◌, length};
ghost use Rattle.boki_types.specs.Finding.{find as find_function, arity as arity_of};

use crate::expr::Expr;
use lb_base::{List, Words};

/// A line of a function. `if`, `else`, `while` and their `end` are lines of their own, so that no statement holds another.
/// Where a statement sets a variable, its name comes first.
#[derive(Drop)]
pub enum Stmt {
    /// `let V = E`
    Let(Words, Expr),
    /// `let V = read E`: the object of that name
    Read(Words, Expr),
    /// `write E, E`: name, value
    Write(Expr, Expr),
    /// `let V = spawn F(E, E)`
    Spawn(Words, Words, List<Expr>),
    /// `let V = join E`: the result of the child with that ordinal
    Join(Words, Expr),
    /// `push E, E`: queue, value
    Push(Expr, Expr),
    /// `let V = pop E`
    Pop(Words, Expr),
    /// `begin V = E, V = E`: a transaction begins; each variable takes the value of a store name
    Begin(List<(Words, Expr)>),
    /// `let V = commit E = E, E = E`: names and values; the variable takes 1 or 0
    Commit(Words, List<(Expr, Expr)>),
    /// `if E`
    If(Expr),
    Else,
    /// `while E`
    While(Expr),
    End,
    /// `return E`
    Return(Expr),
    /// `read all V = E, V = E`: objects read at one position
    ReadAll(List<(Words, Expr)>),
}

/// A function of a script: its name, its parameters, and its lines without the `function` line and its `end`.
#[derive(Drop)]
pub struct Function {
    pub name: Words,
    pub params: List<Words>,
    pub lines: List<Stmt>,
}

/// Functions. A function's number is its place here, from 0.
#[derive(Drop)]
pub struct Program {
    pub functions: List<Function>,
}

impl Program {
    /// The number of the first function of that name, from 0; `None` exactly where no function has it.
    ///
    /// It needs fewer than 2^32 functions, as every program that is read from a text has. It takes no memory.
    pub fn find(&self, name: &str) -> Option<u32>
        requires { length self.now.functions < 2 ^ 32 }
        ensures { result ≡ find_function name.now self.now.functions }
    {
        let mut number = 0;
        'functions: for function in self.functions.as_slice() {
            if name == function.name.as_str() {
                return Some(number);
            }
            number += 1;
        }
        None
    }

    /// How many parameters the function of that number, from 0, has.
    ///
    /// It needs a function's number, and fewer than 2^32 parameters, as every function that is read from a text has. It
    /// takes no memory.
    pub fn arity(&self, function: u32) -> u32
        requires known { function < length self.now.functions }
        requires few { arity_of function self.now.functions < 2 ^ 32 }
        ensures { result ≡ arity_of function self.now.functions }
    {
        self.functions.as_slice()[function as usize].params.len() as u32
    }
}
