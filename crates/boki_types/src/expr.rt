//! Expressions.

use lb_base::Words;
use sqlite_items::Boxed;

/// An operator between two operands.
#[derive(Clone, Copy, Debug, PartialEq, Eq)]
pub enum BinOp {
    Or,
    And,
    Eq,
    Ne,
    Lt,
    Le,
    Gt,
    Ge,
    Add,
    Sub,
    /// `++`, which joins two texts.
    Glue,
    Mul,
    Div,
    Rem,
}

/// An expression of a script.
#[derive(Drop)]
pub enum Expr {
    Int(i64),
    Text(Words),
    /// `none`.
    Nothing,
    Var(Words),
    Not(Boxed<Expr>),
    Two(BinOp, Boxed<Expr>, Boxed<Expr>),
    /// `text(E)`: an integer's decimal text, or the text itself.
    TextOf(Boxed<Expr>),
    /// `len(E)`: a text's number of bytes.
    Len(Boxed<Expr>),
}
