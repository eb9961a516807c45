//! Pieces of statements that stand in lists.

ghost use Rattle.script_lang.specs.Expressions.{expr_at};
ghost use Rattle.script_lang.specs.Statements.{assignment_at, pair_at};

use crate::expressions::read_expr;
use boki_types::Expr;
use lb_base::{Memory, Words};
use line_text::{Checked, Element, Punctuation, Tokens, check_both, read_name};
use std::alloc::Global;

/// The grammar of statements.
pub struct ScriptGrammar;

impl Element<ScriptGrammar> for Expr {
    ghost reads = { expr_at };

    fn read(alloc: Global, tokens: &mut Tokens) -> Result<Option<Checked<Expr>>, Memory> {
        read_expr(alloc, tokens)
    }
}

impl Element<ScriptGrammar> for (Words, Expr) {
    ghost reads = { assignment_at };

    fn read(alloc: Global, tokens: &mut Tokens) -> Result<Option<Checked<(Words, Expr)>>, Memory> {
        let Some(name) = read_name(tokens) else {
            return Ok(None);
        };
        if !tokens.takes(Punctuation::Assign) {
            return Ok(None);
        }
        match read_expr(alloc, tokens)? {
            Some(x) => Ok(Some(check_both(name, x))),
            None => Ok(None),
        }
    }
}

impl Element<ScriptGrammar> for (Expr, Expr) {
    ghost reads = { pair_at };

    fn read(alloc: Global, tokens: &mut Tokens) -> Result<Option<Checked<(Expr, Expr)>>, Memory> {
        let Some(x) = read_expr(alloc, tokens)? else {
            return Ok(None);
        };
        if !tokens.takes(Punctuation::Assign) {
            drop(x);
            return Ok(None);
        }
        match read_expr(alloc, tokens) {
            Ok(Some(y)) => Ok(Some(check_both(x, y))),
            Ok(None) => {
                drop(x);
                Ok(None)
            }
            Err(error) => {
                drop(x);
                Err(error)
            }
        }
    }
}
