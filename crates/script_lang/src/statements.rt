//! Statements, from the tokens of a line.

ghost use Rattle.std.specs.Prelude.{◌≡◌, IfOk};
ghost use Rattle.line_text.specs.Stream.{found_before};
ghost use Rattle.line_text.specs.Readers.{if_at_end};
ghost use Rattle.script_lang.specs.Statements.{name_and_list, call_at, function_head_of, behind_function, set_value, set_spawn, set_commit, make_commit, set_by, let_of, pair_stmt_of, expr_stmt_of, group_stmt_of, read_all_of, behind_keyword, stmt_of};
ghost use Rattle.line_text.specs.Checks.{map_checked};
ghost use Rattle.script_lang.specs.StatementForms.{make_value_stmt, make_pair_stmt, make_expr_stmt, make_group_stmt};

use crate::expressions::read_expr;
use crate::setters::{Setter, take_setter};
use boki_types::{Expr, Stmt};
use lb_base::{List, Memory, Value, Words};
use line_text::{
    Checked, CommaList, Element, Keyword, Punctuation, Token, Tokens, at_most_eight_items,
    check_both, checked_at_end, read_comma_list, read_name, read_paren_list,
};
use std::alloc::Global;

/// A statement with a variable and an expression.
#[derive(Clone, Copy, PartialEq, Eq)]
pub enum ValueForm {
    Let,
    Read,
    Join,
    Pop,
}

/// A statement with two expressions.
#[derive(Clone, Copy, PartialEq, Eq)]
pub enum PairForm {
    Write,
    Push,
}

/// A statement with one expression.
#[derive(Clone, Copy, PartialEq, Eq)]
pub enum ExprForm {
    If,
    While,
    Return,
}

/// A statement with names and expressions.
#[derive(Clone, Copy, PartialEq, Eq)]
pub enum GroupForm {
    Begin,
    ReadAll,
}

fn value_stmt(form: ValueForm, both: Checked<(Words, Expr)>) -> Checked<Stmt>
    ensures { result ≡ map_checked (λ p. make_value_stmt form p.0 p.1) both }
{
    match both {
        Checked::Valid((name, x)) => match form {
            ValueForm::Let => Checked::Valid(Stmt::Let(name, x)),
            ValueForm::Read => Checked::Valid(Stmt::Read(name, x)),
            ValueForm::Join => Checked::Valid(Stmt::Join(name, x)),
            ValueForm::Pop => Checked::Valid(Stmt::Pop(name, x)),
        },
        Checked::OutOfRange => Checked::OutOfRange,
        Checked::TooDeep => Checked::TooDeep,
    }
}

fn pair_stmt(form: PairForm, both: Checked<(Expr, Expr)>) -> Checked<Stmt>
    ensures { result ≡ map_checked (λ p. make_pair_stmt form p.0 p.1) both }
{
    match both {
        Checked::Valid((x, y)) => match form {
            PairForm::Write => Checked::Valid(Stmt::Write(x, y)),
            PairForm::Push => Checked::Valid(Stmt::Push(x, y)),
        },
        Checked::OutOfRange => Checked::OutOfRange,
        Checked::TooDeep => Checked::TooDeep,
    }
}

fn one_stmt(form: ExprForm, x: Checked<Expr>) -> Checked<Stmt>
    ensures { result ≡ map_checked (make_expr_stmt form) x }
{
    match x {
        Checked::Valid(x) => match form {
            ExprForm::If => Checked::Valid(Stmt::If(x)),
            ExprForm::While => Checked::Valid(Stmt::While(x)),
            ExprForm::Return => Checked::Valid(Stmt::Return(x)),
        },
        Checked::OutOfRange => Checked::OutOfRange,
        Checked::TooDeep => Checked::TooDeep,
    }
}

fn group_stmt(form: GroupForm, pairs: Checked<List<(Words, Expr)>>) -> Checked<Stmt>
    ensures { result ≡ map_checked (make_group_stmt form) pairs }
{
    match pairs {
        Checked::Valid(pairs) => match form {
            GroupForm::Begin => Checked::Valid(Stmt::Begin(pairs)),
            GroupForm::ReadAll => Checked::Valid(Stmt::ReadAll(pairs)),
        },
        Checked::OutOfRange => Checked::OutOfRange,
        Checked::TooDeep => Checked::TooDeep,
    }
}

fn commit_stmt(name: Checked<Words>, writes: Checked<List<(Expr, Expr)>>) -> Checked<Stmt>
    ensures { result ≡ make_commit name writes }
{
    match check_both(name, writes) {
        Checked::Valid((name, writes)) => Checked::Valid(Stmt::Commit(name, writes)),
        Checked::OutOfRange => Checked::OutOfRange,
        Checked::TooDeep => Checked::TooDeep,
    }
}

/// `let V = E`, and those with a word before the expression.
fn read_value_stmt(
    alloc: Global,
    tokens: &mut Tokens,
    form: ValueForm,
    name: Checked<Words>,
) -> Result<Option<Checked<Stmt>>, Memory>
    ensures { IfOk result (λ r. r ≡ set_value (make_value_stmt form) name tokens.old) }
{
    match read_expr(alloc, tokens)? {
        Some(x) => Ok(checked_at_end(tokens, value_stmt(form, check_both(name, x)))),
        None => Ok(None),
    }
}

/// A name, and a list in parentheses behind it.
fn read_name_and_list<T: Element<G>, G>(
    alloc: Global,
    tokens: &mut Tokens,
) -> Result<Option<(Checked<Words>, CommaList<T>)>, Memory>
    ensures { IfOk result (λ r. found_before tokens.new r ≡ name_and_list T.Element.reads tokens.old) }
{
    let Some(name) = read_name(tokens) else {
        return Ok(None);
    };
    if !tokens.takes(Punctuation::Open) {
        return Ok(None);
    }
    match read_paren_list(alloc, tokens)? {
        Some(list) => Ok(Some((name, list))),
        None => Ok(None),
    }
}

/// The call `F(VALUE, ..)` that begins the tokens, of any number of values, and leaves those behind it; None where a token
/// doesn't fit.
pub fn read_call(
    alloc: Global,
    tokens: &mut Tokens,
) -> Result<Option<Checked<(Words, List<Value>)>>, Memory>
    ensures { IfOk result (λ found. found_before tokens.new found ≡ call_at tokens.old) }
{
    match read_name_and_list(alloc, tokens)? {
        Some((name, args)) => Ok(Some(check_both(name, args.items))),
        None => Ok(None),
    }
}

/// `function F(P, P)`, alone on its line.
pub(crate) fn read_function_head(
    alloc: Global,
    mut tokens: Tokens,
) -> Result<Option<Checked<(Words, List<Words>)>>, Memory>
    ensures { IfOk result (λ found. found ≡ function_head_of tokens) }
{
    match tokens.take() {
        Some(Token::Keyword(Keyword::Function)) => read_behind_function(alloc, &mut tokens),
        _ => Ok(None),
    }
}

/// What follows `function`.
fn read_behind_function(
    alloc: Global,
    tokens: &mut Tokens,
) -> Result<Option<Checked<(Words, List<Words>)>>, Memory>
    ensures { IfOk result (λ found. found ≡ behind_function tokens.old) }
{
    match read_name_and_list(alloc, tokens)? {
        Some((name, params)) => {
            let head = check_both(name, at_most_eight_items(params));
            if tokens.is_empty() {
                Ok(Some(head))
            } else {
                Ok(None)
            }
        }
        None => Ok(None),
    }
}

/// `spawn F(E, E)`, behind the word.
fn read_spawn(
    alloc: Global,
    tokens: &mut Tokens,
    name: Checked<Words>,
) -> Result<Option<Checked<Stmt>>, Memory>
    ensures { IfOk result (λ r. r ≡ set_spawn name tokens.old) }
{
    match read_name_and_list(alloc, tokens)? {
        Some((function, args)) => {
            let stmt = match check_both(check_both(name, function), args.items) {
                Checked::Valid(((name, function), args)) => {
                    Checked::Valid(Stmt::Spawn(name, function, args))
                }
                Checked::OutOfRange => Checked::OutOfRange,
                Checked::TooDeep => Checked::TooDeep,
            };
            Ok(checked_at_end(tokens, stmt))
        }
        None => Ok(None),
    }
}

/// `commit E = E, E = E`, behind the word; there may be no pair.
fn read_commit(
    alloc: Global,
    tokens: &mut Tokens,
    name: Checked<Words>,
) -> Result<Option<Checked<Stmt>>, Memory>
    ensures { IfOk result (λ r. r ≡ set_commit name tokens.old) }
{
    if tokens.is_empty() {
        return Ok(Some(commit_stmt(name, Checked::Valid(List::new(alloc)))));
    }
    match read_comma_list(alloc, tokens)? {
        Some(writes) => Ok(checked_at_end(tokens, commit_stmt(name, at_most_eight_items(writes)))),
        None => Ok(None),
    }
}

/// What follows `let`.
fn read_let(alloc: Global, tokens: &mut Tokens) -> Result<Option<Checked<Stmt>>, Memory>
    ensures { IfOk result (λ r. r ≡ let_of tokens.old) }
{
    let Some(name) = read_name(tokens) else {
        return Ok(None);
    };
    if !tokens.takes(Punctuation::Assign) {
        return Ok(None);
    }
    match take_setter(tokens) {
        Setter::Value => read_value_stmt(alloc, tokens, ValueForm::Let, name),
        Setter::Read => read_value_stmt(alloc, tokens, ValueForm::Read, name),
        Setter::Spawn => read_spawn(alloc, tokens, name),
        Setter::Join => read_value_stmt(alloc, tokens, ValueForm::Join, name),
        Setter::Pop => read_value_stmt(alloc, tokens, ValueForm::Pop, name),
        Setter::Commit => read_commit(alloc, tokens, name),
    }
}

/// `E, E`, behind the word.
fn read_pair(
    alloc: Global,
    tokens: &mut Tokens,
    form: PairForm,
) -> Result<Option<Checked<Stmt>>, Memory>
    ensures { IfOk result (λ r. r ≡ pair_stmt_of (make_pair_stmt form) tokens.old) }
{
    let Some(x) = read_expr(alloc, tokens)? else {
        return Ok(None);
    };
    if !tokens.takes(Punctuation::Comma) {
        drop(x);
        return Ok(None);
    }
    match read_expr(alloc, tokens) {
        Ok(Some(y)) => Ok(checked_at_end(tokens, pair_stmt(form, check_both(x, y)))),
        Ok(None) => {
            drop(x);
            Ok(None)
        }
        Err(error) => {
            drop(x);
            Err(error)
        }
    }
}

/// `E`, behind the word.
fn read_one(
    alloc: Global,
    tokens: &mut Tokens,
    form: ExprForm,
) -> Result<Option<Checked<Stmt>>, Memory>
    ensures { IfOk result (λ r. r ≡ expr_stmt_of (make_expr_stmt form) tokens.old) }
{
    match read_expr(alloc, tokens)? {
        Some(x) => Ok(checked_at_end(tokens, one_stmt(form, x))),
        None => Ok(None),
    }
}

/// `V = E, V = E`, behind the words.
fn read_group(
    alloc: Global,
    tokens: &mut Tokens,
    form: GroupForm,
) -> Result<Option<Checked<Stmt>>, Memory>
    ensures { IfOk result (λ r. r ≡ group_stmt_of (make_group_stmt form) tokens.old) }
{
    if tokens.is_empty() {
        return Ok(Some(Checked::OutOfRange));
    }
    match read_comma_list(alloc, tokens)? {
        Some(pairs) => Ok(checked_at_end(tokens, group_stmt(form, at_most_eight_items(pairs)))),
        None => Ok(None),
    }
}

/// `all V = E, V = E`, behind `read`.
fn read_all_group(alloc: Global, tokens: &mut Tokens) -> Result<Option<Checked<Stmt>>, Memory>
    ensures { IfOk result (λ r. r ≡ read_all_of tokens.old) }
{
    match tokens.take() {
        Some(Token::Name(name)) => {
            if name.as_str() == "all" {
                read_group(alloc, tokens, GroupForm::ReadAll)
            } else {
                Ok(None)
            }
        }
        _ => Ok(None),
    }
}

/// What follows a reserved word that begins a statement.
fn read_behind_keyword(
    alloc: Global,
    tokens: &mut Tokens,
    key: Keyword,
) -> Result<Option<Checked<Stmt>>, Memory>
    ensures { IfOk result (λ r. r ≡ behind_keyword key tokens.old) }
{
    match key {
        Keyword::Let => read_let(alloc, tokens),
        Keyword::Read => read_all_group(alloc, tokens),
        Keyword::Write => read_pair(alloc, tokens, PairForm::Write),
        Keyword::Push => read_pair(alloc, tokens, PairForm::Push),
        Keyword::Begin => read_group(alloc, tokens, GroupForm::Begin),
        Keyword::If => read_one(alloc, tokens, ExprForm::If),
        Keyword::Else => Ok(checked_at_end(tokens, Checked::Valid(Stmt::Else))),
        Keyword::While => read_one(alloc, tokens, ExprForm::While),
        Keyword::End => Ok(checked_at_end(tokens, Checked::Valid(Stmt::End))),
        Keyword::Return => read_one(alloc, tokens, ExprForm::Return),
        _ => Ok(None),
    }
}

/// The statement that the tokens of a line are; None where they are none.
pub(crate) fn read_stmt(alloc: Global, mut tokens: Tokens) -> Result<Option<Checked<Stmt>>, Memory>
    ensures { IfOk result (λ r. r ≡ stmt_of tokens) }
{
    match tokens.take() {
        Some(Token::Keyword(key)) => read_behind_keyword(alloc, &mut tokens, key),
        _ => Ok(None),
    }
}
