//! The generator of plans.

ghost use Rattle.std.specs.Prelude.{◌≡◌, ◌≤◌, ◌<◌, ◌++◌, ◌∷◌, [], ◌+◌, ◌%◌, IfOk, OnOk, codes};
ghost use Rattle.plan_lang.specs.Generated.{account, accounts, move as mover, move_lines, source_digit, target_digit, move_args, move_items, all_moves, transfers};

use boki_types::{BinOp, Event, Expr, Function, Item, Plan, Program, Setup, Stmt};
use lb_base::{List, Memory, Mode, Path, Value, Words};
use sqlite_items::Boxed;
use std::alloc::Global;

/// The name of an account: the letter `a` and a digit.
fn account_name(alloc: Global, digit: u32) -> Result<Words, Memory>
    ensures { IfOk result (λ name. name ≡ account digit) }
{
    Ok(Words::from_string(format!(in alloc; "a{digit}")?))
}

/// The ten accounts.
fn make_accounts(alloc: Global) -> Result<List<(Words, Value)>, Memory>
    ensures { IfOk result (λ objects. objects ≡ accounts 10) }
{
    let mut objects = List::new(alloc);
    'digits: for digit in 0..10u32 {
        objects.push((account_name(alloc, digit)?, Value::Int(1000)))?;
    }
    Ok(objects)
}

fn variable(alloc: Global, name: &str) -> Result<Expr, Memory>
    ensures { IfOk result (λ x. x ≡ Expr.Var name.now) }
{
    Ok(Expr::Var(Words::from_text(alloc, name)?))
}

/// An operator between two variables.
fn two_variables(alloc: Global, op: BinOp, left: &str, right: &str) -> Result<Expr, Memory>
    ensures { IfOk result (λ x. x ≡ Expr.Two op (Expr.Var left.now) (Expr.Var right.now)) }
{
    let left = Boxed::new(alloc, variable(alloc, left)?)?;
    Ok(Expr::Two(op, left, Boxed::new(alloc, variable(alloc, right)?)?))
}

/// `let V = read N`
fn account_read(alloc: Global, name: &str, object: &str) -> Result<Stmt, Memory>
    ensures { IfOk result (λ line. line ≡ Stmt.Read name.now (Expr.Var object.now)) }
{
    Ok(Stmt::Read(Words::from_text(alloc, name)?, variable(alloc, object)?))
}

/// `write N, V op n`
fn account_write(alloc: Global, object: &str, op: BinOp, value: &str) -> Result<Stmt, Memory>
    ensures { IfOk result (λ line. line ≡ Stmt.Write (Expr.Var object.now) (Expr.Two op (Expr.Var value.now) (Expr.Var (codes "n")))) }
{
    let object = variable(alloc, object)?;
    Ok(Stmt::Write(object, two_variables(alloc, op, value, "n")?))
}

/// Adds the line `let V = read N`.
fn push_read(alloc: Global, lines: &mut List<Stmt>, name: &str, object: &str) -> Result<(), Memory>
    ensures { OnOk result (lines.new ≡ lines.old ++ Stmt.Read name.now (Expr.Var object.now) ∷ []) }
{
    lines.push(account_read(alloc, name, object)?)
}

/// Adds the line `write N, V op n`.
fn push_write(
    alloc: Global,
    lines: &mut List<Stmt>,
    object: &str,
    op: BinOp,
    value: &str,
) -> Result<(), Memory>
    ensures { OnOk result (lines.new ≡ lines.old ++ Stmt.Write (Expr.Var object.now) (Expr.Two op (Expr.Var value.now) (Expr.Var (codes "n"))) ∷ []) }
{
    lines.push(account_write(alloc, object, op, value)?)
}

/// The lines of the function.
fn make_lines(alloc: Global) -> Result<List<Stmt>, Memory>
    ensures { IfOk result (λ lines. lines ≡ move_lines) }
{
    let mut lines = List::new(alloc);
    push_read(alloc, &mut lines, "x", "a")?;
    push_read(alloc, &mut lines, "y", "b")?;
    push_write(alloc, &mut lines, "a", BinOp::Sub, "x")?;
    push_write(alloc, &mut lines, "b", BinOp::Add, "y")?;
    lines.push(Stmt::Return(two_variables(alloc, BinOp::Sub, "x", "n")?))?;
    Ok(lines)
}

fn make_params(alloc: Global) -> Result<List<Words>, Memory>
    ensures { IfOk result (λ params. params ≡ codes "a" ∷ codes "b" ∷ codes "n" ∷ []) }
{
    let mut params = List::new(alloc);
    params.push(Words::from_text(alloc, "a")?)?;
    params.push(Words::from_text(alloc, "b")?)?;
    params.push(Words::from_text(alloc, "n")?)?;
    Ok(params)
}

/// The function that takes an amount from one account and adds it to another.
fn make_function(alloc: Global) -> Result<Function, Memory>
    ensures { IfOk result (λ function. function ≡ mover) }
{
    Ok(Function {
        name: Words::from_text(alloc, "move")?,
        params: make_params(alloc)?,
        lines: make_lines(alloc)?,
    })
}

fn make_functions(alloc: Global) -> Result<List<Function>, Memory>
    ensures { IfOk result (λ functions. functions ≡ mover ∷ []) }
{
    let mut functions = List::new(alloc);
    functions.push(make_function(alloc)?)?;
    Ok(functions)
}

/// The digit of the account that a transfer takes from.
fn source_digit_of(i: u32) -> u32
    ensures { result ≡ source_digit i }
{
    i % 10
}

/// The digit of the account that a transfer adds to.
fn target_digit_of(i: u32) -> u32
    ensures { result ≡ target_digit i }
{
    (source_digit_of(i) + 1 + (i / 10) % 9) % 10
}

/// The arguments of a transfer: two accounts, and the amount.
fn make_args(alloc: Global, i: u32) -> Result<List<Value>, Memory>
    ensures { IfOk result (λ args. args ≡ move_args i) }
{
    let mut args = List::new(alloc);
    args.push(Value::Text(account_name(alloc, source_digit_of(i))?))?;
    args.push(Value::Text(account_name(alloc, target_digit_of(i))?))?;
    args.push(Value::Int(i64::from(i % 7)))?;
    Ok(args)
}

/// The path of a request.
fn path_of_request(i: u32) -> Path
    requires some { 1 ≤ i }
    requires few { i ≤ 4000 }
    ensures { result ≡ i ∷ [] }
{
    match Path::request(i) {
        Some(path) => path,
        None => unreachable!(),
    }
}

/// A step and a sync.
fn make_steps(alloc: Global, attempt: u32) -> Result<List<Event>, Memory>
    ensures { IfOk result (λ events. events ≡ Event.Step attempt ∷ Event.Sync ∷ []) }
{
    let mut events = List::new(alloc);
    events.push(Event::Step { attempt })?;
    events.push(Event::Sync)?;
    Ok(events)
}

/// Adds an event to the items.
fn push_one(items: &mut List<Item>, event: Event) -> Result<(), Memory>
    ensures { OnOk result (items.new ≡ items.old ++ Item.One event ∷ []) }
{
    items.push(Item::One(event))
}

/// Adds the four items of a transfer.
fn push_move(alloc: Global, items: &mut List<Item>, i: u32) -> Result<(), Memory>
    requires some { 1 ≤ i }
    requires few { i ≤ 4000 }
    ensures { OnOk result (items.new ≡ items.old ++ move_items i) }
{
    let engine = i % 4 + 1;
    let args = make_args(alloc, i)?;
    push_one(
        items,
        Event::Submit {
            engine,
            request: i,
            function: 0,
            args,
        },
    )?;
    push_one(items, Event::Sync)?;
    push_one(
        items,
        Event::Start {
            attempt: i,
            path: path_of_request(i),
            engine,
        },
    )?;
    items.push(Item::Repeat(12, make_steps(alloc, i)?))
}

/// The items of so many transfers.
fn make_items(alloc: Global, n: u32) -> Result<List<Item>, Memory>
    requires { n ≤ 4000 }
    ensures { IfOk result (λ items. items ≡ all_moves n) }
{
    let mut items = List::new(alloc);
    'moves: for i in 0..n {
        push_move(alloc, &mut items, i + 1)?;
    }
    Ok(items)
}

/// The plan of `n` transfers between ten accounts; it needs an `n` from 1 to 4,000.
///
/// It has 4 shards, 1 replica and 4 engines in mode `R`, the objects `a0` to `a9` of 1000 each, and the function `move` that takes
/// an amount from one account and adds it to another. For transfer i, from 1 on, there are a request and an attempt of that number,
/// on engine i modulo 4 plus 1, with a sync between, and then twelve steps with a sync behind each. It moves i modulo 7 from
/// account g, i modulo 10, to account (g + 1 + (i / 10) modulo 9) modulo 10.
pub fn make_plan(alloc: Global, n: u32) -> Result<Plan, Memory>
    requires some { 1 ≤ n }
    requires few { n ≤ 4000 }
    ensures { IfOk result (λ plan. plan ≡ transfers n) }
{
    Ok(Plan {
        setup: Setup {
            shards: 4,
            replicas: 1,
            engines: 4,
            mode: Mode::R,
            newer: None,
        },
        objects: make_accounts(alloc)?,
        program: Program {
            functions: make_functions(alloc)?,
        },
        items: make_items(alloc, n)?,
    })
}
