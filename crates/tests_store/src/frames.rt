//! Small functions as trees, with what they ask.

ghost use Rattle.std.specs.Prelude.{◌≡◌, length, IfOk};
ghost use Rattle.boki_types.specs.Finding.{arity};

use boki_types::{Answer, Ask, BinOp, Expr, Function, Op, Program, Stmt};
use lb_base::{List, Memory, Outcome, TrapKind, Value, Words};
use script_run::Frame;
use sqlite_items::Boxed;
use std::alloc::Global;
use std::process::Abort;
use std::test::Fail;

fn word(alloc: Global, text: &str) -> Result<Words, Memory> {
    Words::from_text(alloc, text)
}

fn var(alloc: Global, name: &str) -> Result<Expr, Memory> {
    Ok(Expr::Var(word(alloc, name)?))
}

fn text(alloc: Global, text: &str) -> Result<Expr, Memory> {
    Ok(Expr::Text(word(alloc, text)?))
}

fn boxed<T: Drop>(alloc: Global, left: T, right: T) -> Result<(Boxed<T>, Boxed<T>), Memory> {
    let left = Boxed::new(alloc, left)?;
    Ok((left, Boxed::new(alloc, right)?))
}

fn two(alloc: Global, op: BinOp, left: Expr, right: Expr) -> Result<Expr, Memory> {
    let (left, right) = boxed(alloc, left, right)?;
    Ok(Expr::Two(op, left, right))
}

/// A list of one element.
fn one<T: Drop>(alloc: Global, item: T) -> Result<List<T>, Memory>
    ensures { IfOk result (λ list. length list ≡ 1) }
{
    let mut list = List::new(alloc);
    list.push(item)?;
    Ok(list)
}

/// A program of one function.
fn program(alloc: Global, params: List<Words>, lines: List<Stmt>) -> Result<Program, Memory>
    ensures one { IfOk result (λ program. length program.functions ≡ 1) }
    ensures fits { IfOk result (λ program. arity 0 program.functions ≡ length params) }
{
    let function = Function {
        name: word(alloc, "f")?,
        params,
        lines,
    };
    let mut functions = List::new(alloc);
    functions.push(function)?;
    Ok(Program { functions })
}

/// A frame of a function with no parameters.
fn start(alloc: Global, program: &Program, depth: u8) -> Result<Frame, Memory>
    requires one { length program.now.functions ≡ 1 }
    requires fits { arity 0 program.now.functions ≡ 0 }
{
    Frame::new(alloc, program, 0, &[], depth)
}

/// Gives an answer that the frame takes.
fn give(
    rt: &impl Abort,
    alloc: Global,
    program: &Program,
    frame: &mut Frame,
    answer: Answer,
) -> Result<(), Memory>
    requires { length program.now.functions ≡ 1 }
{
    assert!(rt; frame.takes(&answer));
    frame.give(alloc, program, answer)
}

/// Whether a script ended in this trap.
fn has_trapped(frame: &Frame, kind: TrapKind) -> bool {
    matches!(frame.ask(), Ask::Done(Outcome::Trap(other)) if *other == kind)
}

/// Whether a script returned this number.
fn has_returned(frame: &Frame, n: i64) -> bool {
    matches!(frame.ask(), Ask::Done(Outcome::Good(Value::Int(other))) if *other == n)
}

/// A function of one line ends in this trap.
fn traps(
    rt: &impl Abort,
    alloc: Global,
    only: Stmt,
    depth: u8,
    kind: TrapKind,
) -> Result<(), Memory> {
    let lines = one(alloc, only)?;
    let program = program(alloc, List::new(alloc), lines)?;
    let frame = start(alloc, &program, depth)?;
    assert!(rt; has_trapped(&frame, kind));
    Ok(())
}

fn returns_one_more(alloc: Global) -> Result<Stmt, Memory> {
    Ok(Stmt::Return(two(alloc, BinOp::Add, var(alloc, "a")?, Expr::Int(1))?))
}

#[test]
fn adds_one(rt: HostRuntime) -> Result<(), Fail> {
    let alloc = rt.alloc();
    let params = one(alloc, word(alloc, "a")?)?;
    let lines = one(alloc, returns_one_more(alloc)?)?;
    let program = program(alloc, params, lines)?;
    let frame = Frame::new(alloc, &program, 0, &[Value::Int(4)], 1)?;
    let copy = frame.copy(alloc);
    drop(frame);
    assert!(rt; has_returned(&copy?, 5));
    Ok(())
}

fn beyond(alloc: Global) -> Result<Stmt, Memory> {
    Ok(Stmt::Return(two(alloc, BinOp::Add, Expr::Int(i64::MAX), Expr::Int(1))?))
}

/// Two operands that trap: the sum would judge its left one, but the right one is worked out first.
fn none_and_zero(alloc: Global) -> Result<Stmt, Memory> {
    let right = two(alloc, BinOp::Div, Expr::Int(1), Expr::Int(0))?;
    Ok(Stmt::Return(two(alloc, BinOp::Add, Expr::Nothing, right)?))
}

fn glued(alloc: Global, left: Words, right: Words) -> Result<Stmt, Memory> {
    let sum = two(alloc, BinOp::Glue, Expr::Text(left), Expr::Text(right))?;
    Ok(Stmt::Return(sum))
}

/// A text of 130 bytes: two of them are longer than a text may be.
const HALF: &str =
    "0123456789012345678901234567890123456789012345678901234567890123456789012345678901234567890123456789012345678901234567890123456789";

#[test]
fn expressions_trap(rt: HostRuntime) -> Result<(), Fail> {
    let alloc = rt.alloc();
    traps(&rt, alloc, beyond(alloc)?, 1, TrapKind::Overflow)?;
    traps(&rt, alloc, none_and_zero(alloc)?, 1, TrapKind::Divide)?;
    traps(&rt, alloc, Stmt::If(Expr::Nothing), 1, TrapKind::Kind)?;
    let left = word(alloc, HALF)?;
    let long = glued(alloc, left, word(alloc, HALF)?)?;
    traps(&rt, alloc, long, 1, TrapKind::Text)?;
    Ok(())
}

fn read_of_a_number(alloc: Global) -> Result<Stmt, Memory> {
    Ok(Stmt::Read(word(alloc, "x")?, Expr::Int(1)))
}

fn push_none(alloc: Global) -> Result<Stmt, Memory> {
    Ok(Stmt::Push(text(alloc, "q")?, Expr::Nothing))
}

fn commit_nothing(alloc: Global) -> Result<Stmt, Memory> {
    Ok(Stmt::Commit(word(alloc, "x")?, List::new(alloc)))
}

fn join_the_first(alloc: Global) -> Result<Stmt, Memory> {
    Ok(Stmt::Join(word(alloc, "x")?, Expr::Int(1)))
}

fn spawn(alloc: Global) -> Result<Stmt, Memory> {
    let name = word(alloc, "x")?;
    Ok(Stmt::Spawn(name, word(alloc, "f")?, List::new(alloc)))
}

#[test]
fn operations_trap(rt: HostRuntime) -> Result<(), Fail> {
    let alloc = rt.alloc();
    traps(&rt, alloc, read_of_a_number(alloc)?, 1, TrapKind::Key)?;
    traps(&rt, alloc, push_none(alloc)?, 1, TrapKind::Kind)?;
    traps(&rt, alloc, commit_nothing(alloc)?, 1, TrapKind::Txn)?;
    traps(&rt, alloc, join_the_first(alloc)?, 1, TrapKind::Join)?;
    traps(&rt, alloc, spawn(alloc)?, 4, TrapKind::Spawn)?;
    Ok(())
}

fn read(alloc: Global) -> Result<Stmt, Memory> {
    let name = word(alloc, "x")?;
    Ok(Stmt::Read(name, text(alloc, "a")?))
}

fn write(alloc: Global) -> Result<Stmt, Memory> {
    let key = word(alloc, "b")?;
    let sum = two(alloc, BinOp::Add, var(alloc, "x")?, Expr::Int(1))?;
    Ok(Stmt::Write(Expr::Text(key), sum))
}

/// Reads `a`, writes one more to `b`, and returns what it read.
fn reader(alloc: Global) -> Result<Program, Memory>
    ensures one { IfOk result (λ program. length program.functions ≡ 1) }
    ensures fits { IfOk result (λ program. arity 0 program.functions ≡ 0) }
{
    let mut lines = one(alloc, read(alloc)?)?;
    lines.push(write(alloc)?)?;
    lines.push(Stmt::Return(var(alloc, "x")?))?;
    program(alloc, List::new(alloc), lines)
}

fn asks_read(frame: &Frame) -> bool {
    matches!(frame.ask(), Ask::Op(Op::Read { key }) if key.is("a"))
}

fn asks_write(frame: &Frame) -> bool {
    matches!(frame.ask(), Ask::Op(Op::Write { key, value: Value::Int(5) }) if key.is("b"))
}

/// Answers the reader's operations, and looks at what it asks between.
fn answer_reader(
    rt: &impl Abort,
    alloc: Global,
    program: &Program,
    frame: &mut Frame,
) -> Result<(), Memory>
    requires { length program.now.functions ≡ 1 }
{
    assert!(rt; asks_read(frame));
    let found = Answer::Value(Value::Int(4));
    give(rt, alloc, program, frame, found)?;
    assert!(rt; asks_write(frame));
    give(rt, alloc, program, frame, Answer::Done)?;
    assert!(rt; has_returned(frame, 4));
    Ok(())
}

#[test]
fn reads_and_writes(rt: HostRuntime) -> Result<(), Fail> {
    let alloc = rt.alloc();
    let program = reader(alloc)?;
    let mut frame = start(alloc, &program, 1)?;
    let answered = answer_reader(&rt, alloc, &program, &mut frame);
    drop(frame);
    answered?;
    Ok(())
}

fn endless(alloc: Global) -> Result<List<Stmt>, Memory> {
    let mut lines = one(alloc, Stmt::While(Expr::Int(1)))?;
    lines.push(Stmt::End)?;
    Ok(lines)
}

#[test]
fn entries_are_counted(rt: HostRuntime) -> Result<(), Fail> {
    let alloc = rt.alloc();
    let program = program(alloc, List::new(alloc), endless(alloc)?)?;
    let frame = start(alloc, &program, 1)?;
    assert!(rt; has_trapped(&frame, TrapKind::Loop));
    Ok(())
}
