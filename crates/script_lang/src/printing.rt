//! The canonical text of functions.

ghost use Rattle.std.specs.Prelude.{◌≡◌, ◌++◌, ◌-◌, ◌<◌, ◌^◌, nat_lt, codes, IfOk, OnOk};
ghost use Rattle.std.specs.String.{string_bytes};
ghost use Rattle.script_lang.specs.Expressions.{precedence as precedence_is, left_precedence};
ghost use Rattle.script_lang.specs.Printed.{◌&◌, op_text, paren_text, expr_text, top_expr_text, assignment_text, write_pair_text, name_text, comma_joined, stmt_text, commit_text, comma_before, line_depth, next_depth, indent, stmt_line_text, stmt_lines_text, function_text};

use crate::stack::{left_precedence_of, precedence_of};
use boki_types::{BinOp, Expr, Function, Stmt};
use lb_base::{Memory, Words, print_quoted};
use std::alloc::Global;

fn op_str(op: BinOp) -> &'static str
    ensures { result.now ≡ op_text op }
{
    match op {
        BinOp::Or => "or",
        BinOp::And => "and",
        BinOp::Eq => "==",
        BinOp::Ne => "!=",
        BinOp::Lt => "<",
        BinOp::Le => "<=",
        BinOp::Gt => ">",
        BinOp::Ge => ">=",
        BinOp::Add => "+",
        BinOp::Sub => "-",
        BinOp::Glue => "++",
        BinOp::Mul => "*",
        BinOp::Div => "/",
        BinOp::Rem => "%",
    }
}

/// A text in parentheses, where it needs them.
fn paren_if(alloc: Global, needs: bool, text: String) -> Result<String, Memory>
    ensures { IfOk result (λ s. string_bytes s ≡ paren_text needs (string_bytes text)) }
{
    if needs {
        Ok(format!(in alloc; "({text})")?)
    } else {
        Ok(text)
    }
}

/// An operator between two texts, as an operand of what binds as `outer`.
fn two_text(
    alloc: Global,
    outer: u8,
    op: BinOp,
    left: String,
    right: String,
) -> Result<String, Memory>
    ensures { IfOk result (λ s. string_bytes s ≡ paren_text (nat_lt (precedence_is op) outer) (string_bytes left & codes " " & op_text op & codes " " & string_bytes right)) }
{
    let sign = op_str(op);
    let text = format!(in alloc; "{left} {sign} {right}")?;
    paren_if(alloc, precedence_of(op) < outer, text)
}

/// An expression, as an operand of what binds as `outer`. It calls itself as deep as the expression is.
fn expr_string(alloc: Global, outer: u8, x: &Expr) -> Result<String, Memory>
    ensures { IfOk result (λ s. string_bytes s ≡ expr_text outer x.now) }
{
    match x {
        Expr::Int(n) => Ok(n.to_string(alloc)?),
        Expr::Text(text) => Ok(print_quoted(alloc, text.as_str())?.into_string()),
        Expr::Nothing => Ok(String::from_str(alloc, "none")?),
        Expr::Var(name) => Ok(String::from_str(alloc, name.as_str())?),
        Expr::Not(x) => {
            let x = expr_string(alloc, 3, x.get())?;
            paren_if(alloc, 3 < outer, format!(in alloc; "not {x}")?)
        }
        Expr::Two(op, x, y) => {
            let precedence = precedence_of(*op);
            let left = expr_string(alloc, left_precedence_of(precedence), x.get())?;
            let right = expr_string(alloc, precedence + 1, y.get())?;
            two_text(alloc, outer, *op, left, right)
        }
        Expr::TextOf(x) => {
            let x = expr_string(alloc, 0, x.get())?;
            Ok(format!(in alloc; "text({x})")?)
        }
        Expr::Len(x) => {
            let x = expr_string(alloc, 0, x.get())?;
            Ok(format!(in alloc; "len({x})")?)
        }
    }
}

/// An expression alone.
fn top_expr_string(alloc: Global, x: &Expr) -> Result<String, Memory>
    ensures { IfOk result (λ s. string_bytes s ≡ top_expr_text x.now) }
{
    expr_string(alloc, 0, x)
}

/// What may stand several times with commas between.
trait Piece {
    ghost use Rattle.std.specs.Prelude.{ℕ, List};

    /// Its text.
    ghost prints: { Self → List ℕ };

    fn text(&self, alloc: Global) -> Result<String, Memory>
        ensures { IfOk result (λ s. string_bytes s ≡ prints self.now) };
}

impl Piece for Words {
    ghost prints = { name_text };

    fn text(&self, alloc: Global) -> Result<String, Memory> {
        Ok(String::from_str(alloc, self.as_str())?)
    }
}

impl Piece for Expr {
    ghost prints = { top_expr_text };

    fn text(&self, alloc: Global) -> Result<String, Memory> {
        top_expr_string(alloc, self)
    }
}

impl Piece for (Words, Expr) {
    ghost prints = { assignment_text };

    fn text(&self, alloc: Global) -> Result<String, Memory> {
        let name = self.0.as_str();
        let x = top_expr_string(alloc, &self.1)?;
        Ok(format!(in alloc; "{name} = {x}")?)
    }
}

impl Piece for (Expr, Expr) {
    ghost prints = { write_pair_text };

    fn text(&self, alloc: Global) -> Result<String, Memory> {
        let x = top_expr_string(alloc, &self.0)?;
        let y = top_expr_string(alloc, &self.1)?;
        Ok(format!(in alloc; "{x} = {y}")?)
    }
}

/// Adds a text, with a comma before it where it isn't the first.
fn push_with_comma(out: &mut String, first: bool, text: &str) -> Result<(), Memory>
    ensures { OnOk result (string_bytes out.new ≡ string_bytes out.old ++ comma_before first text.now) }
{
    if first {
        out.push_str(text)?;
    } else {
        out.push_str(", ")?;
        out.push_str(text)?;
    }
    Ok(())
}

/// Texts with commas between them.
fn comma_joined_string<T: Piece>(alloc: Global, items: &[T]) -> Result<String, Memory>
    ensures { IfOk result (λ s. string_bytes s ≡ comma_joined T.Piece.prints items.now) }
{
    let mut out = String::new(alloc);
    let mut first = true;
    'items: for item in items {
        let text = item.text(alloc)?;
        push_with_comma(&mut out, first, text.as_str())?;
        first = false;
    }
    Ok(out)
}

/// `let V = WORD E`, where the word has a space behind it or is none.
fn set_string(alloc: Global, name: &Words, word: &str, x: &Expr) -> Result<String, Memory>
    ensures { IfOk result (λ s. string_bytes s ≡ (codes "let " & name.now & codes " = " & word.now & top_expr_text x.now)) }
{
    let name = name.as_str();
    let x = top_expr_string(alloc, x)?;
    Ok(format!(in alloc; "let {name} = {word}{x}")?)
}

/// `WORD E, E`, where the word has a space behind it.
fn pair_string(alloc: Global, word: &str, x: &Expr, y: &Expr) -> Result<String, Memory>
    ensures { IfOk result (λ s. string_bytes s ≡ (word.now & top_expr_text x.now & codes ", " & top_expr_text y.now)) }
{
    let x = top_expr_string(alloc, x)?;
    let y = top_expr_string(alloc, y)?;
    Ok(format!(in alloc; "{word}{x}, {y}")?)
}

/// `WORD E`, where the word has a space behind it.
fn one_string(alloc: Global, word: &str, x: &Expr) -> Result<String, Memory>
    ensures { IfOk result (λ s. string_bytes s ≡ (word.now & top_expr_text x.now)) }
{
    let x = top_expr_string(alloc, x)?;
    Ok(format!(in alloc; "{word}{x}")?)
}

/// `WORD V = E, V = E`, where the word has a space behind it.
fn group_string(alloc: Global, word: &str, pairs: &[(Words, Expr)]) -> Result<String, Memory>
    ensures { IfOk result (λ s. string_bytes s ≡ (word.now & comma_joined assignment_text pairs.now)) }
{
    let list = comma_joined_string(alloc, pairs)?;
    Ok(format!(in alloc; "{word}{list}")?)
}

fn spawn_string(
    alloc: Global,
    name: &Words,
    function: &Words,
    args: &[Expr],
) -> Result<String, Memory>
    ensures { IfOk result (λ s. string_bytes s ≡ (codes "let " & name.now & codes " = spawn " & function.now & codes "(" & comma_joined top_expr_text args.now & codes ")")) }
{
    let name = name.as_str();
    let function = function.as_str();
    let args = comma_joined_string(alloc, args)?;
    Ok(format!(in alloc; "let {name} = spawn {function}({args})")?)
}

fn commit_string(alloc: Global, name: &Words, writes: &[(Expr, Expr)]) -> Result<String, Memory>
    ensures { IfOk result (λ s. string_bytes s ≡ commit_text name.now writes.now) }
{
    let name = name.as_str();
    match writes {
        [] => Ok(format!(in alloc; "let {name} = commit")?),
        [_, ..] => {
            let list = comma_joined_string(alloc, writes)?;
            Ok(format!(in alloc; "let {name} = commit {list}")?)
        }
    }
}

/// A statement, without what stands before it on its line.
fn stmt_string(alloc: Global, stmt: &Stmt) -> Result<String, Memory>
    ensures { IfOk result (λ s. string_bytes s ≡ stmt_text stmt.now) }
{
    match stmt {
        Stmt::Let(name, x) => set_string(alloc, name, "", x),
        Stmt::Read(name, x) => set_string(alloc, name, "read ", x),
        Stmt::Write(x, y) => pair_string(alloc, "write ", x, y),
        Stmt::Spawn(name, function, args) => spawn_string(alloc, name, function, args.as_slice()),
        Stmt::Join(name, x) => set_string(alloc, name, "join ", x),
        Stmt::Push(x, y) => pair_string(alloc, "push ", x, y),
        Stmt::Pop(name, x) => set_string(alloc, name, "pop ", x),
        Stmt::Begin(pairs) => group_string(alloc, "begin ", pairs.as_slice()),
        Stmt::Commit(name, writes) => commit_string(alloc, name, writes.as_slice()),
        Stmt::If(x) => one_string(alloc, "if ", x),
        Stmt::Else => Ok(String::from_str(alloc, "else")?),
        Stmt::While(x) => one_string(alloc, "while ", x),
        Stmt::End => Ok(String::from_str(alloc, "end")?),
        Stmt::Return(x) => one_string(alloc, "return ", x),
        Stmt::ReadAll(pairs) => group_string(alloc, "read all ", pairs.as_slice()),
    }
}

/// Two spaces, so often.
fn indent_string(alloc: Global, n: usize) -> Result<String, Memory>
    ensures { IfOk result (λ s. string_bytes s ≡ indent n) }
{
    let mut out = String::new(alloc);
    'steps: for _ in 0..n {
        out.push_str("  ")?;
    }
    Ok(out)
}

/// How far in a line stands where so many blocks are open before it.
fn depth_of_line(n: usize, stmt: &Stmt) -> usize
    ensures { result ≡ line_depth n stmt.now }
{
    match stmt {
        Stmt::Else => n.saturating_sub(1),
        Stmt::End => n.saturating_sub(1),
        _ => n,
    }
}

/// How many blocks are open behind a line.
fn depth_after(n: usize, stmt: &Stmt) -> usize
    requires { n < 2 ^ 64 - 1 }
    ensures { result ≡ next_depth n stmt.now }
{
    match stmt {
        Stmt::If(_) => n + 1,
        Stmt::While(_) => n + 1,
        Stmt::End => n.saturating_sub(1),
        _ => n,
    }
}

/// A line.
fn line_string(alloc: Global, n: usize, stmt: &Stmt) -> Result<String, Memory>
    ensures { IfOk result (λ s. string_bytes s ≡ stmt_line_text n stmt.now) }
{
    let indent = indent_string(alloc, depth_of_line(n, stmt))?;
    let text = stmt_string(alloc, stmt)?;
    Ok(format!(in alloc; "{indent}{text}\n")?)
}

/// The lines of a function.
fn lines_string(alloc: Global, lines: &[Stmt]) -> Result<String, Memory>
    ensures { IfOk result (λ s. string_bytes s ≡ stmt_lines_text 1 lines.now) }
{
    let mut out = String::new(alloc);
    let mut depth = 1usize;
    'lines: for line in lines {
        out.push_str(line_string(alloc, depth, line)?.as_str())?;
        depth = depth_after(depth, line);
    }
    Ok(out)
}

/// The canonical text of a function: its head, its lines and its `end`, each with its line feed.
///
/// There is one space between words and on both sides of an operator, `, ` after a comma, and two spaces at the start of a line for
/// each block that is open there; `else` and `end` stand as far in as the line that opened their block. Parentheses stand exactly
/// where the tree needs them.
pub fn print_function(alloc: Global, function: &Function) -> Result<Words, Memory>
    ensures { IfOk result (λ text. text ≡ function_text function.now) }
{
    let name = function.name.as_str();
    let params = comma_joined_string(alloc, function.params.as_slice())?;
    let lines = lines_string(alloc, function.lines.as_slice())?;
    let text = format!(in alloc; "function {name}({params})\n{lines}end\n")?;
    Ok(Words::from_string(text))
}
