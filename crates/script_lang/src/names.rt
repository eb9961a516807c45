//! The second pass: names and numbers of arguments.

ghost use Rattle.std.specs.Prelude.{◌≡◌, ◌∷◌, ◌++◌, ◌<◌, ◌≤◌, ◌^◌, ◌&&◌, IfOk, OnOk, length, take, get_or, bytes_eq, []};
ghost use Rattle.std.specs.List.{list_all, list_any};
ghost use Rattle.boki_model.specs.Plans.{variables_set, distinct};
ghost use Rattle.boki_model.specs.Maps.{has};
ghost use Rattle.boki_model.specs.Script.{pair_names};
ghost use Rattle.script_lang.specs.Names.{is_among, names_in, AreSameNames, vars_known, reads_known, call_fault as fault_of_call, spawn_fault, line_fault, function_head_fault, lines_fault, function_fault, name_fault as fault_of};

use boki_types::{Expr, Function, Kind, Stmt};
use lb_base::{List, Memory, Words};
use std::alloc::Global;
use std::collections::HashSet;

/// Whether a name is known.
fn is_known(known: &HashSet<&str>, name: &str) -> bool
    ensures { result ≡ is_among (names_in known.now) name.now }
{
    known.contains(name)
}

/// Whether all variables of an expression are known. It calls itself as deep as the expression is.
fn are_vars_known(known: &HashSet<&str>, x: &Expr) -> bool
    ensures { result ≡ vars_known (names_in known.now) x.now }
{
    match x {
        Expr::Int(_) => true,
        Expr::Text(_) => true,
        Expr::Nothing => true,
        Expr::Var(name) => is_known(known, name.as_str()),
        Expr::Not(x) => are_vars_known(known, x.get()),
        Expr::Two(_, x, y) => are_vars_known(known, x.get()) && are_vars_known(known, y.get()),
        Expr::TextOf(x) => are_vars_known(known, x.get()),
        Expr::Len(x) => are_vars_known(known, x.get()),
    }
}

fn are_known_in(known: &HashSet<&str>, exprs: &[Expr]) -> bool
    ensures { result ≡ list_all (vars_known (names_in known.now)) exprs.now }
{
    exprs.iter().all(|x| are_vars_known(known, x))
}

fn are_known_behind(known: &HashSet<&str>, pairs: &[(Words, Expr)]) -> bool
    ensures { result ≡ list_all (λ p. vars_known (names_in known.now) p.1) pairs.now }
{
    pairs.iter().all(|pair| are_vars_known(known, &pair.1))
}

fn are_known_in_pairs(known: &HashSet<&str>, pairs: &[(Expr, Expr)]) -> bool
    ensures { result ≡ list_all (λ p. vars_known (names_in known.now) p.0 && vars_known (names_in known.now) p.1) pairs.now }
{
    pairs.iter().all(|pair| are_vars_known(known, &pair.0) && are_vars_known(known, &pair.1))
}

/// Whether all variables that a statement reads are known.
fn reads_known_vars(known: &HashSet<&str>, stmt: &Stmt) -> bool
    ensures { result ≡ reads_known (names_in known.now) stmt.now }
{
    match stmt {
        Stmt::Let(_, x) => are_vars_known(known, x),
        Stmt::Read(_, x) => are_vars_known(known, x),
        Stmt::Write(x, y) => are_vars_known(known, x) && are_vars_known(known, y),
        Stmt::Spawn(_, _, xs) => are_known_in(known, xs.as_slice()),
        Stmt::Join(_, x) => are_vars_known(known, x),
        Stmt::Push(x, y) => are_vars_known(known, x) && are_vars_known(known, y),
        Stmt::Pop(_, x) => are_vars_known(known, x),
        Stmt::Begin(pairs) => are_known_behind(known, pairs.as_slice()),
        Stmt::Commit(_, pairs) => are_known_in_pairs(known, pairs.as_slice()),
        Stmt::If(x) => are_vars_known(known, x),
        Stmt::Else => true,
        Stmt::While(x) => are_vars_known(known, x),
        Stmt::End => true,
        Stmt::Return(x) => are_vars_known(known, x),
        Stmt::ReadAll(pairs) => are_known_behind(known, pairs.as_slice()),
    }
}

/// What is wrong with a call of a function by its name, with so many arguments: `Name` where no function has the name, and
/// `Arity` where the first that has it takes another number. It takes no memory.
pub fn call_fault(functions: &[Function], name: &str, count: usize) -> Option<Kind>
    ensures { result ≡ fault_of_call functions.now name.now count }
{
    'functions: for function in functions {
        if name == function.name.as_str() {
            if count == function.params.len() {
                return None;
            }
            return Some(Kind::Arity);
        }
    }
    Some(Kind::Name)
}

/// What is wrong with a statement: a name, or else a number of arguments.
fn stmt_fault(functions: &[Function], known: &HashSet<&str>, stmt: &Stmt) -> Option<Kind>
    ensures { result ≡ line_fault functions.now (names_in known.now) stmt.now }
{
    if !reads_known_vars(known, stmt) {
        return Some(Kind::Name);
    }
    match stmt {
        Stmt::Spawn(_, function, args) => call_fault(functions, function.as_str(), args.len()),
        _ => None,
    }
}

/// Adds a name.
fn add_name<'a>(known: &mut HashSet<&'a str>, name: &'a str) -> Result<(), Memory>
    ensures { OnOk result (AreSameNames (names_in known.new) (names_in known.old ++ name.now ∷ [])) }
{
    known.insert(name)?;
    Ok(())
}

/// Adds the parameters of a function.
fn add_params<'a>(known: &mut HashSet<&'a str>, params: &'a [Words]) -> Result<(), Memory>
    ensures { OnOk result (AreSameNames (names_in known.new) (names_in known.old ++ params.now)) }
{
    'params: for param in params {
        add_name(known, param.as_str())?;
    }
    Ok(())
}

/// Adds the variables that pairs set.
fn add_firsts<'a>(known: &mut HashSet<&'a str>, pairs: &'a [(Words, Expr)]) -> Result<(), Memory>
    ensures { OnOk result (AreSameNames (names_in known.new) (names_in known.old ++ pair_names pairs.now)) }
{
    'pairs: for pair in pairs {
        add_name(known, pair.0.as_str())?;
    }
    Ok(())
}

/// Adds the variables that a statement sets.
fn add_sets<'a>(known: &mut HashSet<&'a str>, stmt: &'a Stmt) -> Result<(), Memory>
    ensures { OnOk result (AreSameNames (names_in known.new) (names_in known.old ++ variables_set stmt.now)) }
{
    match stmt {
        Stmt::Let(name, _) => add_name(known, name.as_str()),
        Stmt::Read(name, _) => add_name(known, name.as_str()),
        Stmt::Spawn(name, _, _) => add_name(known, name.as_str()),
        Stmt::Join(name, _) => add_name(known, name.as_str()),
        Stmt::Pop(name, _) => add_name(known, name.as_str()),
        Stmt::Commit(name, _) => add_name(known, name.as_str()),
        Stmt::Begin(pairs) => add_firsts(known, pairs.as_slice()),
        Stmt::ReadAll(pairs) => add_firsts(known, pairs.as_slice()),
        _ => Ok(()),
    }
}

/// The number at a place, or 0 where there is none.
fn line_number_at(line_numbers: &[u64], at: usize) -> u64
    ensures { result ≡ get_or line_numbers.now at 0 }
{
    match line_numbers.get(at) {
        Some(number) => *number,
        None => 0,
    }
}

/// The first fault among the lines of a function, with the line's number.
fn first_line_fault(
    alloc: Global,
    functions: &[Function],
    function: &Function,
    line_numbers: &[u64],
) -> Result<Option<(u64, Kind)>, Memory>
    ensures { IfOk result (λ fault. fault ≡ lines_fault functions.now function.now.params function.now.lines line_numbers.now 1) }
{
    let mut known = HashSet::new(alloc);
    add_params(&mut known, function.params.as_slice())?;
    let lines = function.lines.as_slice();
    'lines: for i in 0..lines.len() {
        let line = &lines[i];
        if let Some(kind) = stmt_fault(functions, &known, line) {
            return Ok(Some((line_number_at(line_numbers, i + 1), kind)));
        }
        add_sets(&mut known, line)?;
    }
    Ok(None)
}

/// Whether a name is among these.
fn is_name_among(names: &[Words], name: &str) -> bool
    ensures { result ≡ is_among names.now name.now }
{
    names.iter().any(|other| name == other.as_str())
}

/// Whether names differ from each other. It looks through all behind each: they are the few parameters of a function.
fn are_distinct(names: &[Words]) -> bool
    ensures { result ≡ distinct names.now }
{
    'names: for i in 0..names.len() {
        let (_, rest) = names.split_at(i + 1);
        if is_name_among(rest, names[i].as_str()) {
            return false;
        }
    }
    true
}

fn line_numbers_at(line_numbers: &[List<u64>], at: usize) -> &[u64]
    ensures { result.now ≡ get_or line_numbers.now at [] }
{
    match line_numbers.get(at) {
        Some(numbers) => numbers.as_slice(),
        None => &[],
    }
}

/// Whether a function among these has the name.
fn is_function_among(functions: &[Function], name: &str) -> bool
    ensures { result ≡ list_any (λ g. bytes_eq name.now g.name) functions.now }
{
    functions
        .iter()
        .any(|function| name == function.name.as_str())
}

/// What is wrong with the head of a function, behind other functions.
fn head_fault_of(before: &[Function], function: &Function) -> Option<Kind>
    ensures { result ≡ function_head_fault before.now function.now }
{
    if is_function_among(before, function.name.as_str()) {
        return Some(Kind::Name);
    }
    if are_distinct(function.params.as_slice()) {
        None
    } else {
        Some(Kind::Name)
    }
}

/// The first fault in a function, behind other functions, with the line's number.
fn first_function_fault(
    alloc: Global,
    functions: &[Function],
    before: &[Function],
    function: &Function,
    line_numbers: &[u64],
) -> Result<Option<(u64, Kind)>, Memory>
    ensures { IfOk result (λ fault. fault ≡ function_fault functions.now before.now function.now line_numbers.now) }
{
    if let Some(kind) = head_fault_of(before, function) {
        return Ok(Some((line_number_at(line_numbers, 0), kind)));
    }
    first_line_fault(alloc, functions, function, line_numbers)
}

/// The first line in functions that uses a name or a number of arguments that is wrong, and which of the two it is.
///
/// `line_numbers` has, for each function, the number of its head and then those of its lines. `Name` comes where a function has the
/// name of one before it, where a parameter stands twice, where a variable is neither a parameter nor set by a line above, and
/// where no function has the name that a line calls. `Arity` comes where the first function of that name takes another number of
/// arguments. Within a line a name comes first.
pub fn first_name_fault(
    alloc: Global,
    functions: &[Function],
    line_numbers: &[List<u64>],
) -> Result<Option<(u64, Kind)>, Memory>
    ensures { IfOk result (λ fault. fault ≡ fault_of functions.now line_numbers.now) }
{
    'functions: for i in 0..functions.len() {
        let (before, _) = functions.split_at(i);
        let fault = first_function_fault(
            alloc,
            functions,
            before,
            &functions[i],
            line_numbers_at(line_numbers, i),
        )?;
        if fault.is_some() {
            return Ok(fault);
        }
    }
    Ok(None)
}
