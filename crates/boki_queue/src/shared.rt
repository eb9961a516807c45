//! Values that states of queues share. A row has values that were pushed to one queue, in order, and a state is a
//! window of it: a push that follows a state adds one value to the row, and a pop moves a number. A state that goes on
//! otherwise than its row gets a row of its own.
ghost use Rattle.std.specs.Prelude.{◌≡◌, ◌<◌, ◌∷◌, ◌++◌, [], length, drop, IfOk, IsTrue};
ghost use Rattle.boki_model.specs.Folds.{front_of};
ghost use Rattle.boki_queue.specs.Shared.{row_at, window_values, IsWithin, IsState, WindowsStay};

use lb_base::{List, Memory, Value, Words};
use std::alloc::Global;

/// Values of one queue, in the order in which they were pushed.
#[derive(Drop)]
pub(crate) struct Row {
    pub(crate) queue: Words,
    pub(crate) values: List<Value>,
}

/// The values of a row from one index up to another.
#[derive(Clone, Copy, Drop)]
pub(crate) struct Window {
    pub(crate) row: usize,
    pub(crate) from: usize,
    pub(crate) to: usize,
}

/// The empty state, in a new row.
pub(crate) fn opened(alloc: Global, rows: &mut Vec<Row>, queue: &str) -> Result<Window, Memory>
    ensures ok { IfOk result (IsState rows.new.items queue.now []) }
    ensures stay { WindowsStay rows.old.items rows.new.items }
{
    let queue = Words::from_text(alloc, queue)?;
    let values = List::new(alloc);
    let row = rows.len();
    rows.push(Row { queue, values })?;
    Ok(Window {
        row,
        from: 0,
        to: 0,
    })
}

/// The first value of a state, or none.
pub(crate) fn front(rows: &Vec<Row>, w: Window) -> Result<Value, Memory>
    requires { IsWithin rows.now.items w }
    ensures { IfOk result (λ value. value ≡ front_of (window_values rows.now.items w)) }
{
    if w.from == w.to {
        return Ok(Value::Nothing);
    }
    let value = rows[w.row].values.as_slice()[w.from].clone()?;
    Ok(value)
}

/// The state without its first value, in the same row.
pub(crate) fn popped(rows: &Vec<Row>, w: Window) -> Window
    requires { IsWithin rows.now.items w }
    ensures { IsState rows.now.items (row_at rows.now.items w.row).queue (drop 1 (window_values rows.now.items w)) result }
{
    if w.from == w.to {
        return w;
    }
    Window {
        from: w.from + 1,
        ..w
    }
}

/// The state with a value behind its last.
pub(crate) fn pushed(
    alloc: Global,
    rows: &mut Vec<Row>,
    w: Window,
    value: &Value,
) -> Result<Window, Memory>
    requires { IsWithin rows.old.items w }
    ensures ok { IfOk result (IsState rows.new.items (row_at rows.old.items w.row).queue (window_values rows.old.items w ++ value.now ∷ [])) }
    ensures stay { WindowsStay rows.old.items rows.new.items }
{
    if w.to == values_of(rows, w.row).len() {
        return appended(rows, w, value);
    }
    if equal(&values_of(rows, w.row)[w.to], value) {
        return Ok(Window { to: w.to + 1, ..w });
    }
    branched(alloc, rows, w, value)
}

// The same, where the state is the end of its row: the value is added to the row.
fn appended(rows: &mut Vec<Row>, w: Window, value: &Value) -> Result<Window, Memory>
    requires within { IsWithin rows.old.items w }
    requires end { w.to ≡ length (row_at rows.old.items w.row).values }
    ensures ok { IfOk result (IsState rows.new.items (row_at rows.old.items w.row).queue (window_values rows.old.items w ++ value.now ∷ [])) }
    ensures stay { WindowsStay rows.old.items rows.new.items }
{
    let value = value.clone()?;
    let row = &mut rows[w.row];
    row.values.push(value)?;
    Ok(Window {
        to: row.values.len(),
        ..w
    })
}

// The same in a row of its own, which begins with the state's values.
fn branched(alloc: Global, rows: &mut Vec<Row>, w: Window, value: &Value) -> Result<Window, Memory>
    requires { IsWithin rows.old.items w }
    ensures ok { IfOk result (IsState rows.new.items (row_at rows.old.items w.row).queue (window_values rows.old.items w ++ value.now ∷ [])) }
    ensures stay { WindowsStay rows.old.items rows.new.items }
{
    let mut values = copied(alloc, rows, w)?;
    values.push(value.clone()?)?;
    let queue = rows[w.row].queue.clone()?;
    let row = rows.len();
    let to = values.len();
    rows.push(Row { queue, values })?;
    Ok(Window { row, from: 0, to })
}

/// A copy of a state's values.
pub(crate) fn copied(alloc: Global, rows: &Vec<Row>, w: Window) -> Result<List<Value>, Memory>
    requires { IsWithin rows.now.items w }
    ensures { IfOk result (λ values. values ≡ window_values rows.now.items w) }
{
    copied_values(alloc, &values_of(rows, w.row)[w.from..w.to])
}

// The values of a row.
fn values_of(rows: &Vec<Row>, row: usize) -> &[Value]
    requires { row < length rows.now.items }
    ensures { result.now ≡ (row_at rows.now.items row).values }
{
    rows[row].values.as_slice()
}

// Whether two values are equal.
fn equal(left: &Value, right: &Value) -> bool
    ensures { IsTrue result → left.now ≡ right.now }
{
    left == right
}

fn copied_values(alloc: Global, values: &[Value]) -> Result<List<Value>, Memory>
    ensures { IfOk result (λ copy. copy ≡ values.now) }
{
    let mut copy = List::new(alloc);
    for value in values {
        copy.push(value.clone()?)?;
    }
    Ok(copy)
}
