//! The spelling of each kind of body.

ghost use Rattle.std.specs.Prelude.{◌≡◌, ◌&&◌, ◌<◌, ◌≤◌, ◌∷◌, ◌++◌, Some, None, length, IsTrue, IfOk, OnOk};
ghost use Rattle.std.specs.List.{list_all};
ghost use Rattle.boki_model.specs.Bodies.{is_name, is_identifier, is_value, is_outcome};
ghost use Rattle.rec_codec.specs.Spelling as spelling;
ghost use Rattle.rec_codec.specs.Spelling.{spelled, has_texts};

use crate::Body;
use crate::pieces::{
    number_of_mode, put_function, put_key, put_names, put_outcome, put_path, put_piece, put_value,
    put_values, put_word, put_writes,
};
use lb_base::{List, Memory, Mode, Outcome, Path, Value, Words};
use std::alloc::Global;

/// Format, kind and path.
fn begun(alloc: Global, format: u8, kind: u8, path: &Path) -> Result<List<u8>, Memory>
    ensures { IfOk result (λ out. out ≡ format ∷ kind ∷ spelling.path path.now) }
{
    let mut out = List::from_slice(alloc, &[format, kind])?;
    put_path(&mut out, path)?;
    Ok(out)
}

/// Format, kind, path and index.
fn step(alloc: Global, format: u8, kind: u8, path: &Path, index: u64) -> Result<List<u8>, Memory>
    ensures { IfOk result (λ out. out ≡ format ∷ kind ∷ (spelling.path path.now ++ spelling.word index)) }
{
    let mut out = begun(alloc, format, kind, path)?;
    put_word(&mut out, index)?;
    Ok(out)
}

/// The spelling of a call.
pub(crate) fn submit(
    alloc: Global,
    path: &Path,
    function: &Words,
    args: &[Value],
) -> Result<List<u8>, Memory>
    requires function { IsTrue (is_identifier function.now) }
    requires args_count { length args.now ≤ 8 }
    requires args_each { IsTrue (list_all is_value args.now) }
    ensures ok { IfOk result (λ out. out ≡ spelled (Body.Submit path.now function.now args.now)) }
    ensures utf8 { OnOk result (IsTrue (has_texts (Body.Submit path.now function.now args.now))) }
{
    let mut out = begun(alloc, 1, 1, path)?;
    put_function(&mut out, function)?;
    put_values(&mut out, args)?;
    Ok(out)
}

/// The spelling of a begin.
pub(crate) fn init(alloc: Global, path: &Path) -> Result<List<u8>, Memory>
    ensures ok { IfOk result (λ out. out ≡ spelled (Body.Init path.now)) }
    ensures utf8 { OnOk result (IsTrue (has_texts (Body.Init path.now))) }
{
    let out = begun(alloc, 1, 2, path)?;
    Ok(out)
}

/// The spelling of a marker.
pub(crate) fn read(alloc: Global, path: &Path, index: u64, key: &Words) -> Result<List<u8>, Memory>
    requires { IsTrue (is_name key.now) }
    ensures ok { IfOk result (λ out. out ≡ spelled (Body.Read path.now index key.now)) }
    ensures utf8 { OnOk result (IsTrue (has_texts (Body.Read path.now index key.now))) }
{
    let mut out = step(alloc, 1, 3, path, index)?;
    put_key(&mut out, key)?;
    Ok(out)
}

/// The spelling of a write whose value stands under its name.
pub(crate) fn named_write(
    alloc: Global,
    path: &Path,
    index: u64,
    place: u64,
    key: &Words,
) -> Result<List<u8>, Memory>
    requires { IsTrue (is_name key.now) }
    ensures ok { IfOk result (λ out. out ≡ spelled (Body.Write path.now index place key.now None)) }
    ensures utf8 { OnOk result (IsTrue (has_texts (Body.Write path.now index place key.now None))) }
{
    let mut out = step(alloc, 1, 4, path, index)?;
    put_word(&mut out, place)?;
    put_key(&mut out, key)?;
    Ok(out)
}

/// The spelling of a write with its value.
pub(crate) fn inline_write(
    alloc: Global,
    path: &Path,
    index: u64,
    place: u64,
    key: &Words,
    value: &Value,
) -> Result<List<u8>, Memory>
    requires key { IsTrue (is_name key.now) }
    requires value { IsTrue (is_value value.now) }
    ensures ok { IfOk result (λ out. out ≡ spelled (Body.Write path.now index place key.now (Some value.now))) }
    ensures utf8 { OnOk result (IsTrue (has_texts (Body.Write path.now index place key.now (Some value.now)))) }
{
    let mut out = step(alloc, 2, 4, path, index)?;
    put_word(&mut out, place)?;
    put_key(&mut out, key)?;
    put_value(&mut out, value)?;
    Ok(out)
}

/// The spelling of a spawn.
pub(crate) fn spawn(
    alloc: Global,
    path: &Path,
    index: u64,
    ordinal: u64,
    function: &Words,
    args: &[Value],
) -> Result<List<u8>, Memory>
    requires function { IsTrue (is_identifier function.now) }
    requires args_count { length args.now ≤ 8 }
    requires args_each { IsTrue (list_all is_value args.now) }
    ensures ok { IfOk result (λ out. out ≡ spelled (Body.Spawn path.now index ordinal function.now args.now)) }
    ensures utf8 { OnOk result (IsTrue (has_texts (Body.Spawn path.now index ordinal function.now args.now))) }
{
    let mut out = step(alloc, 1, 5, path, index)?;
    put_word(&mut out, ordinal)?;
    put_function(&mut out, function)?;
    put_values(&mut out, args)?;
    Ok(out)
}

/// The spelling of a join.
pub(crate) fn join(alloc: Global, path: &Path, index: u64, ordinal: u64) -> Result<List<u8>, Memory>
    ensures ok { IfOk result (λ out. out ≡ spelled (Body.Join path.now index ordinal)) }
    ensures utf8 { OnOk result (IsTrue (has_texts (Body.Join path.now index ordinal))) }
{
    let mut out = step(alloc, 1, 6, path, index)?;
    put_word(&mut out, ordinal)?;
    Ok(out)
}

/// The spelling of a push.
pub(crate) fn push(
    alloc: Global,
    path: &Path,
    index: u64,
    queue: &Words,
    value: &Value,
) -> Result<List<u8>, Memory>
    requires queue { IsTrue (is_name queue.now) }
    requires value { IsTrue (is_value value.now) }
    ensures ok { IfOk result (λ out. out ≡ spelled (Body.Push path.now index queue.now value.now)) }
    ensures utf8 { OnOk result (IsTrue (has_texts (Body.Push path.now index queue.now value.now))) }
{
    let mut out = step(alloc, 1, 7, path, index)?;
    put_key(&mut out, queue)?;
    put_value(&mut out, value)?;
    Ok(out)
}

/// The spelling of a pop.
pub(crate) fn pop(alloc: Global, path: &Path, index: u64, queue: &Words) -> Result<List<u8>, Memory>
    requires { IsTrue (is_name queue.now) }
    ensures ok { IfOk result (λ out. out ≡ spelled (Body.Pop path.now index queue.now)) }
    ensures utf8 { OnOk result (IsTrue (has_texts (Body.Pop path.now index queue.now))) }
{
    let mut out = step(alloc, 1, 8, path, index)?;
    put_key(&mut out, queue)?;
    Ok(out)
}

/// The spelling of the begin of a transaction.
pub(crate) fn begin(
    alloc: Global,
    path: &Path,
    index: u64,
    names: &[Words],
) -> Result<List<u8>, Memory>
    requires names_count { length names.now ≤ 8 }
    requires names_each { IsTrue (list_all is_name names.now) }
    ensures ok { IfOk result (λ out. out ≡ spelled (Body.TxnBegin path.now index names.now)) }
    ensures utf8 { OnOk result (IsTrue (has_texts (Body.TxnBegin path.now index names.now))) }
{
    let mut out = step(alloc, 1, 9, path, index)?;
    put_names(&mut out, names)?;
    Ok(out)
}

/// The spelling of the end of a transaction.
pub(crate) fn commit(
    alloc: Global,
    path: &Path,
    index: u64,
    began: u64,
    names: &[Words],
    writes: &[(Words, Value)],
) -> Result<List<u8>, Memory>
    requires names_count { length names.now ≤ 8 }
    requires names_each { IsTrue (list_all is_name names.now) }
    requires writes_count { length writes.now ≤ 8 }
    requires writes_each { IsTrue (list_all (λ w. is_name w.0 && is_value w.1) writes.now) }
    ensures ok { IfOk result (λ out. out ≡ spelled (Body.TxnCommit path.now index began names.now writes.now)) }
    ensures utf8 { OnOk result (IsTrue (has_texts (Body.TxnCommit path.now index began names.now writes.now))) }
{
    let mut out = step(alloc, 1, 10, path, index)?;
    put_word(&mut out, began)?;
    put_names(&mut out, names)?;
    put_writes(&mut out, writes)?;
    Ok(out)
}

/// The spelling of an end.
pub(crate) fn finish(
    alloc: Global,
    path: &Path,
    index: u64,
    outcome: &Outcome,
) -> Result<List<u8>, Memory>
    requires { IsTrue (is_outcome outcome.now) }
    ensures ok { IfOk result (λ out. out ≡ spelled (Body.Finish path.now index outcome.now)) }
    ensures utf8 { OnOk result (IsTrue (has_texts (Body.Finish path.now index outcome.now))) }
{
    let mut out = step(alloc, 1, 11, path, index)?;
    put_outcome(&mut out, outcome)?;
    Ok(out)
}

/// The spelling of the begin of a switch.
pub(crate) fn switch(alloc: Global, target: Mode) -> Result<List<u8>, Memory>
    ensures ok { IfOk result (λ out. out ≡ spelled (Body.SwitchBegin target)) }
    ensures utf8 { OnOk result (IsTrue (has_texts (Body.SwitchBegin target))) }
{
    let out = List::from_slice(alloc, &[1, 12, number_of_mode(target)])?;
    Ok(out)
}

/// The spelling of the end of a switch.
pub(crate) fn switch_end(alloc: Global) -> Result<List<u8>, Memory>
    ensures { IfOk result (λ out. out ≡ spelled Body.SwitchEnd) }
{
    List::from_slice(alloc, &[1, 13])
}

/// The spelling of a floor.
pub(crate) fn trim(alloc: Global, w: u64) -> Result<List<u8>, Memory>
    ensures ok { IfOk result (λ out. out ≡ spelled (Body.Trim w)) }
    ensures utf8 { OnOk result (IsTrue (has_texts (Body.Trim w))) }
{
    let mut out = List::from_slice(alloc, &[1, 14])?;
    put_word(&mut out, w)?;
    Ok(out)
}

/// The spelling of a trimmed tag.
pub(crate) fn trim_tag(alloc: Global, number: u64, upto: u64) -> Result<List<u8>, Memory>
    ensures ok { IfOk result (λ out. out ≡ spelled (Body.TrimTag number upto)) }
    ensures utf8 { OnOk result (IsTrue (has_texts (Body.TrimTag number upto))) }
{
    let mut out = List::from_slice(alloc, &[1, 15])?;
    put_word(&mut out, number)?;
    put_word(&mut out, upto)?;
    Ok(out)
}

/// The spelling of a user's bytes.
pub(crate) fn user(alloc: Global, bytes: &[u8]) -> Result<List<u8>, Memory>
    requires { length bytes.now ≤ 4092 }
    ensures ok { IfOk result (λ out. out ≡ spelled (Body.User bytes.now)) }
    ensures utf8 { OnOk result (IsTrue (has_texts (Body.User bytes.now))) }
{
    let mut out = List::from_slice(alloc, &[1, 16])?;
    put_piece(&mut out, bytes)?;
    Ok(out)
}

/// The spelling of a marker of several objects.
pub(crate) fn group(
    alloc: Global,
    path: &Path,
    index: u64,
    keys: &[Words],
) -> Result<List<u8>, Memory>
    requires keys_count { length keys.now ≤ 8 }
    requires keys_each { IsTrue (list_all is_name keys.now) }
    ensures ok { IfOk result (λ out. out ≡ spelled (Body.ReadGroup path.now index keys.now)) }
    ensures utf8 { OnOk result (IsTrue (has_texts (Body.ReadGroup path.now index keys.now))) }
{
    let mut out = step(alloc, 2, 17, path, index)?;
    put_names(&mut out, keys)?;
    Ok(out)
}
