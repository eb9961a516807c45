//! What the elements of a body are spelled as.

ghost use Rattle.std.specs.Prelude.{◌≡◌, ◌&&◌, ◌^◌, ◌<◌, ◌≤◌, [], ◌∷◌, ◌++◌, length, true, IsTrue, IfOk, OnOk};
ghost use Rattle.std.specs.List.{list_all};
ghost use Rattle.std.specs.Str.{is_utf8};
ghost use Rattle.boki_model.specs.Bodies.{is_name, is_identifier, is_value, is_outcome};
ghost use Rattle.rec_codec.specs.Spelling as spelling;
ghost use Rattle.rec_codec.specs.Spelling.{is_text_value, is_text_outcome, is_text_write, trap_number, mode_number};

use lb_base::{List, Memory, Mode, Outcome, Path, TrapKind, Value, Words};

/// Adds a number of eight bytes.
pub(crate) fn put_word(out: &mut List<u8>, number: u64) -> Result<(), Memory>
    ensures { OnOk result (out.new ≡ out.old ++ spelling.word number) }
{
    out.extend(&number.to_be_bytes())
}

/// Adds bytes behind their number.
pub(crate) fn put_piece(out: &mut List<u8>, bytes: &[u8]) -> Result<(), Memory>
    requires { length bytes.now < 2 ^ 16 }
    ensures { OnOk result (out.new ≡ out.old ++ spelling.text bytes.now) }
{
    out.extend(&(bytes.len() as u16).to_be_bytes())?;
    out.extend(bytes)
}

/// Adds a text.
fn put_text(out: &mut List<u8>, text: &Words) -> Result<(), Memory>
    requires { length text.now ≤ 256 }
    ensures ok { OnOk result (out.new ≡ out.old ++ spelling.text text.now) }
    ensures utf8 { IsTrue (is_utf8 text.now) }
{
    put_piece(out, text.as_str().as_bytes())
}

/// Adds a name, of 1 to 64 bytes.
pub(crate) fn put_key(out: &mut List<u8>, key: &Words) -> Result<(), Memory>
    requires { IsTrue (is_name key.now) }
    ensures ok { OnOk result (out.new ≡ out.old ++ spelling.text key.now) }
    ensures utf8 { IsTrue (is_utf8 key.now) }
{
    put_text(out, key)
}

/// Adds the name of a function.
pub(crate) fn put_function(out: &mut List<u8>, name: &Words) -> Result<(), Memory>
    requires { IsTrue (is_identifier name.now) }
    ensures ok { OnOk result (out.new ≡ out.old ++ spelling.text name.now) }
    ensures utf8 { IsTrue (is_utf8 name.now) }
{
    put_text(out, name)
}

/// Adds a path.
pub(crate) fn put_path(out: &mut List<u8>, path: &Path) -> Result<(), Memory>
    ensures { OnOk result (out.new ≡ out.old ++ spelling.path path.now) }
{
    out.push(path.depth() as u8)?;
    for part in path.parts() {
        out.extend(&part.to_be_bytes())?;
    }
    Ok(())
}

/// Adds a value.
pub(crate) fn put_value(out: &mut List<u8>, value: &Value) -> Result<(), Memory>
    requires { IsTrue (is_value value.now) }
    ensures ok { OnOk result (out.new ≡ out.old ++ spelling.value value.now) }
    ensures utf8 { OnOk result (IsTrue (is_text_value value.now)) }
{
    match value {
        Value::Nothing => out.push(0),
        Value::Int(n) => {
            out.push(1)?;
            put_word(out, n.cast_unsigned())
        }
        Value::Text(text) => {
            out.push(2)?;
            put_text(out, text)
        }
    }
}

/// The number of a trap.
fn number_of(kind: TrapKind) -> u8
    ensures { result ≡ trap_number kind }
{
    match kind {
        TrapKind::Overflow => 1,
        TrapKind::Divide => 2,
        TrapKind::Loop => 3,
        TrapKind::Key => 4,
        TrapKind::Join => 5,
        TrapKind::Txn => 6,
        TrapKind::Text => 7,
        TrapKind::Kind => 8,
        TrapKind::Spawn => 9,
    }
}

/// The number of a mode.
pub(crate) fn number_of_mode(mode: Mode) -> u8
    ensures { result ≡ mode_number mode }
{
    match mode {
        Mode::R => 1,
        Mode::W => 2,
        Mode::T => 0,
    }
}

/// Adds an outcome.
pub(crate) fn put_outcome(out: &mut List<u8>, outcome: &Outcome) -> Result<(), Memory>
    requires { IsTrue (is_outcome outcome.now) }
    ensures ok { OnOk result (out.new ≡ out.old ++ spelling.outcome outcome.now) }
    ensures utf8 { OnOk result (IsTrue (is_text_outcome outcome.now)) }
{
    match outcome {
        Outcome::Good(value) => {
            out.push(0)?;
            put_value(out, value)
        }
        Outcome::Trap(kind) => {
            out.push(1)?;
            out.push(number_of(*kind))
        }
    }
}

/// Adds values.
pub(crate) fn put_values(out: &mut List<u8>, values: &[Value]) -> Result<(), Memory>
    requires count { length values.now ≤ 8 }
    requires each { IsTrue (list_all is_value values.now) }
    ensures ok { OnOk result (out.new ≡ out.old ++ spelling.values values.now) }
    ensures utf8 { OnOk result (IsTrue (list_all is_text_value values.now)) }
{
    out.push(values.len() as u8)?;
    for value in values {
        put_value(out, value)?;
    }
    Ok(())
}

/// Adds names.
pub(crate) fn put_names(out: &mut List<u8>, names: &[Words]) -> Result<(), Memory>
    requires count { length names.now ≤ 8 }
    requires each { IsTrue (list_all is_name names.now) }
    ensures ok { OnOk result (out.new ≡ out.old ++ spelling.names names.now) }
    ensures utf8 { OnOk result (IsTrue (list_all is_utf8 names.now)) }
{
    out.push(names.len() as u8)?;
    for name in names {
        put_key(out, name)?;
    }
    Ok(())
}

/// Adds a name and what is written under it.
fn put_write(out: &mut List<u8>, write: &(Words, Value)) -> Result<(), Memory>
    requires { IsTrue (is_name write.now.0 && is_value write.now.1) }
    ensures ok { OnOk result (out.new ≡ out.old ++ spelling.write write.now) }
    ensures utf8 { OnOk result (IsTrue (is_text_write write.now)) }
{
    put_key(out, &write.0)?;
    put_value(out, &write.1)
}

/// Adds writes.
pub(crate) fn put_writes(out: &mut List<u8>, writes: &[(Words, Value)]) -> Result<(), Memory>
    requires count { length writes.now ≤ 8 }
    requires each { IsTrue (list_all (λ w. is_name w.0 && is_value w.1) writes.now) }
    ensures ok { OnOk result (out.new ≡ out.old ++ spelling.writes writes.now) }
    ensures utf8 { OnOk result (IsTrue (list_all is_text_write writes.now)) }
{
    out.push(writes.len() as u8)?;
    for write in writes {
        put_write(out, write)?;
    }
    Ok(())
}
