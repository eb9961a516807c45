//! Books and stores of one engine.
ghost use Rattle.std.specs.Prelude.{◌≡◌, ◌∷◌, [], IfOk, IsTrue};
ghost use Rattle.std.specs.Option.{option_copied};
ghost use Rattle.boki_model.specs.Bodies.{in_range};
ghost use Rattle.book_api.specs.Books.{HasEngine};
ghost use Rattle.hm_write.specs.Sends.{write_body};

use book_api::Book;
use hm_read::{read_group_r, read_r};
use hm_write::send_write;
use lb_base::{List, Memory, Path, Seqnum, Value, Words};
use obj_store::{Answered, GroupAnswer, Name, ObjStore, Put};
use std::alloc::Global;

/// The path of the first request.
pub fn path() -> Path
    ensures { result ≡ 1 ∷ [] }
{
    Path::request(1).unwrap()
}

/// The name of its first step record.
pub fn name() -> Name
    ensures { result ≡ record { path = 1 ∷ []; place = 0 } }
{
    Name {
        path: path(),
        place: 0,
    }
}

/// A book of one engine.
pub fn new_book(alloc: Global) -> Result<Book, Memory>
    ensures { IfOk result (HasEngine 1) }
{
    Book::new(alloc, 1, 1, 1)
}

/// A book whose engine sees a logged write of "x" at seqnum 1.
pub fn book_with_write(alloc: Global, value: Option<&Value>) -> Result<Book, Memory>
    requires { IsTrue (in_range (write_body (record { path = 1 ∷ []; place = 0 }) 1 (120 ∷ []) (option_copied value))) }
    ensures { IfOk result (HasEngine 1) }
{
    let mut book = new_book(alloc)?;
    send_write(alloc, &mut book, 1, name(), 1, "x", value)?;
    order(&mut book)?;
    Ok(book)
}

// Orders what was sent, and shows it to the engine.
fn order(book: &mut Book) -> Result<(), Memory>
    requires { HasEngine 1 book.old }
    ensures { HasEngine 1 book.new }
{
    book.cut()?;
    book.catch_up(1)?;
    Ok(())
}

/// What a free read answers: an integer, 0 for `none`, or None where the cursor is below the floor.
pub fn read(
    alloc: Global,
    book: &Book,
    store: &ObjStore,
    cursor: u64,
) -> Result<Option<i64>, Memory>
    requires { HasEngine 1 book.now }
{
    Ok(integer(read_r(alloc, book, store, 1, "x", Seqnum(cursor))?))
}

/// An answer's integer, with 0 for `none`, or None where it is gone.
pub fn integer(answer: Answered) -> Option<i64> {
    match answer {
        Answered::Value(value) => {
            let n = integer_of(Some(&value));
            drop(value);
            Some(n)
        }
        Answered::Gone => None,
    }
}

/// Puts the first free write of an object since a cursor in.
pub fn put(store: &mut ObjStore, key: &str, cursor: u64) -> Result<Put, Memory> {
    hm_write::put_w(store, key, Seqnum(cursor), 1, &Value::Int(9))
}

/// The names "y" and "x".
pub fn two_names(alloc: Global) -> Result<List<Words>, Memory>
    ensures { IfOk result (λ keys. keys ≡ (121 ∷ []) ∷ (120 ∷ []) ∷ []) }
{
    let mut keys = List::new(alloc);
    keys.push(Words::from_text(alloc, "y")?)?;
    keys.push(Words::from_text(alloc, "x")?)?;
    Ok(keys)
}

// A value's integer, with 0 for `none` and -1 for all else.
fn integer_of(value: Option<&Value>) -> i64 {
    match value {
        Some(Value::Int(n)) => *n,
        Some(Value::Nothing) => 0,
        _ => -1,
    }
}

/// A group answer's first two integers, with 0 for `none`, or None where it is gone.
pub fn two_integers(answer: GroupAnswer) -> Option<(i64, i64)> {
    match answer {
        GroupAnswer::Values(values) => {
            let both = (integer_of(values.get(0)), integer_of(values.get(1)));
            drop(values);
            Some(both)
        }
        GroupAnswer::Gone => None,
    }
}

/// What a free read of "y" and "x" answers.
pub fn read_group(
    alloc: Global,
    book: &Book,
    store: &ObjStore,
    cursor: u64,
) -> Result<Option<(i64, i64)>, Memory>
    requires { HasEngine 1 book.now }
{
    let keys = two_names(alloc)?;
    let answer = read_group_r(alloc, book, store, 1, keys.as_slice(), Seqnum(cursor));
    drop(keys);
    Ok(two_integers(answer?))
}
