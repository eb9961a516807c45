//! Numbers with dots between them: paths, and places in a shard.

ghost use Rattle.std.specs.Prelude.{◌≡◌, IfOk, option_map};
ghost use Rattle.line_text.specs.Fields.{numbers_in, path_number_of, path_numbers_of, path_in, path_at, sent_position_of, sent_position_at};
ghost use Rattle.line_text.specs.Stream.{found_before};

use crate::checked::{Checked, check_both};
use crate::fields::{u32_in_range, u64_in_range};
use crate::splits::split_text;
use crate::token::Token;
use crate::tokens::Tokens;
use lb_base::{List, Memory, Path, is_numeral, read_num};
use std::alloc::Global;

/// The numbers of a text, with dots between them, and nothing for one of 2^64 or more; None where a piece is no numeral.
fn read_numbers(alloc: Global, text: &str) -> Result<Option<List<Option<u64>>>, Memory>
    ensures { IfOk result (λ numbers. numbers ≡ numbers_in text.now) }
{
    let mut numbers = List::new(alloc);
    let mut rest = text;
    'pieces: while let Some((piece, after)) = split_text(rest, b'.') {
        if !is_numeral(piece) {
            return Ok(None);
        }
        numbers.push(read_num(piece))?;
        rest = after;
    }
    if !is_numeral(rest) {
        return Ok(None);
    }
    numbers.push(read_num(rest))?;
    Ok(Some(numbers))
}

/// A number that a path may have.
fn path_number(n: Option<u64>) -> Option<u32>
    ensures { result ≡ path_number_of n }
{
    match n {
        None => None,
        Some(n) => { if n < 1048576 { Some(n as u32) } else { None } }
    }
}

/// Numbers that a path may have; None where one isn't.
fn parts(alloc: Global, numbers: &[Option<u64>]) -> Result<Option<List<u32>>, Memory>
    ensures { IfOk result (λ found. found ≡ path_numbers_of numbers.now) }
{
    let mut found = List::new(alloc);
    'numbers: for n in numbers {
        match path_number(*n) {
            Some(n) => found.push(n)?,
            None => return Ok(None),
        }
    }
    Ok(Some(found))
}

/// The path of numbers; out of range where one is, or where they are more than four.
fn path_of_numbers(alloc: Global, numbers: &[Option<u64>]) -> Result<Checked<Path>, Memory>
    ensures { IfOk result (λ path. path ≡ path_in numbers.now) }
{
    match parts(alloc, numbers)? {
        Some(parts) => match Path::from_parts(parts.as_slice()) {
            Some(path) => Ok(Checked::Valid(path)),
            None => Ok(Checked::OutOfRange),
        },
        None => Ok(Checked::OutOfRange),
    }
}

fn read_dotted_path(alloc: Global, text: &str) -> Result<Option<Checked<Path>>, Memory>
    ensures { IfOk result (λ found. found ≡ option_map path_in (numbers_in text.now)) }
{
    match read_numbers(alloc, text)? {
        Some(numbers) => Ok(Some(path_of_numbers(alloc, numbers.as_slice())?)),
        None => Ok(None),
    }
}

/// The path that stands first; None where none does.
pub fn read_path(alloc: Global, tokens: &mut Tokens) -> Result<Option<Checked<Path>>, Memory>
    ensures { IfOk result (λ found. found_before tokens.new found ≡ path_at tokens.old) }
{
    match tokens.take() {
        Some(Token::Numeral(n)) => Ok(Some(path_of_numbers(alloc, &[n])?)),
        Some(Token::Dotted(text)) => read_dotted_path(alloc, text.as_str()),
        _ => Ok(None),
    }
}

/// A shard and a number, where there are two numbers.
fn sent_position_of_numbers(numbers: &[Option<u64>], shards: u32) -> Option<Checked<(u32, u64)>>
    ensures { result ≡ sent_position_of shards numbers.now }
{
    match numbers {
        [shard, local] => {
            let shard = u32_in_range(*shard, 1, shards);
            Some(check_both(shard, u64_in_range(*local, 1, u64::MAX)))
        }
        _ => None,
    }
}

/// The place `S.L` that stands first, of one of so many shards; None where none does.
pub fn read_sent(
    alloc: Global,
    tokens: &mut Tokens,
    shards: u32,
) -> Result<Option<Checked<(u32, u64)>>, Memory>
    ensures { IfOk result (λ found. found_before tokens.new found ≡ sent_position_at shards tokens.old) }
{
    match tokens.take() {
        Some(Token::Dotted(text)) => match read_numbers(alloc, text.as_str())? {
            Some(numbers) => Ok(sent_position_of_numbers(numbers.as_slice(), shards)),
            None => Ok(None),
        },
        _ => Ok(None),
    }
}
