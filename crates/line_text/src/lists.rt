//! Lists with commas between their elements.

ghost use Rattle.std.specs.Prelude.{◌≡◌, IfOk};
ghost use Rattle.line_text.specs.Stream.{found_before};
ghost use Rattle.line_text.specs.Lists.{comma_list, up_to_eight, paren_list, snoc};

use crate::checked::Checked;
use crate::elements::Element;
use crate::token::Punctuation;
use crate::tokens::Tokens;
use lb_base::{List, Memory};
use std::alloc::Global;

/// Several elements, and how many they are, also where they are out of range or past the limits.
#[derive(Drop)]
pub struct CommaList<T> {
    pub count: usize,
    pub items: Checked<List<T>>,
}

/// Adds an element at the end.
fn add<T: Drop>(items: Checked<List<T>>, item: Checked<T>) -> Result<Checked<List<T>>, Memory>
    ensures { IfOk result (λ more. more ≡ snoc items item) }
{
    match items {
        Checked::Valid(mut list) => match item {
            Checked::Valid(x) => {
                list.push(x)?;
                Ok(Checked::Valid(list))
            }
            Checked::OutOfRange => Ok(Checked::OutOfRange),
            Checked::TooDeep => Ok(Checked::TooDeep),
        },
        Checked::OutOfRange => Ok(Checked::OutOfRange),
        Checked::TooDeep => match item {
            Checked::Valid(_) => Ok(Checked::TooDeep),
            Checked::OutOfRange => Ok(Checked::OutOfRange),
            Checked::TooDeep => Ok(Checked::TooDeep),
        },
    }
}

/// One or more elements, with commas between them, that begin the tokens; None where a token doesn't fit.
///
/// After an answer the tokens behind them are left.
pub fn read_comma_list<T: Element<G>, G>(
    alloc: Global,
    tokens: &mut Tokens,
) -> Result<Option<CommaList<T>>, Memory>
    ensures { IfOk result (λ found. found_before tokens.new found ≡ comma_list T.Element.reads tokens.old) }
{
    let mut count = 0usize;
    let mut items = Checked::Valid(List::new(alloc));
    'elements: for _ in 0..tokens.len() {
        match T::read(alloc, tokens)? {
            None => return Ok(None),
            Some(item) => {
                items = add(items, item)?;
                count += 1;
                if !tokens.takes(Punctuation::Comma) {
                    return Ok(Some(CommaList { count, items }));
                }
            }
        }
    }
    Ok(None)
}

/// Elements behind an opening parenthesis, none or more, with the closing one behind them; None where a token doesn't fit.
///
/// After an answer the tokens behind the closing parenthesis are left.
pub fn read_paren_list<T: Element<G>, G>(
    alloc: Global,
    tokens: &mut Tokens,
) -> Result<Option<CommaList<T>>, Memory>
    ensures { IfOk result (λ found. found_before tokens.new found ≡ paren_list T.Element.reads tokens.old) }
{
    if tokens.takes(Punctuation::Close) {
        return Ok(Some(CommaList {
            count: 0,
            items: Checked::Valid(List::new(alloc)),
        }));
    }
    let Some(comma_list) = read_comma_list(alloc, tokens)? else {
        return Ok(None);
    };
    if tokens.takes(Punctuation::Close) {
        Ok(Some(comma_list))
    } else {
        Ok(None)
    }
}

/// The elements, where they are at most eight; else they are out of range.
pub fn at_most_eight_items<T: Drop>(comma_list: CommaList<T>) -> Checked<List<T>>
    ensures { result ≡ up_to_eight comma_list }
{
    if comma_list.count <= 8 {
        comma_list.items
    } else {
        Checked::OutOfRange
    }
}
