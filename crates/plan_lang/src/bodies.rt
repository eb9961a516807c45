//! The events of a plan, line by line.

ghost use Rattle.std.specs.Prelude.{◌≡◌, ◌+◌, ◌*◌, ◌^◌, ◌<◌, ◌++◌, [], ◌∷◌, length, IfOk};
ghost use Rattle.line_text.specs.Faults.{LineGives};
ghost use Rattle.plan_lang.specs.EventLines.{body_outside_repeat, times_of, body_with_open_repeat, body_with_repeat, within_event_limit, body_with_counted, body_with_closed, body_with_end, repeat_with_event, body_with_entry, body_with_found, word_line, body_line, empty_body};

use crate::entries::read_entry_of_word;
use crate::events::Entry;
use boki_model::limits::MAX_EVENTS;
use boki_types::{Event, Function, Item, Kind, Setup};
use lb_base::{List, Memory};
use line_text::{
    Checked, Keyword, LineFault, Token, Tokens, checked_at_end, earlier_fault, read_u32_in,
};
use std::alloc::Global;

/// A repeat that is open, with its events so far.
#[derive(Drop)]
pub struct RepeatBlock {
    pub times: u32,
    pub events: List<Event>,
}

/// What was read of a plan's events: the items, how many events they stand for, the repeat that is open, and the first call of a
/// function that isn't there or takes another number of arguments, by its line.
#[derive(Drop)]
pub struct PlanBody {
    pub items: List<Item>,
    pub count: u64,
    pub block: Option<RepeatBlock>,
    pub fault: Option<(u64, Kind)>,
}

/// `N`, behind `repeat`.
fn read_times(tokens: &mut Tokens) -> Option<Checked<u32>>
    ensures { result ≡ times_of tokens.old }
{
    match read_u32_in(tokens, 1, 200000) {
        Some(times) => checked_at_end(tokens, times),
        None => None,
    }
}

/// The body with a repeat that opens.
fn open_repeat(
    alloc: Global,
    body: PlanBody,
    times: Option<Checked<u32>>,
) -> Result<PlanBody, LineFault>
    ensures { LineGives result (body_with_repeat body times) }
{
    let Some(times) = times else {
        drop(body);
        return Err(LineFault::Refused(Kind::Syntax));
    };
    let PlanBody {
        items,
        count,
        block,
        fault,
    } = body;
    match block {
        Some(block) => {
            drop((items, block));
            Err(LineFault::Refused(Kind::Syntax))
        }
        None => match times {
            Checked::OutOfRange => {
                drop(items);
                Err(LineFault::Refused(Kind::Range))
            }
            Checked::TooDeep => {
                drop(items);
                Err(LineFault::Refused(Kind::Deep))
            }
            Checked::Valid(times) => Ok(PlanBody {
                items,
                count,
                block: Some(RepeatBlock {
                    times,
                    events: List::new(alloc),
                }),
                fault,
            }),
        },
    }
}

/// How many events there are with those of a repeat; None where they are too many.
fn count_within(count: u64, times: u64, len: u64) -> Option<u64>
    ensures { result ≡ within_event_limit (count + times * len) }
{
    let sum = times.saturating_mul(len).saturating_add(count);
    if sum <= MAX_EVENTS { Some(sum) } else { None }
}

/// How many events there are with one more; None where they are too many.
fn count_one(count: u64) -> Option<u64>
    ensures { result ≡ within_event_limit (count + 1) }
{
    if count < MAX_EVENTS {
        Some(count + 1)
    } else {
        None
    }
}

/// The items with a repeat that closes.
fn push_repeat(items: List<Item>, block: RepeatBlock) -> Result<List<Item>, Memory>
    ensures { IfOk result (λ more. more ≡ items ++ Item.Repeat block.times block.events ∷ []) }
{
    let RepeatBlock { times, events } = block;
    let mut items = items;
    items.push(Item::Repeat(times, events))?;
    Ok(items)
}

/// The items with an event.
fn push_event(items: List<Item>, event: Event) -> Result<List<Item>, Memory>
    ensures { IfOk result (λ more. more ≡ items ++ Item.One event ∷ []) }
{
    let mut items = items;
    items.push(Item::One(event))?;
    Ok(items)
}

/// The body with the end of the repeat that is open.
fn close_repeat(
    items: List<Item>,
    count: u64,
    fault: Option<(u64, Kind)>,
    block: RepeatBlock,
) -> Result<PlanBody, LineFault>
    ensures { LineGives result (body_with_closed (body_outside_repeat items count fault) block block.events) }
{
    if block.events.is_empty() {
        return Err(LineFault::Refused(Kind::Syntax));
    }
    let len = block.events.len() as u64;
    match count_within(count, u64::from(block.times), len) {
        Some(count) => Ok(PlanBody {
            items: push_repeat(items, block)?,
            count,
            block: None,
            fault,
        }),
        None => Err(LineFault::Refused(Kind::Events)),
    }
}

/// The body with a line that begins with `end`, behind that word.
fn end_block(tokens: &Tokens, body: PlanBody) -> Result<PlanBody, LineFault>
    ensures { LineGives result (body_with_end body body.block tokens.now) }
{
    let PlanBody {
        items,
        count,
        block,
        fault,
    } = body;
    match block {
        Some(block) => {
            if tokens.is_empty() {
                close_repeat(items, count, fault, block)
            } else {
                drop((items, block));
                Err(LineFault::Refused(Kind::Syntax))
            }
        }
        None => {
            drop(items);
            Err(LineFault::Refused(Kind::Syntax))
        }
    }
}

/// The repeat with one more event.
fn add_to_repeat(block: RepeatBlock, event: Event) -> Result<RepeatBlock, Memory>
    ensures { IfOk result (λ more. more ≡ repeat_with_event block event) }
{
    let RepeatBlock { times, mut events } = block;
    events.push(event)?;
    Ok(RepeatBlock { times, events })
}

/// The body with an event.
fn add_entry(number: u64, body: PlanBody, entry: Entry) -> Result<PlanBody, LineFault>
    ensures { LineGives result (body_with_entry number body body.block entry) }
{
    let PlanBody {
        items,
        count,
        block,
        fault,
    } = body;
    let Entry {
        event,
        fault: found,
    } = entry;
    let fault = earlier_fault(fault, number, found);
    match block {
        Some(block) => Ok(PlanBody {
            items,
            count,
            block: Some(add_to_repeat(block, event)?),
            fault,
        }),
        None => match count_one(count) {
            Some(count) => Ok(PlanBody {
                items: push_event(items, event)?,
                count,
                block: None,
                fault,
            }),
            None => {
                drop((items, event));
                Err(LineFault::Refused(Kind::Events))
            }
        },
    }
}

/// The body with the event of a line, where it is one.
fn add_checked_entry(
    number: u64,
    body: PlanBody,
    found: Option<Checked<Entry>>,
) -> Result<PlanBody, LineFault>
    ensures { LineGives result (body_with_found number body found) }
{
    match found {
        None => {
            drop(body);
            Err(LineFault::Refused(Kind::Syntax))
        }
        Some(Checked::OutOfRange) => {
            drop(body);
            Err(LineFault::Refused(Kind::Range))
        }
        Some(Checked::TooDeep) => {
            drop(body);
            Err(LineFault::Refused(Kind::Deep))
        }
        Some(Checked::Valid(entry)) => add_entry(number, body, entry),
    }
}

impl PlanBody {
    /// No event yet.
    pub(crate) fn new(alloc: Global) -> PlanBody
        ensures { result ≡ empty_body }
    {
        PlanBody {
            items: List::new(alloc),
            count: 0,
            block: None,
            fault: None,
        }
    }

    /// The body with a line behind a word.
    fn add_word_line(
        self,
        alloc: Global,
        setup: &Setup,
        functions: &[Function],
        number: u64,
        tokens: &mut Tokens,
        word: &str,
    ) -> Result<PlanBody, LineFault>
        requires { length functions.now < 2 ^ 32 }
        ensures { LineGives result (word_line setup.now functions.now number word.now tokens.old self) }
    {
        if word == "repeat" {
            open_repeat(alloc, self, read_times(tokens))
        } else {
            match read_entry_of_word(alloc, tokens, setup, functions, word) {
                Ok(found) => add_checked_entry(number, self, found),
                Err(_) => {
                    drop(self);
                    Err(LineFault::Memory)
                }
            }
        }
    }

    /// The body with one more line, of these tokens and with this number, below a setup and functions.
    ///
    /// The line is refused as `parse_plan` says of one line.
    pub(crate) fn add_line(
        self,
        alloc: Global,
        setup: &Setup,
        functions: &[Function],
        number: u64,
        mut tokens: Tokens,
    ) -> Result<PlanBody, LineFault>
        requires { length functions.now < 2 ^ 32 }
        ensures { LineGives result (body_line setup.now functions.now number tokens self) }
    {
        match tokens.take() {
            Some(Token::Name(word)) => {
                self.add_word_line(alloc, setup, functions, number, &mut tokens, word.as_str())
            }
            Some(Token::Keyword(Keyword::End)) => end_block(&tokens, self),
            _ => {
                drop(self);
                Err(LineFault::Refused(Kind::Syntax))
            }
        }
    }
}
