//! The head of a text: the setup, the objects and the functions, line by line.

ghost use Rattle.std.specs.Prelude.{◌≡◌, ◌++◌, ◌∷◌, [], OnOk};
ghost use Rattle.boki_model.specs.Plans.{is_optional_engine};
ghost use Rattle.line_text.specs.Faults.{LineGives};
ghost use Rattle.script_lang.specs.Functions.{draft_line, is_in_function};
ghost use Rattle.plan_lang.specs.Heads.{newer_of, check_then, make_checked_setup, setup_behind, setup_of, object_of, head_word_by, head_word_at, with_setup, with_object, with_draft, head_with_end, object_line, head_word_line, between_line, expected_line, head_line, empty_head, has_ended};

use boki_types::{Kind, Setup};
use lb_base::{List, Memory, Mode, Value, Words};
use line_text::{
    Checked, Keyword, LineFault, Token, Tokens, check_both, checked_at_end, in_range, read_mode,
    read_text, read_u32_in, read_value,
};
use script_lang::text::Draft;
use std::alloc::Global;

/// What the next line may be: the setup, an object or what follows the objects, a function or what follows the functions, or
/// what follows the head.
#[derive(Clone, Copy, Debug, PartialEq, Eq)]
pub enum Expected {
    Setup,
    Objects,
    Functions,
    Rest,
}

/// What a line between functions begins with.
#[derive(Clone, Copy, Debug, PartialEq, Eq)]
pub enum HeadWord {
    Object,
    Function,
    Close,
    Other,
}

/// What was read of a head. Of each object the number of its line is kept. The setup is any until its line comes.
#[derive(Drop)]
pub struct Head {
    pub expected: Expected,
    pub setup: Setup,
    pub objects: List<(Words, Value)>,
    pub lines: List<u64>,
    pub draft: Draft,
}

/// The fifth number of a setup, where there is one.
fn read_newer(tokens: &mut Tokens) -> Option<Checked<Option<u32>>>
    ensures { result ≡ newer_of tokens.old }
{
    if tokens.is_empty() {
        return Some(Checked::Valid(None));
    }
    match read_u32_in(tokens, 1, 16) {
        Some(Checked::Valid(n)) => checked_at_end(tokens, Checked::Valid(Some(n))),
        Some(Checked::OutOfRange) => checked_at_end(tokens, Checked::OutOfRange),
        Some(Checked::TooDeep) => checked_at_end(tokens, Checked::TooDeep),
        None => None,
    }
}

/// Whether the fifth number is an engine.
fn is_engine(engines: u32, newer: Option<u32>) -> bool
    ensures { result ≡ is_optional_engine engines newer }
{
    match newer {
        None => true,
        Some(n) => 1 <= n && n <= engines,
    }
}

/// The setup of these numbers, where the fifth is an engine.
fn make_setup(mode: Mode, numbers: Checked<(((u32, u32), u32), Option<u32>)>) -> Checked<Setup>
    ensures { result ≡ check_then (make_checked_setup mode) numbers }
{
    match numbers {
        Checked::Valid((((shards, replicas), engines), newer)) => {
            let setup = Setup {
                shards,
                replicas,
                engines,
                mode,
                newer,
            };
            in_range(is_engine(engines, newer), setup)
        }
        Checked::OutOfRange => Checked::OutOfRange,
        Checked::TooDeep => Checked::TooDeep,
    }
}

/// `S R E M` or `S R E M F`, behind the word.
fn read_behind_setup(tokens: &mut Tokens) -> Option<Checked<Setup>>
    ensures { result ≡ setup_behind tokens.old }
{
    let Some(shards) = read_u32_in(tokens, 1, 16) else {
        return None;
    };
    let Some(replicas) = read_u32_in(tokens, 1, 5) else {
        return None;
    };
    let Some(engines) = read_u32_in(tokens, 1, 16) else {
        return None;
    };
    let Some(mode) = read_mode(tokens) else {
        return None;
    };
    match read_newer(tokens) {
        Some(newer) => {
            let sizes = check_both(check_both(shards, replicas), engines);
            Some(make_setup(mode, check_both(sizes, newer)))
        }
        None => None,
    }
}

/// The setup that the tokens of a line are; None where they are none.
fn read_setup(tokens: &mut Tokens) -> Option<Checked<Setup>>
    ensures { result ≡ setup_of tokens.old }
{
    match tokens.take() {
        Some(Token::Name(word)) => {
            if word.as_str() == "setup" {
                read_behind_setup(tokens)
            } else {
                None
            }
        }
        _ => None,
    }
}

/// `NAME VALUE`, behind the word.
fn read_object(tokens: &mut Tokens) -> Option<Checked<(Words, Value)>>
    ensures { result ≡ object_of tokens.old }
{
    let Some(name) = read_text(tokens) else {
        return None;
    };
    let Some(value) = read_value(tokens) else {
        return None;
    };
    let fits = 1 <= name.len() && name.len() <= 64;
    checked_at_end(tokens, check_both(in_range(fits, name), value))
}

fn head_word_of(close: &str, word: &str) -> HeadWord
    ensures { result ≡ head_word_by close.now word.now }
{
    if word == "object" {
        HeadWord::Object
    } else if word == close {
        HeadWord::Close
    } else {
        HeadWord::Other
    }
}

/// Takes what a line between functions begins with, unless it is the head of a function.
fn take_head_word(close: &str, tokens: &mut Tokens) -> HeadWord
    ensures { (result, tokens.new) ≡ head_word_at close.now tokens.old }
{
    if let Some(Keyword::Function) = tokens.key() {
        return HeadWord::Function;
    }
    match tokens.take() {
        Some(Token::Name(word)) => head_word_of(close, word.as_str()),
        _ => HeadWord::Other,
    }
}

/// The head with a setup.
fn add_setup(head: Head, found: Option<Checked<Setup>>) -> Result<Head, LineFault>
    ensures { LineGives result (with_setup head found) }
{
    match found {
        None => {
            drop(head);
            Err(LineFault::Refused(Kind::Syntax))
        }
        Some(Checked::OutOfRange) => {
            drop(head);
            Err(LineFault::Refused(Kind::Range))
        }
        Some(Checked::TooDeep) => {
            drop(head);
            Err(LineFault::Refused(Kind::Deep))
        }
        Some(Checked::Valid(setup)) => {
            let mut head = head;
            head.expected = Expected::Objects;
            head.setup = setup;
            Ok(head)
        }
    }
}

/// An object more, with the number of its line.
fn push_object(head: &mut Head, number: u64, object: (Words, Value)) -> Result<(), Memory>
    ensures { OnOk result (head.new ≡ record head.old { objects = head.old.objects ++ object ∷ []; lines = head.old.lines ++ number ∷ [] }) }
{
    head.objects.push(object)?;
    head.lines.push(number)?;
    Ok(())
}

/// The head with an object.
fn add_object(
    number: u64,
    head: Head,
    found: Option<Checked<(Words, Value)>>,
) -> Result<Head, LineFault>
    ensures { LineGives result (with_object number head found) }
{
    match found {
        None => {
            drop(head);
            Err(LineFault::Refused(Kind::Syntax))
        }
        Some(Checked::OutOfRange) => {
            drop(head);
            Err(LineFault::Refused(Kind::Range))
        }
        Some(Checked::TooDeep) => {
            drop(head);
            Err(LineFault::Refused(Kind::Deep))
        }
        Some(Checked::Valid(object)) => {
            let mut head = head;
            if push_object(&mut head, number, object).is_ok() {
                Ok(head)
            } else {
                drop(head);
                Err(LineFault::Memory)
            }
        }
    }
}

/// The head with a line of a function.
fn add_to_draft(alloc: Global, number: u64, tokens: Tokens, head: Head) -> Result<Head, LineFault>
    ensures { LineGives result (with_draft head (draft_line number tokens head.draft)) }
{
    let Head {
        expected: _,
        setup,
        objects,
        lines,
        draft,
    } = head;
    let draft = draft.add_line(alloc, number, tokens)?;
    Ok(Head {
        expected: Expected::Functions,
        setup,
        objects,
        lines,
        draft,
    })
}

/// The head with the line of an object, behind its word.
fn add_object_line(number: u64, mut tokens: Tokens, head: Head) -> Result<Head, LineFault>
    ensures { LineGives result (object_line number tokens head head.expected) }
{
    match head.expected {
        Expected::Objects => add_object(number, head, read_object(&mut tokens)),
        _ => {
            drop(head);
            Err(LineFault::Refused(Kind::Syntax))
        }
    }
}

/// The head with the line that ends it, behind its word.
fn close_head(tokens: &Tokens, head: Head) -> Result<Head, LineFault>
    ensures { LineGives result (head_with_end head tokens.now) }
{
    if tokens.is_empty() {
        let mut head = head;
        head.expected = Expected::Rest;
        Ok(head)
    } else {
        drop(head);
        Err(LineFault::Refused(Kind::Syntax))
    }
}

/// The head with a line that stands between functions.
fn add_between(
    alloc: Global,
    close: &str,
    number: u64,
    mut tokens: Tokens,
    head: Head,
) -> Result<Head, LineFault>
    ensures { LineGives result (head_word_line number head (head_word_at close.now tokens)) }
{
    match take_head_word(close, &mut tokens) {
        HeadWord::Function => add_to_draft(alloc, number, tokens, head),
        HeadWord::Object => add_object_line(number, tokens, head),
        HeadWord::Close => close_head(&tokens, head),
        HeadWord::Other => {
            drop(head);
            Err(LineFault::Refused(Kind::Syntax))
        }
    }
}

/// The head with a line behind the setup.
fn add_behind_setup(
    alloc: Global,
    close: &str,
    number: u64,
    tokens: Tokens,
    head: Head,
) -> Result<Head, LineFault>
    ensures { LineGives result (between_line close.now number tokens head (is_in_function head.draft.stage)) }
{
    if head.draft.is_in_function() {
        add_to_draft(alloc, number, tokens, head)
    } else {
        add_between(alloc, close, number, tokens, head)
    }
}

impl Head {
    /// Nothing read yet.
    pub fn new(alloc: Global) -> Head
        ensures { result ≡ empty_head }
    {
        Head {
            expected: Expected::Setup,
            setup: Setup {
                shards: 1,
                replicas: 1,
                engines: 1,
                mode: Mode::R,
                newer: None,
            },
            objects: List::new(alloc),
            lines: List::new(alloc),
            draft: Draft::new(alloc),
        }
    }

    /// Whether the line that ends it was read.
    pub fn has_ended(&self) -> bool
        ensures { result ≡ has_ended self.now.expected }
    {
        match self.expected {
            Expected::Rest => true,
            _ => false,
        }
    }

    /// The head with one more line, of these tokens and with this number; `close` is the word that ends the head.
    ///
    /// The line is refused with `Syntax`, `Range` or `Deep`, as [`parse_plan`](crate::parse_plan) says of one line.
    pub fn add_line(
        self,
        alloc: Global,
        close: &str,
        number: u64,
        tokens: Tokens,
    ) -> Result<Head, LineFault>
        ensures { LineGives result (head_line close.now number tokens self) }
    {
        let mut tokens = tokens;
        match self.expected {
            Expected::Setup => add_setup(self, read_setup(&mut tokens)),
            Expected::Objects => add_behind_setup(alloc, close, number, tokens, self),
            Expected::Functions => add_behind_setup(alloc, close, number, tokens, self),
            Expected::Rest => {
                drop(self);
                Err(LineFault::Refused(Kind::Syntax))
            }
        }
    }
}
