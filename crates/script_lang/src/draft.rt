//! Functions, line by line.

ghost use Rattle.std.specs.Prelude.{◌≡◌, IfOk};
ghost use Rattle.line_text.specs.Faults.{LineGives};
ghost use Rattle.script_lang.specs.Functions.{nesting_of, draft_with_head, draft_with_nested, draft_with_stmt, draft_line, take_line, empty_draft, is_in_function};

use crate::blocks::{Blocks, Nesting};
use crate::statements::{read_function_head, read_stmt};
use boki_model::limits::MAX_FUNCTIONS;
use boki_types::{Function, Kind, Stmt};
use lb_base::{List, Memory, Words};
use line_text::{Checked, LexedLine, LineFault, Tokens, valid_or_fault};
use std::alloc::Global;

/// Where the next line stands: between functions, or in one, with the numbers of its head and of its lines so far.
#[derive(Drop)]
pub enum Stage {
    Between,
    Inside(Function, List<u64>, Blocks),
}

/// The functions that were read so far, line by line.
///
/// `line_numbers` has, for each function in `functions`, the number of its head and then those of its lines.
#[derive(Drop)]
pub struct Draft {
    pub functions: List<Function>,
    pub line_numbers: List<List<u64>>,
    pub stage: Stage,
}

/// Where a statement stands.
fn nest_stmt(blocks: Blocks, stmt: &Stmt) -> Result<Nesting, Memory>
    ensures { IfOk result (λ r. r ≡ nesting_of blocks stmt.now) }
{
    match stmt {
        Stmt::If(_) => blocks.at_opening(true),
        Stmt::While(_) => blocks.at_opening(false),
        Stmt::Else => blocks.at_else(),
        Stmt::End => Ok(blocks.at_end()),
        _ => Ok(Nesting::Within(blocks)),
    }
}

/// The head of a function, behind those that are there.
fn begin_function(
    alloc: Global,
    number: u64,
    functions: List<Function>,
    line_numbers: List<List<u64>>,
    head: Option<Checked<(Words, List<Words>)>>,
) -> Result<Draft, LineFault>
    ensures { LineGives result (draft_with_head number functions line_numbers head) }
{
    let (name, params) = valid_or_fault(head)?;
    if functions.len() >= MAX_FUNCTIONS {
        return Err(LineFault::Refused(Kind::Range));
    }
    let mut numbers = List::new(alloc);
    numbers.push(number)?;
    let function = Function {
        name,
        params,
        lines: List::new(alloc),
    };
    Ok(Draft {
        functions,
        line_numbers,
        stage: Stage::Inside(function, numbers, Blocks::new(alloc)),
    })
}

/// A line of a function, where it stands well.
fn add_nested(
    number: u64,
    functions: List<Function>,
    line_numbers: List<List<u64>>,
    function: Function,
    numbers: List<u64>,
    stmt: Stmt,
    place: Nesting,
) -> Result<Draft, LineFault>
    ensures { LineGives result (draft_with_nested number functions line_numbers function numbers stmt place) }
{
    let mut functions = functions;
    let mut line_numbers = line_numbers;
    let mut numbers = numbers;
    match place {
        Nesting::Within(blocks) => {
            let Function {
                name,
                params,
                mut lines,
            } = function;
            lines.push(stmt)?;
            numbers.push(number)?;
            let function = Function {
                name,
                params,
                lines,
            };
            Ok(Draft {
                functions,
                line_numbers,
                stage: Stage::Inside(function, numbers, blocks),
            })
        }
        Nesting::FunctionEnd => {
            drop(stmt);
            functions.push(function)?;
            line_numbers.push(numbers)?;
            Ok(Draft {
                functions,
                line_numbers,
                stage: Stage::Between,
            })
        }
        Nesting::Misplaced => {
            drop((function, stmt));
            Err(LineFault::Refused(Kind::Syntax))
        }
        Nesting::TooDeep => {
            drop((function, stmt));
            Err(LineFault::Refused(Kind::Deep))
        }
    }
}

/// A line of a function.
fn add_stmt(
    number: u64,
    functions: List<Function>,
    line_numbers: List<List<u64>>,
    function: Function,
    numbers: List<u64>,
    blocks: Blocks,
    stmt: Option<Checked<Stmt>>,
) -> Result<Draft, LineFault>
    ensures { LineGives result (draft_with_stmt number functions line_numbers function numbers blocks stmt) }
{
    let stmt = valid_or_fault(stmt)?;
    let Ok(place) = nest_stmt(blocks, &stmt) else {
        drop(stmt);
        return Err(LineFault::Memory);
    };
    add_nested(
        number,
        functions,
        line_numbers,
        function,
        numbers,
        stmt,
        place,
    )
}

impl Draft {
    /// No function yet.
    pub fn new(alloc: Global) -> Draft
        ensures { result ≡ empty_draft }
    {
        Draft {
            functions: List::new(alloc),
            line_numbers: List::new(alloc),
            stage: Stage::Between,
        }
    }

    /// Whether the next line stands in a function.
    pub fn is_in_function(&self) -> bool
        ensures { result ≡ is_in_function self.now.stage }
    {
        match self.stage {
            Stage::Between => false,
            Stage::Inside(_, _, _) => true,
        }
    }

    /// The functions with one more line, of these tokens and with this number: in a function a statement, and else the head of
    /// a function.
    ///
    /// The line is refused with the first of these kinds that applies. `Syntax`: its tokens are no such line, or it stands where
    /// it can't, as an `else` without an `if`. `Range`: a number, text, name or count in it is out of range, or it is the head
    /// of the 257th function. `Deep`: an expression in it has more than 64 operands or more than 32 parentheses, `not`, `text`
    /// and `len` that stand in one another, or it opens a block in 16 that are open, the function among them.
    pub fn add_line(self, alloc: Global, number: u64, tokens: Tokens) -> Result<Draft, LineFault>
        ensures { LineGives result (draft_line number tokens self) }
    {
        let Draft {
            functions,
            line_numbers,
            stage,
        } = self;
        match stage {
            Stage::Between => {
                let head = read_function_head(alloc, tokens)?;
                begin_function(alloc, number, functions, line_numbers, head)
            }
            Stage::Inside(function, numbers, blocks) => {
                let stmt = read_stmt(alloc, tokens)?;
                add_stmt(
                    number,
                    functions,
                    line_numbers,
                    function,
                    numbers,
                    blocks,
                    stmt,
                )
            }
        }
    }

    /// The same with a line of a text, which may be one that is skipped.
    pub(crate) fn take_line(
        self,
        alloc: Global,
        number: u64,
        line: LexedLine,
    ) -> Result<Draft, LineFault>
        ensures { LineGives result (take_line number line self) }
    {
        match line {
            LexedLine::Skipped => Ok(self),
            LexedLine::Tokens(tokens) => self.add_line(alloc, number, tokens),
            LexedLine::Invalid => {
                drop(self);
                Err(LineFault::Refused(Kind::Syntax))
            }
        }
    }
}
