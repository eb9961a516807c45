//! Lines that are skipped: up to the `end` of the block, or to its `else`, behind which a branch is open.

ghost use Rattle.std.specs.Prelude.{◌≡◌, ◌<◌, ◌≤◌, ◌+◌, ◌^◌, ℕ, List, length, drop, Some, None, IfOk};
ghost use Rattle.boki_types.specs.declared.program.Stmt.{Stmt};
ghost use Rattle.boki_types.specs.declared.program.Function.{Function};
ghost use Rattle.boki_model.specs.Script as script;
ghost use Rattle.script_run.specs.Standing.{state_of};
ghost use Rattle.script_run.specs.Flows.{skipped_of};

use crate::state::{Block, State};
use boki_types::Stmt;
use lb_base::Memory;

/// What a line is to a script that skips it.
#[derive(Clone, Copy, Debug)]
enum Skipped {
    /// The `end` of the block.
    BlockEnds,
    /// The `else` of the block.
    ElseBegins,
    /// A line of the block, after which so many blocks inside it are open.
    SkipsOn(usize),
}

/// Passes a line, where so many blocks are open inside the skipped one.
fn skip_line(inner: usize, line: &Stmt) -> Skipped
    requires { inner + 1 < 2 ^ 64 }
    ensures { skipped_of result ≡ script.skip_line inner line.now }
{
    match line {
        Stmt::If(_) | Stmt::While(_) => Skipped::SkipsOn(inner + 1),
        Stmt::Else => {
            if inner == 0 {
                Skipped::ElseBegins
            } else {
                Skipped::SkipsOn(inner)
            }
        }
        Stmt::End => {
            if inner == 0 {
                Skipped::BlockEnds
            } else {
                Skipped::SkipsOn(inner - 1)
            }
        }
        _ => Skipped::SkipsOn(inner),
    }
}

/// Skips the lines of a block from a line on. Gives the number of the line behind them.
pub(crate) fn skip(lines: &[Stmt], start: usize, state: &mut State) -> Result<usize, Memory>
    requires { start ≤ length lines.now }
    ensures goes { IfOk result (λ end. (functions : List Function) (depth : ℕ) (enter : List Stmt → script.State → script.StopPoint) → script.execute_from functions depth enter (Some 0) (drop start lines.now) (state_of lines.now state.old) ≡ script.execute_from functions depth enter None (drop end lines.now) (state_of lines.now state.new)) }
    ensures within { IfOk result (λ end. (start ≤ end)) }
{
    let mut inner = 0;
    'lines: for at in start..lines.len() {
        match skip_line(inner, &lines[at]) {
            Skipped::BlockEnds => return Ok(at + 1),
            Skipped::ElseBegins => {
                state.blocks.push(Block::Branch)?;
                return Ok(at + 1);
            }
            Skipped::SkipsOn(more) => inner = more,
        }
    }
    Ok(lines.len())
}
