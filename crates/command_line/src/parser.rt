//! The command line, as `clap` reads it.

ghost use Rattle.std.specs.Prelude.{◌≡◌, IfOk, false};
ghost use Rattle.clap.specs.Simple.{app_of, on_top};
ghost use Rattle.clap.specs.declared.builder.command.Command.TheViews.{out-Command};
ghost use Rattle.command_line.specs.Parser.{boki, load_commands, make, plan_commands, quiet, run};

use clap::{Arg, ArgAction, Command};
use std::alloc::{AllocError, Global};

/// The command for words that stand without the program's name, with no help and no version.
fn quiet(command: Command<'_>) -> Command<'_>
    ensures app { app_of result ≡ on_top quiet (app_of command.entry) }
    ensures globals { (out-Command result).has_globals ≡ (out-Command command.entry).has_globals }
{
    command
        .no_binary_name(true)
        .subcommand_required(true)
        .disable_help_flag(true)
        .disable_help_subcommand(true)
        .disable_version_flag(true)
}

/// The subcommand `run`, of the option `--with` and the flag `--json`.
fn run<'a>(alloc: Global) -> Result<Command<'a>, AllocError>
    ensures app { IfOk result (λ c. app_of c ≡ run) }
    ensures globals { IfOk result (λ c. (out-Command c).has_globals ≡ false) }
{
    let with = Arg::new(alloc, "with").long("with");
    let json = Arg::new(alloc, "json")
        .long("json")
        .action(ArgAction::SetTrue);
    Command::new(alloc, "run").arg(with)?.arg(json)
}

/// The subcommand `make`, of a number of transfers and the flag `--plan`.
fn make<'a>(alloc: Global) -> Result<Command<'a>, AllocError>
    ensures app { IfOk result (λ c. app_of c ≡ make) }
    ensures globals { IfOk result (λ c. (out-Command c).has_globals ≡ false) }
{
    let transfers = Arg::new(alloc, "transfers").required(true);
    let plan = Arg::new(alloc, "plan")
        .long("plan")
        .action(ArgAction::SetTrue);
    Command::new(alloc, "make").arg(transfers)?.arg(plan)
}

/// The command with the subcommands that read a plan or its turns.
fn plan_commands<'a>(alloc: Global) -> Result<Command<'a>, AllocError>
    ensures app { IfOk result (λ c. app_of c ≡ plan_commands) }
    ensures globals { IfOk result (λ c. (out-Command c).has_globals ≡ false) }
{
    quiet(Command::new(alloc, "boki"))
        .subcommand(run(alloc)?)?
        .subcommand(Command::new(alloc, "judge"))?
        .subcommand(Command::new(alloc, "check"))
}

/// The same with the generator, and with the subcommands that run in threads.
fn load_commands<'a>(alloc: Global) -> Result<Command<'a>, AllocError>
    ensures app { IfOk result (λ c. app_of c ≡ load_commands) }
    ensures globals { IfOk result (λ c. (out-Command c).has_globals ≡ false) }
{
    plan_commands(alloc)?
        .subcommand(make(alloc)?)?
        .subcommand(Command::new(alloc, "live"))?
        .subcommand(Command::new(alloc, "flow"))
}

/// The command `boki` with all its subcommands.
pub(crate) fn command_line<'a>(alloc: Global) -> Result<Command<'a>, AllocError>
    ensures { IfOk result (λ c. app_of c ≡ boki) }
{
    load_commands(alloc)?
        .subcommand(Command::new(alloc, "log"))?
        .subcommand(Command::new(alloc, "audit"))?
        .subcommand(Command::new(alloc, "mux"))
}
