//! The request that the words make.

ghost use Rattle.std.specs.Prelude.{◌≡◌, codes, map, string_bytes, IfOk};
ghost use Rattle.std.specs.List.{list_any};
ghost use Rattle.std.specs.Str.{bytes_eq};
ghost use Rattle.clap.specs.Matches.{found_of};
ghost use Rattle.clap.specs.Walk.{rows_of};
ghost use Rattle.clap.specs.Simple.{subcommand_rows_of};
ghost use Rattle.lb_base.specs.Numeral.{num_of};
ghost use Rattle.command_line.specs.Parser.{HasFlag, HasFlagIn, answer, make_answer, run_answer};
ghost use Rattle.command_line.specs.Words.{IsInRange, given, make_of, one_of, plain_of, request, run_of, with_of};

use crate::parser::command_line;
use clap::ArgMatches;
use clap::error::ErrorKind;
use lb_base::{Memory, read_num};
use std::alloc::Global;

/// Which of the nemeses disturb a run.
#[derive(Clone, Copy, Debug, PartialEq, Eq)]
pub enum With {
    /// Each of them.
    All,
    /// The one with this number, from 1 to 16.
    One(u32),
}

/// What the program is asked to do.
#[derive(Clone, Copy, Debug, PartialEq, Eq)]
pub enum Request {
    /// Run the plan that is read, and write its report as JSON or as lines.
    Run { with: Option<With>, json: bool },
    /// Rerun the turns that are read.
    Judge,
    /// Check the plan that is read.
    Check,
    /// Run the plan of this many transfers, from 1 to 4,000, or write it.
    Make { transfers: u32, plan: bool },
    /// Run the live text that is read.
    Live,
    /// Run the flow text that is read.
    Flow,
    /// Run the plan that is read, and write its log.
    Log,
    /// Audit the log that is read.
    Audit,
    /// Serve the log books of the text that is read.
    Mux,
}

/// The nemesis of the number that a word spells, from 1 to 16.
fn read_one(word: &str) -> Option<With>
    ensures { result ≡ one_of (num_of word.now) }
{
    match read_num(word) {
        Some(n) => {
            if 1 <= n && n <= 16 {
                Some(With::One(n as u32))
            } else {
                None
            }
        }
        None => None,
    }
}

/// The nemeses that the value of `--with` names.
fn read_with(word: &str) -> Option<With>
    ensures { result ≡ with_of word.now }
{
    if word == "all" {
        Some(With::All)
    } else {
        read_one(word)
    }
}

/// The run with the nemeses that the value of `--with` names.
fn run_with(value: &str, json: bool) -> Option<Request>
    ensures { result ≡ run_of json (given value.now) }
{
    let with = Some(read_with(value)?);
    Some(Request::Run { with, json })
}

/// The request of the matches of `run`.
fn run_matched(matches: &ArgMatches<'_>) -> Option<Request>
    ensures { HasFlag (codes "json") (rows_of (found_of matches.now)) →
        result ≡ run_answer (rows_of (found_of matches.now)) }
{
    let json = matches.get_flag("json");
    match matches.get_str("with") {
        Some(value) => run_with(value, json),
        None => Some(Request::Run { with: None, json }),
    }
}

/// The request for so many transfers as a word spells, from 1 to 4,000.
fn make_request(plan: bool, word: &str) -> Option<Request>
    ensures { result ≡ make_of plan (num_of word.now) }
{
    match read_num(word) {
        Some(n) => {
            if 1 <= n && n <= 4000 {
                Some(Request::Make {
                    transfers: n as u32,
                    plan,
                })
            } else {
                None
            }
        }
        None => None,
    }
}

/// The request of the matches of `make`.
fn make_matched(matches: &ArgMatches<'_>) -> Option<Request>
    ensures { HasFlag (codes "plan") (rows_of (found_of matches.now)) →
        result ≡ make_answer (rows_of (found_of matches.now)) }
{
    let plan = matches.get_flag("plan");
    make_request(plan, matches.get_str("transfers")?)
}

/// The request of a command that stands alone.
fn plain_request(name: &str) -> Option<Request>
    ensures { result ≡ plain_of name.now }
{
    match name {
        "judge" => Some(Request::Judge),
        "check" => Some(Request::Check),
        "live" => Some(Request::Live),
        "flow" => Some(Request::Flow),
        "log" => Some(Request::Log),
        "audit" => Some(Request::Audit),
        "mux" => Some(Request::Mux),
        _ => None,
    }
}

/// The request of the words that `clap` has split.
fn matched(matches: &ArgMatches<'_>) -> Option<Request>
    ensures { HasFlagIn (subcommand_rows_of matches.now) →
        result ≡ answer (subcommand_rows_of matches.now) }
{
    let (name, inner) = matches.subcommand()?;
    if name == "run" {
        run_matched(inner)
    } else if name == "make" {
        make_matched(inner)
    } else {
        plain_request(name)
    }
}

/// Whether a word is `--`.
fn has_dashes(words: &[String]) -> bool
    ensures { result ≡ list_any (λ word. bytes_eq (string_bytes word) (codes "--")) words.now }
{
    words.iter().any(|word| word.as_str() == "--")
}

/// What the words ask for, which stand without the program's name, or None where they aren't accepted.
///
/// Accepted are `run`, then `--with I` and `--json` in any order, each at most once, with I `all` or a numeral from 1 to 16, also
/// as `--with=I`; `make N`, with `--plan` at most once before or behind N, a numeral from 1 to 4,000; and `judge`, `check`, `live`,
/// `flow`, `log`, `audit` and `mux`, each alone.
pub fn request_of(alloc: Global, words: &[String]) -> Result<Option<Request>, Memory>
    ensures value { IfOk result (λ r. r ≡ request (map string_bytes words.now)) }
    ensures in_range { IfOk result (λ r. IsInRange r) }
{
    if has_dashes(words) {
        return Ok(None);
    }
    match command_line(alloc)?.try_get_matches_from(words) {
        Ok(matches) => Ok(matched(&matches)),
        Err(error) => match error.kind() {
            ErrorKind::OutOfMemory => Err(Memory),
            _ => Ok(None),
        },
    }
}
