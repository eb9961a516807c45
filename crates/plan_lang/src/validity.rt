//! Which events a plan can have.

ghost use Rattle.std.specs.Prelude.{◌≡◌, ◌&&◌, length};
ghost use Rattle.std.specs.List.{list_all};
ghost use Rattle.lb_base.specs.Path.{is_path, is_request};
ghost use Rattle.boki_types.specs.Finding.{function_at};
ghost use Rattle.boki_model.specs.Bodies.{is_i64, is_u64, is_value, is_target};
ghost use Rattle.boki_model.specs.Plans.{in_bounds, is_from_one_to, is_attempt, is_user_tag, are_user_tags, is_text, has_arity, is_event};

use crate::printing::function_of;
use boki_types::{Event, Function, Plan};
use lb_base::{Mode, Path, Tag, Value, Words};

/// Whether a number is one from 1.
fn is_from_one(most: u32, n: u32) -> bool
    ensures { result ≡ is_from_one_to most n }
{
    1 <= n && n <= most
}

fn is_attempt_number(n: u32) -> bool
    ensures { result ≡ is_attempt n }
{
    1 <= n && n <= 4096
}

fn is_request_number(n: u32) -> bool
    ensures { result ≡ is_request n }
{
    0 < n && n < 1048576
}

/// Every number has 64 bits.
fn is_any_u64(n: u64) -> bool
    ensures { result ≡ is_u64 n }
{
    n <= u64::MAX
}

fn is_small(n: i64) -> bool
    ensures { result ≡ is_i64 n }
{
    n >= i64::MIN
}

/// Whether a path has its numbers in range, as every path does.
fn is_path_in_range(path: Path) -> bool
    ensures { result ≡ is_path path }
{
    path.depth() > 0
}

fn is_value_of_plan(value: &Value) -> bool
    ensures { result ≡ is_value value.now }
{
    match value {
        Value::Int(n) => is_small(*n),
        Value::Text(text) => text.len() <= 256,
        Value::Nothing => true,
    }
}

fn are_values(values: &[Value]) -> bool
    ensures { result ≡ list_all is_value values.now }
{
    values.iter().all(is_value_of_plan)
}

fn is_tag(tag: Tag) -> bool
    ensures { result ≡ is_user_tag tag }
{
    tag.0 < 1 << 56
}

fn are_all_tags(tags: &[Tag]) -> bool
    ensures { result ≡ list_all is_user_tag tags.now }
{
    tags.iter().all(|tag| is_tag(*tag))
}

/// Whether there are one to eight.
fn is_one_to_eight(count: usize) -> bool
    ensures { result ≡ in_bounds 1 8 count }
{
    1 <= count && count <= 8
}

fn are_tags(tags: &[Tag]) -> bool
    ensures { result ≡ are_user_tags tags.now }
{
    is_one_to_eight(tags.len()) && are_all_tags(tags)
}

fn is_short(text: &Words) -> bool
    ensures { result ≡ is_text text.now }
{
    text.len() <= 256
}

fn is_first_mode(mode: Mode) -> bool
    ensures { result ≡ is_target mode }
{
    match mode {
        Mode::R => true,
        Mode::W => true,
        Mode::T => false,
    }
}

/// Whether a function is there, and takes so many arguments.
fn takes(functions: &[Function], function: u32, count: usize) -> bool
    ensures { result ≡ has_arity count (function_at function functions.now) }
{
    match function_of(functions, function) {
        Some(function) => count == function.params.len(),
        None => false,
    }
}

fn is_submit(
    functions: &[Function],
    engines: u32,
    engine: u32,
    request: u32,
    function: u32,
    args: &[Value],
) -> bool
    ensures { result ≡ (is_from_one_to engines engine && is_request request && list_all is_value args.now && has_arity (length args.now) (function_at function functions.now)) }
{
    is_from_one(engines, engine)
        && is_request_number(request)
        && are_values(args)
        && takes(functions, function, args.len())
}

/// Whether an event may stand among the events of this plan: exactly where the line of the event, there, would be refused neither
/// as `Syntax` or `Range` nor as `Name` or `Arity`.
///
/// An event of a function that the program doesn't have, of mode `T`, or of no tags or more than eight is none. It takes no
/// memory.
pub fn valid(event: &Event, plan: &Plan) -> bool
    ensures { result ≡ is_event plan.now.setup plan.now.program.functions event.now }
{
    let functions = plan.program.functions.as_slice();
    let shards = plan.setup.shards;
    let replicas = plan.setup.replicas;
    let engines = plan.setup.engines;
    match event {
        Event::Submit {
            engine,
            request,
            function,
            args,
        } => is_submit(
            functions,
            engines,
            *engine,
            *request,
            *function,
            args.as_slice(),
        ),
        Event::Copy { shard, replica, n } => {
            is_from_one(shards, *shard) && (2 <= *replica && *replica <= replicas) && is_any_u64(*n)
        }
        Event::Cut => true,
        Event::Catch { engine } => is_from_one(engines, *engine),
        Event::Sync => true,
        Event::Restart { engine } => is_from_one(engines, *engine),
        Event::Start {
            attempt,
            path,
            engine,
        } => is_attempt_number(*attempt)
            && is_path_in_range(*path)
            && is_from_one(engines, *engine),
        Event::Step { attempt } => is_attempt_number(*attempt),
        Event::Kill { attempt } => is_attempt_number(*attempt),
        Event::Lose { attempt } => is_attempt_number(*attempt),
        Event::Miss { attempt } => is_attempt_number(*attempt),
        Event::Switch { engine, target } => is_from_one(engines, *engine) && is_first_mode(*target),
        Event::EndSwitch { engine } => is_from_one(engines, *engine),
        Event::Trim { engine } => is_from_one(engines, *engine),
        Event::Sweep { engine } => is_from_one(engines, *engine),
        Event::Append { engine, tags, text } => {
            is_from_one(engines, *engine) && are_tags(tags.as_slice()) && is_short(text)
        }
        Event::Cond {
            engine,
            place,
            tags,
            text,
        } => {
            is_from_one(engines, *engine)
                && is_any_u64(*place)
                && are_tags(tags.as_slice())
                && is_short(text)
        }
        Event::Next { engine, tag, from } => {
            is_from_one(engines, *engine) && is_tag(*tag) && is_any_u64(from.0)
        }
        Event::Prev { engine, tag, upto } => {
            is_from_one(engines, *engine) && is_tag(*tag) && is_any_u64(upto.0)
        }
        Event::Tail { engine, tag } => is_from_one(engines, *engine) && is_tag(*tag),
        Event::TrimTag { engine, tag, upto } => {
            is_from_one(engines, *engine) && is_tag(*tag) && is_any_u64(upto.0)
        }
        Event::Settled {
            engine,
            shard,
            local,
        } => {
            is_from_one(engines, *engine)
                && is_from_one(shards, *shard)
                && 1 <= *local
                && is_any_u64(*local)
        }
        Event::SetAux { engine, seq, text } => {
            is_from_one(engines, *engine) && is_any_u64(seq.0) && is_short(text)
        }
        Event::GetAux { engine, seq } => is_from_one(engines, *engine) && is_any_u64(seq.0),
        Event::Seed { n } => is_any_u64(*n),
    }
}
