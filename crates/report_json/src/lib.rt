//! The JSON form of a run's report.
#![tactic(auto)]

pub mod laws;
mod members;
mod values;

ghost use Rattle.std.specs.Prelude.{◌≡◌, IfOk};
ghost use Rattle.serde_json.specs.View.{view};
ghost use Rattle.report_json.specs.Json.{report_data, json_text};

use boki_types::{Program, Report};
use lb_base::{Memory, Words};
use serde_json::{Map, Value as Json, put};
use std::alloc::Global;

/// The whole report.
fn report_json(alloc: Global, report: &Report, program: &Program) -> Result<Json, Memory>
    ensures { IfOk result (λ v. view v ≡ report_data program.now.functions report.now) }
{
    let mut members = Map::new(alloc);
    let objects = members::named_values(alloc, report.objects.as_slice())?;
    put(&mut members, alloc, "objects", objects)?;
    let queues = members::queues(alloc, report.queues.as_slice())?;
    put(&mut members, alloc, "queues", queues)?;
    let results = members::results(alloc, report.results.as_slice())?;
    put(&mut members, alloc, "results", results)?;
    let store = members::named_values(alloc, report.stores.as_slice())?;
    put(&mut members, alloc, "store", store)?;
    let turns = values::turns(alloc, report.turns.as_slice(), program)?;
    put(&mut members, alloc, "turns", turns)?;
    Ok(Json::Object(members))
}

/// The JSON form of a report of a run of this program: one compact line with its line feed.
///
/// Its keys are `objects`, `queues`, `results`, `store` and `turns`. Objects and store names map to their values, queues to arrays,
/// front first, and paths to `{"value":V}` or `{"trap":"KIND"}`. The turns are their lines without the word `turn`, and `none` is
/// null. The keys of each object stand in the order of their bytes. A function that the program doesn't have is printed without a
/// name.
pub fn print_json(alloc: Global, report: &Report, program: &Program) -> Result<Words, Memory>
    ensures { IfOk result (λ w. w ≡ json_text program.now.functions report.now) }
{
    let value = report_json(alloc, report, program)?;
    let mut text = value.to_string(alloc)?;
    text.push_str("\n")?;
    Ok(Words::from_string(text))
}
