//! The objects of a report, by their names.

ghost use Rattle.std.specs.Prelude.{◌≡◌, IfOk, map};
ghost use Rattle.serde_json.specs.View.{view};
ghost use Rattle.report_json.specs.Json.{object_with, value_member, queue_member, result_member};

use crate::values;
use lb_base::{List, Memory, Outcome, Path, Value, Words};
use serde_json::{Map, Value as Json};
use std::alloc::Global;

/// Names with a value, as of the objects and the store.
pub(crate) fn named_values(alloc: Global, entries: &[(Words, Value)]) -> Result<Json, Memory>
    ensures { IfOk result (λ v. view v ≡ object_with (map value_member entries.now)) }
{
    let mut members = Map::new(alloc);
    'entries: for entry in entries {
        let value = values::value(alloc, &entry.1)?;
        serde_json::put(&mut members, alloc, entry.0.as_str(), value)?;
    }
    Ok(Json::Object(members))
}

/// The queues by name, each an array with its front first.
pub(crate) fn queues(alloc: Global, queues: &[(Words, List<Value>)]) -> Result<Json, Memory>
    ensures { IfOk result (λ v. view v ≡ object_with (map queue_member queues.now)) }
{
    let mut members = Map::new(alloc);
    'queues: for queue in queues {
        let values = values::values(alloc, queue.1.as_slice())?;
        serde_json::put(&mut members, alloc, queue.0.as_str(), values)?;
    }
    Ok(Json::Object(members))
}

/// The results by the texts of their paths.
pub(crate) fn results(alloc: Global, results: &[(Path, Outcome)]) -> Result<Json, Memory>
    ensures { IfOk result (λ v. view v ≡ object_with (map result_member results.now)) }
{
    let mut members = Map::new(alloc);
    'results: for found in results {
        let path = found.0.to_string(alloc)?;
        let outcome = values::outcome(alloc, &found.1)?;
        serde_json::put(&mut members, alloc, path.as_str(), outcome)?;
    }
    Ok(Json::Object(members))
}
