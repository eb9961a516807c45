//! The law of progress, which the metalog stands on.

ghost use Rattle.shard_store.specs.ProgressLaws.{ProgressNeverFalls};

/// Progress counts records that the shards have, and neither a further record nor a copy takes from it.
pub fn progress_never_falls()
    ensures { ProgressNeverFalls }
{}
