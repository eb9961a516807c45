//! The law that a metalog is one of some shards.

ghost use Rattle.meta_order.specs.ShardLaws.{ThereAreShards};

/// Each metalog has shards that it may order: as many, and with the records that the last vector counts.
pub fn there_are_shards()
    ensures { ThereAreShards }
{}
