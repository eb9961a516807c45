//! Laws, each a function with an empty body.
ghost use Rattle.boki_queue.specs.QueueStates.{QueueFoldsStay};

/// States of queues that are folds stay so where newer records are ordered.
pub fn queue_folds_stay()
    ensures { QueueFoldsStay }
{}
