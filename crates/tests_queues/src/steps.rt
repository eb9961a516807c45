//! How far the counter of steps rises.
ghost use Rattle.tests_queues.specs.Rows.{FewSteps};

/// The pops of a queue whose states are kept take few steps.
pub fn the_counter_rises_little()
    ensures { FewSteps }
{}
