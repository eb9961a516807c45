//! Laws, each a function with an empty body.
ghost use Rattle.cluster_report.specs.Reported.{HoldingIsReported};

/// Where a machine holds the invariant, a book and a store that are kept as its own can be reported, and the report is the machine's.
pub fn holding_is_reported()
    ensures { HoldingIsReported }
{}
