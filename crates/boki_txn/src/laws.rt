//! Laws, each a function with an empty body.
ghost use Rattle.boki_txn.specs.TxnStates.{TxnFoldsStay};

/// States of store names that are folds stay so where newer records are ordered.
pub fn txn_folds_stay()
    ensures { TxnFoldsStay }
{}
