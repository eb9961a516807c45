//! Definitions of attempts, the machine, decided answers, turns, the failure-free execution and the report, in `specs/`.
#![tactic(auto)]
