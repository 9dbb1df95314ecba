//! Worked cases of calls and their answers, which follow from what the calls are defined to answer.
#![tactic(auto)]

ghost use Rattle.cases.specs.Cases.{AllHold};

/// Every worked case holds: its calls, made one after another from a cleared table and an empty outlet on, may be answered
/// as the case says, and in no other way; only the place that a refusal for reach tells is left open. The definitions of
/// the calls alone decide this; no code is run.
pub fn worked_cases()
    ensures { AllHold }
{}
