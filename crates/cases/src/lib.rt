//! Worked examples, proved: one list of cases (specs/Worked), each with what is asked and what is
//! answered, and one lemma that every case of the list is true. The definitions that the cases are
//! about are those that the contracts of the other crates cite.
#![tactic(auto)]

ghost use Rattle.cases.specs.Cases.{AllTrue};
ghost use Rattle.cases.specs.Worked.{worked};

/// Every worked case is true.
pub fn worked_cases()
    ensures { AllTrue worked }
{}
