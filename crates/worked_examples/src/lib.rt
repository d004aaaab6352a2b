//! Worked examples of the definitions that other contracts cite: values that meet a definition, and
//! values that it refuses.
//!
//! Each function has an empty body, and its contract is a record of examples, one in each field.
//! Where a definition is a record, an example that it refuses is a function from it to the empty
//! type.
#![tactic(auto)]

ghost use Rattle.worked_examples.specs.Access.{AccessExamples};
ghost use Rattle.worked_examples.specs.Calls.{CallExamples};
ghost use Rattle.worked_examples.specs.Covered.{CoveredExamples};
ghost use Rattle.worked_examples.specs.Ended.{EndedExamples};
ghost use Rattle.worked_examples.specs.Labels.{LabelExamples};
ghost use Rattle.worked_examples.specs.Laws.{LawExamples};
ghost use Rattle.worked_examples.specs.Merged.{MergedExamples};
ghost use Rattle.worked_examples.specs.Served.{ServedExamples};
ghost use Rattle.worked_examples.specs.Unmodified.{UnmodifiedExamples};

/// Which measurement lists are merged from the journals of two inodes or three.
pub fn merged_examples()
    ensures { MergedExamples }
{}

/// Whether a grant is for a file that is unmodified since the begin of its digest.
pub fn unmodified_examples()
    ensures { UnmodifiedExamples }
{}

/// Which reads a measurement list covers.
pub fn covered_examples()
    ensures { CoveredExamples }
{}

/// Which runs are served, and what turns and rounds do.
pub fn served_examples()
    ensures { ServedExamples }
{}

/// How a run may end.
pub fn ended_examples()
    ensures { EndedExamples }
{}

/// What is fresh, which grants are admitted, and a run with as many collections as the bound
/// allows.
pub fn law_examples()
    ensures { LawExamples }
{}

/// Verdicts, and what mode fix writes.
pub fn label_examples()
    ensures { LabelExamples }
{}

/// Accesses to a file whose owner and group have different numbers.
pub fn access_examples()
    ensures { AccessExamples }
{}

/// What a task holds after an exec, and while it has two files open.
pub fn call_examples()
    ensures { CallExamples }
{}
