//! The law that a report determines the run that it shows.

ghost use Rattle.std.specs.Prelude.{◌≡◌};
ghost use Rattle.report_text.specs.Printed.{IsOneScript, IsTold};
ghost use Rattle.report_text.specs.Ranges.{Fits};
ghost use Rattle.report_text.specs.Report.{report_of};
ghost use Rattle.run_model.specs.EndedValue.{EndedValue as Ended};

/// Two runs of one script with equal reports have equal events, entries, rules and replies, up to
/// what the lines don't print.
pub fn report_tells()
    ensures { (a b : Ended) → Fits a → Fits b → IsOneScript a b → report_of a ≡ report_of b
        → IsTold a b }
{}
