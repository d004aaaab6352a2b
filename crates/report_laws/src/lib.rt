//! Laws: a report determines the run that it shows, and so does a text that begins with it.
#![tactic(auto)]

ghost use Rattle.report_laws.specs.Law.{BeginningDetermines, ReportDetermines};

/// Two runs shown by one script with equal reports are the same run.
pub fn report_determines()
    ensures { ReportDetermines }
{}

/// Two runs shown by one script are the same run if equal texts begin with their reports, whatever
/// follows: a report ends at its first line `end`.
pub fn beginning_determines()
    ensures { BeginningDetermines }
{}
