// What holds of each run that may be shown for a script, whether or not it is the program's.
ghost use Rattle.script_run.specs.Laws.{ReportsTellRuns, ShownRunsAreSound};

use crate::appended::rules_kept;
use script_text::Script;

/// Each run that may be shown for a script is fresh, covered, admitted, denied, labelled and rarely
/// hashed.
pub fn shown_runs_are_sound()
    ensures { ShownRunsAreSound }
{}

/// Two runs that may be shown for the script are the same run if their reports have the same bytes.
pub fn reports_tell_runs(script: &Script)
    ensures { ReportsTellRuns script.now }
{
    script.keeps();
    rules_kept(script);
}
