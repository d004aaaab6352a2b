// What the types keep of the rules that the tasks of a script append.
ghost use Rattle.std.specs.List.{AllByRecursion};
ghost use Rattle.policy_rules.specs.RuleValue.{IsRule};
ghost use Rattle.script_run.specs.Run.{AreRulesKept, KeepsRule};

use call_steps::Call;
use policy_rules::Rule;
use script_text::{Script, TaskBlock};

fn rule_kept(rule: &Rule)
    ensures { IsRule rule.now }
{
    let _ = &rule.act;
}

fn call_kept(call: &Call)
    ensures { KeepsRule call.now }
{
    if let Call::AddRule { rule } = call {
        rule_kept(rule.get());
    }
}

fn calls_kept(calls: &[Call])
    ensures { AllByRecursion KeepsRule calls.now }
{
    for call in calls {
        call_kept(call);
    }
}

fn tasks_kept(tasks: &[TaskBlock])
    ensures { AllByRecursion (λ (b : TaskBlock). AllByRecursion KeepsRule b.calls) tasks.now }
{
    for task in tasks {
        calls_kept(task.calls.as_slice());
    }
}

// A line can express each rule that a task of the script appends.
pub fn rules_kept(script: &Script)
    ensures { AreRulesKept script.now }
{
    tasks_kept(script.tasks.as_slice());
}
