// What holds of the orders of each script, and of moments that are alike.

ghost use Rattle.order_outcomes.specs.Examples.{OrderExamples};
ghost use Rattle.order_outcomes.specs.Laws.{MadeTells, ScheduleHasOutcome};
ghost use Rattle.order_outcomes.specs.alike.Examples.{AlikeExamples};
ghost use Rattle.order_outcomes.specs.alike.Laws.{AlikeFollows, ReachedAreSound};

/// The run whose schedule is an order has the outcome of the order.
pub fn schedule_has_outcome()
    ensures { ScheduleHasOutcome }
{}

/// Exactly a turn that moves its task leaves more events and replies.
pub fn made_tells()
    ensures { MadeTells }
{}

/// Orders and outcomes that were worked out by hand.
pub fn examples()
    ensures { OrderExamples }
{}

/// At moments that are alike the same can follow, with the same outcomes.
pub fn alike_follows()
    ensures { AlikeFollows }
{}

/// Turns lead to moments whose journals are sound, and whose tasks have files that were counted.
pub fn reached_are_sound()
    ensures { ReachedAreSound }
{}

/// Moments that are alike and moments that aren't, worked out by hand.
pub fn alike_examples()
    ensures { AlikeExamples }
{}
