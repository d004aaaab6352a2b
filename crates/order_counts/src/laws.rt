// What holds of orders, whatever moves.

ghost use Rattle.order_counts.specs.Examples.{CountExamples};
ghost use Rattle.order_counts.specs.Laws.{CountingGivesRows, OrdersAreListed};

/// If no task is named twice, the list of orders has each order of at most so many turns exactly
/// once, and nothing else.
pub fn orders_are_listed<M>()
    ensures { OrdersAreListed M }
{}

/// Counting turn by turn gives one row for each outcome, with the first order that has it and the
/// number of all that do. States at which the same is seen are met as one.
pub fn counting_gives_rows<M, O, S>()
    ensures { CountingGivesRows M O S }
{}

/// Orders and rows that were worked out by hand.
pub fn examples()
    ensures { CountExamples }
{}
