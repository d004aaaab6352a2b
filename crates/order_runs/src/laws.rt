//! What holds of the orders that begin with some turns.

ghost use Rattle.order_runs.specs.Laws.{OrdersGoOn};

/// The orders that begin with some turns are the orders from the moment to which those lead, and
/// are parted by their next turn.
pub fn orders_go_on()
    ensures { OrdersGoOn }
{}
