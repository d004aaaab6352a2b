use std::marker::Brand;

/// Names the constants of a world whose lists are under locks. Each value under a lock has the
/// invariant that it belongs to these constants, so a task that has taken a lock knows that the
/// list is the one of its pass.
pub trait Name: Send + Sync {
    ghost use Rattle.world_close.specs.worlds.WorldConsts.{WorldConsts};

    ghost consts: { WorldConsts };
}

impl Name for Brand {
    ghost use Rattle.world_locks.specs.Blank.{no_consts};

    ghost consts = { no_consts };
}
