use grow_list::Pass;
use inode_cell::InodeCell;
use policy_cell::RuleEntry;
use std::marker::Model;

/// An inode of a world. Contracts see a record of the fields.
#[derive(Drop)]
pub struct WorldInode {
    /// The inode with its journal.
    pub cell: InodeCell,
    /// The inode's pass of the appended rules, through which it adds nothing.
    pub rules: Pass<RuleEntry>,
    /// The number of the inode's file system.
    pub place: u32,
}

impl Model for WorldInode {
    ghost use Rattle.world_model.specs.World.{WorldInodeValue};

    ghost Value = { WorldInodeValue };

    ghost view = { λ s. record { cell = s.cell; rules = s.rules; place = s.place } };
}
