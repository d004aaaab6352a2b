// Values that a cell reads from its state, attributes and content.
ghost use Rattle.std.specs.Prelude.{◌≡◌, length, is_some};
ghost use Rattle.std.specs.Option.{option_copied};
ghost use Rattle.inode_events.specs.Integrity.{chosen_algo, collecting, ima_name, label, status};
ghost use Rattle.inode_events.specs.NewestFirst.{newest_first};
ghost use Rattle.inode_events.specs.State.{content, metadata, new, present};

use crate::cell::InodeCell;
use hash_algos::Algo;
use inode_meta::{EvmStatus, Meta};
use label_values::collect_algo;
use xattr_store::IMA_NAME;

impl InodeCell {
    // The value of `security.ima`, if there is one.
    pub(crate) fn label(&self) -> Option<&[u8]>
        ensures { option_copied result ≡ label self.now.inode (newest_first self.now.list) }
    {
        self.attrs.get(IMA_NAME)
    }

    // Mode, owner, group and identity of the inode.
    pub(crate) fn meta(&self) -> Meta
        ensures { result ≡ metadata (newest_first self.now.list) }
    {
        self.kept.state().meta
    }

    // The EVM status of the attributes and metadata.
    pub(crate) fn status(&self) -> EvmStatus
        ensures { result ≡ status self.now.inode (newest_first self.now.list) }
    {
        self.kept.settings().evm.status(&self.attrs, &self.meta())
    }

    // The size of the content, in bytes.
    pub(crate) fn size(&self) -> u64
        ensures { result ≡ length (content (newest_first self.now.list)) }
    {
        self.content.len()
    }

    // Whether an open created the file and its last writer hasn't closed it yet.
    pub(crate) fn is_new(&self) -> bool
        ensures { result ≡ new (newest_first self.now.list) }
    {
        self.kept.state().marks.new
    }

    // Whether the file exists.
    pub(crate) fn is_present(&self) -> bool
        ensures { result ≡ present (newest_first self.now.list) }
    {
        self.kept.state().marks.present
    }

    // Whether a collection is open.
    pub(crate) fn is_collecting(&self) -> bool
        ensures { result ≡ is_some (collecting self.now.inode (newest_first self.now.list)) }
    {
        self.kept.state().collecting.is_some()
    }

    // The algorithm for the collection of a take.
    pub(crate) fn chosen_algo(&self) -> Algo
        ensures { result ≡ chosen_algo self.now.inode (newest_first self.now.list) }
    {
        collect_algo(self.label(), self.kept.settings().hash)
    }
}
