// Facts about the journal that come with an event.
ghost use Rattle.std.specs.Prelude.{◌≡◌, None, Some};
ghost use Rattle.inode_state.specs.Facts.{no_facts};

use crate::collecting::Asked;
use crate::in_force::Sums;
use hash_algos::Algo;
use inode_events::How;

/// What the caller knows of the journal before its event, as far as that event needs it.
#[derive(Drop)]
pub struct Facts {
    /// How the file that the event drops was opened.
    pub gone: Option<How>,
    /// Whether the file that the event checks or grants is open for writing.
    pub writing: bool,
    /// The algorithm of the collection that the event begins.
    pub algo: Algo,
    /// What was asked of the file that the event grants, or for which it begins a collection.
    pub asked: Option<Asked>,
    /// The digests of the collection that the event ends.
    pub sums: Option<Sums>,
}

impl Facts {
    /// No facts, for an event that needs none.
    pub fn nothing() -> Facts
        ensures { result ≡ no_facts }
    {
        Facts {
            gone: None,
            writing: false,
            algo: Algo::Sha1,
            asked: None,
            sums: None,
        }
    }

    /// For an event that drops a file: `how` is how that file was opened.
    pub fn dropping(how: Option<How>) -> Facts
        ensures { result ≡ record no_facts { gone = how } }
    {
        Facts {
            gone: how,
            writing: false,
            algo: Algo::Sha1,
            asked: None,
            sums: None,
        }
    }

    /// For the start of a writer's close: `how` is how its file was opened, and `algo` the
    /// algorithm of the collection that the close may begin.
    pub fn closing(how: Option<How>, algo: Algo) -> Facts
        ensures { result ≡ record no_facts { gone = how; algo = algo } }
    {
        Facts {
            gone: how,
            writing: false,
            algo,
            asked: None,
            sums: None,
        }
    }

    /// For a check: `writing` says whether its file is open for writing.
    pub fn checking(writing: bool) -> Facts
        ensures { result ≡ record no_facts { writing = writing } }
    {
        Facts {
            gone: None,
            writing,
            algo: Algo::Sha1,
            asked: None,
            sums: None,
        }
    }

    /// For a take or finish: whether its file is open for writing, the algorithm of the collection
    /// that it may begin, what was asked of the file, and the digests of the collection that ends.
    pub fn granting(writing: bool, algo: Algo, asked: Asked, sums: Option<Sums>) -> Facts
        ensures { result ≡ record {
          gone = None;
          writing = writing;
          algo = algo;
          asked = Some
              asked;
          sums = sums;
        } }
    {
        Facts {
            gone: None,
            writing,
            algo,
            asked: Some(asked),
            sums,
        }
    }
}
