ghost use Rattle.std.specs.Prelude.{◌≡◌};
ghost use Rattle.hash_algos.specs.Digest.{digest_of};

use hash_algos::{Algo, Digest, Running};
use inode_pages::Content;

/// The digest of a file's content, computed page by page.
pub fn digest_of_content(a: Algo, content: &Content) -> Digest
    ensures { result ≡ digest_of a content.now }
{
    let pages = content.pages();
    let mut running = Running::new(a);
    for page in pages {
        running.feed(page.as_slice());
    }
    running.finish()
}
