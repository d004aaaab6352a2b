// Digests of contents, each computed at most once between two changes of the content.

ghost use Rattle.std.specs.Prelude.{◌≡◌, IfSome, Some};
ghost use Rattle.world_model.specs.model.events.hashes.Digest.{digest_of};
ghost use Rattle.audit_trail.specs.Steps.{IsKeptOf, taken_digest};

use crate::taken::Taken;
use hash_algos::{Algo, Digest};
use inode_hashing::digest_of_content;
use inode_pages::Content;

// The digest of the content by the algorithm. It is the one that is kept, if that is by the same
// algorithm, and is kept from then on.
pub fn digest_by(kept: &mut Option<Digest>, algo: Algo, content: &Content) -> Digest
    requires { IsKeptOf content.now kept.old }
    ensures digest { result ≡ digest_of algo content.now }
    ensures kept { IsKeptOf content.now kept.new }
{
    if let Some(digest) = kept_by(kept, algo) {
        return digest;
    }
    let digest = digest_of_content(algo, content);
    *kept = Some(digest);
    digest
}

// The digest that is kept, if it is by the algorithm.
fn kept_by(kept: &Option<Digest>, algo: Algo) -> Option<Digest>
    ensures kept { IfSome result (λ digest. kept.now ≡ Some digest) }
    ensures algo { IfSome result (λ digest. digest.algo ≡ algo) }
{
    match kept {
        Some(digest) if digest.algo() == algo => Some(*digest),
        _ => None,
    }
}

// The digest of what a collection took, which is that of the content if nothing was written
// meanwhile.
pub fn digest_taken(kept: &mut Option<Digest>, taken: &Taken, content: &Content) -> Digest
    requires { IsKeptOf content.now kept.old }
    ensures digest { result ≡ taken_digest taken.now }
    ensures kept { IsKeptOf content.now kept.new }
{
    if taken.is_of(content) {
        digest_by(kept, taken.algo(), content)
    } else {
        taken.digest()
    }
}
