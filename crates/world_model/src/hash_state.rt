use hash_algos::Digest;
use inode_hashing::Hashing;

/// What a task has hashed of its open collection.
#[derive(Drop)]
pub enum HashState {
    /// No collection is open.
    Idle,
    /// The collection's pieces are being hashed.
    Running(Hashing),
    /// All pieces are hashed: the digest by the collection's algorithm, and the one by SHA-1.
    Done(Digest, Digest),
}
