// The table of hash algorithms.

ghost use Rattle.std.specs.Prelude.{◌≡◌};
ghost use Rattle.hash_algos.specs.Algo.{algo_by_id, algo_by_name, algo_id, algo_name, algo_size};

/// A hash algorithm. The order is that of the numbers, see [`Algo::id`].
#[derive(Clone, Copy, PartialEq, Eq)]
pub enum Algo {
    /// MD5 (RFC 1321).
    Md5,
    /// SHA-1 (FIPS 180-4, which also defines all algorithms below).
    Sha1,
    Sha256,
    Sha384,
    Sha512,
    Sha224,
}

impl Algo {
    /// The algorithms, in the order of their numbers.
    pub const ALL: [Algo; 6] = [
        Algo::Md5,
        Algo::Sha1,
        Algo::Sha256,
        Algo::Sha384,
        Algo::Sha512,
        Algo::Sha224,
    ];

    /// The number by which labels identify the algorithm.
    pub fn id(self) -> u8
        ensures { result ≡ algo_id self }
    {
        match self {
            Algo::Md5 => 1,
            Algo::Sha1 => 2,
            Algo::Sha256 => 4,
            Algo::Sha384 => 5,
            Algo::Sha512 => 6,
            Algo::Sha224 => 7,
        }
    }

    /// The name in lower case, as templates, policies and scripts spell it.
    pub fn name(self) -> &'static str
        ensures { result.now ≡ algo_name self }
    {
        match self {
            Algo::Md5 => "md5",
            Algo::Sha1 => "sha1",
            Algo::Sha256 => "sha256",
            Algo::Sha384 => "sha384",
            Algo::Sha512 => "sha512",
            Algo::Sha224 => "sha224",
        }
    }

    /// The length of a digest in bytes.
    pub fn size(self) -> usize
        ensures { result ≡ algo_size self }
    {
        match self {
            Algo::Md5 => 16,
            Algo::Sha1 => 20,
            Algo::Sha256 => 32,
            Algo::Sha384 => 48,
            Algo::Sha512 => 64,
            Algo::Sha224 => 28,
        }
    }
}

/// The algorithm with this name; `None` exactly if the table has no such algorithm.
pub fn by_name(name: &[u8]) -> Option<Algo>
    ensures { result ≡ algo_by_name name.now }
{
    match name {
        b"md5" => Some(Algo::Md5),
        b"sha1" => Some(Algo::Sha1),
        b"sha256" => Some(Algo::Sha256),
        b"sha384" => Some(Algo::Sha384),
        b"sha512" => Some(Algo::Sha512),
        b"sha224" => Some(Algo::Sha224),
        _ => None,
    }
}

/// The algorithm with this number; `None` exactly if the table has no such algorithm.
pub fn by_id(id: u8) -> Option<Algo>
    ensures { result ≡ algo_by_id id }
{
    match id {
        1 => Some(Algo::Md5),
        2 => Some(Algo::Sha1),
        4 => Some(Algo::Sha256),
        5 => Some(Algo::Sha384),
        6 => Some(Algo::Sha512),
        7 => Some(Algo::Sha224),
        _ => None,
    }
}
