ghost use Rattle.std.specs.Prelude.{◌≡◌, ℕ, List, [], ◌++◌};
ghost use Rattle.hmac_core.specs.Hmac.{block_key, padded, hmac, Holds};

use sha1::Sha1;

/// The length of an HMAC-SHA1 in bytes.
pub const MAC_LEN: usize = 20;

// The block size of SHA-1 in bytes.
const BLOCK_LEN: usize = 64;

// The inner and the outer pad of RFC 2104, section 2.
const IPAD: u8 = 0x36;

const OPAD: u8 = 0x5c;

// The key as one block: a longer key is hashed first, and zeros fill the rest.
fn block_of(key: &[u8]) -> [u8; BLOCK_LEN]
    ensures { result ≡ block_key key.now }
{
    let mut block = [0; BLOCK_LEN];
    if key.len() <= BLOCK_LEN {
        block[..key.len()].copy_from_slice(key);
    } else {
        block[..MAC_LEN].copy_from_slice(&Sha1::digest(key));
    }
    block
}

// The block with each byte XORed with `pad`.
fn pad_with(block: &[u8; BLOCK_LEN], pad: u8) -> [u8; BLOCK_LEN]
    ensures { result ≡ padded pad block.now }
{
    let mut out = *block;
    for byte in out.iter_mut() {
        *byte ^= pad;
    }
    out
}

/// The HMAC-SHA1 of a message that comes in pieces: call `new`, then `feed` for each piece, and
/// `finish`.
#[derive(Drop)]
pub struct HmacSha1 {
    inner: Sha1,
    outer: Sha1,
}

impl HmacSha1 {
    /// The state for this key and the empty message. A key may have any length; as RFC 2104
    /// requires, one of more than 64 bytes is hashed first.
    pub fn new(key: &[u8]) -> HmacSha1
        ensures { Holds result key.now [] }
    {
        let block = block_of(key);
        let mut inner = Sha1::new();
        inner.update(&pad_with(&block, IPAD));
        let mut outer = Sha1::new();
        outer.update(&pad_with(&block, OPAD));
        HmacSha1 { inner, outer }
    }

    /// Appends `piece` to the message.
    pub fn feed(&mut self, piece: &[u8])
        ensures { (key m : List ℕ) → Holds self.old key m → Holds self.new key (m ++ piece.now) }
    {
        self.inner.update(piece);
    }

    /// The HMAC of the concatenated pieces; how the message was cut makes no difference.
    pub fn finish(self) -> [u8; MAC_LEN]
        ensures { (key m : List ℕ) → Holds self key m → result ≡ hmac key m }
    {
        let HmacSha1 { inner, mut outer } = self;
        outer.update(&inner.finalize());
        outer.finalize()
    }
}
