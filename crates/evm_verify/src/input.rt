// The message of EVM's HMAC, and the value of `security.evm` that holds the HMAC.

ghost use Rattle.std.specs.Option.{option_copied};
ghost use Rattle.std.specs.Prelude.{◌≡◌, ℕ, ◌++◌, ◌∷◌, List, [], unwrap_or};
ghost use Rattle.hmac_core.specs.Hmac.{Holds, hmac};
ghost use Rattle.evm_verify.specs.Input.{evm_value, meta_bytes, place_bytes, values_under};

use hmac_core::{HmacSha1, MAC_LEN};
use inode_meta::Meta;
use xattr_store::{After, Bytes};

/// The length in bytes of the value of `security.evm`: one for its type, and an HMAC-SHA1.
pub const VALUE_LEN: usize = 1 + MAC_LEN;

// The type byte of an HMAC in `security.evm` (the kernel's `EVM_XATTR_HMAC`).
pub const HMAC_TYPE: u8 = 2;

// Feeds the value of an attribute, or nothing if the attribute is absent.
fn feed_value(state: &mut HmacSha1, value: Option<&[u8]>)
    ensures { (key m : List ℕ) → Holds state.old key m
        → Holds state.new key (m ++ unwrap_or (option_copied value.entry) []) }
{
    if let Some(bytes) = value {
        state.feed(bytes);
    }
}

// Feeds the values of the named attributes that are present.
fn feed_values(state: &mut HmacSha1, names: &[Bytes], attrs: &After<'_>)
    ensures { (key m : List ℕ) → Holds state.old key m
        → Holds state.new key (m ++ values_under names.now attrs.now) }
{
    for name in names {
        feed_value(state, attrs.get(name.as_slice()));
    }
}

// Feeds the inode's metadata.
fn feed_meta(state: &mut HmacSha1, meta: &Meta)
    ensures { (key m : List ℕ) → Holds state.old key m
        → Holds state.new key (m ++ meta_bytes meta.now) }
{
    state.feed(&meta.ino.to_le_bytes());
    state.feed(&meta.generation.to_le_bytes());
    state.feed(&meta.uid.to_le_bytes());
    state.feed(&meta.gid.to_le_bytes());
    state.feed(&meta.mode.to_le_bytes());
    state.feed(&[0, 0]);
}

// Feeds the UUID of the file system, under format 2 only.
fn feed_place(state: &mut HmacSha1, meta: &Meta, format: u8)
    ensures { (key m : List ℕ) → Holds state.old key m
        → Holds state.new key (m ++ place_bytes format meta.now) }
{
    if format == 2 {
        state.feed(&meta.place.to_be_bytes());
    }
}

// The value of `security.evm`: the type byte, then the HMAC.
fn with_type(mac: &[u8; MAC_LEN]) -> [u8; VALUE_LEN]
    ensures { result ≡ 2 ∷ mac.now }
{
    let mut value = [HMAC_TYPE; VALUE_LEN];
    value[1..].copy_from_slice(mac);
    value
}

/// The right value of `security.evm` for these protected names, under this format.
pub fn value_of(
    key: &[u8],
    names: &[Bytes],
    format: u8,
    attrs: &After<'_>,
    meta: &Meta,
) -> [u8; VALUE_LEN]
    ensures { result ≡ evm_value key.now (values_under names.now attrs.now ++ meta_bytes meta.now
        ++ place_bytes format meta.now) }
{
    let mut state = HmacSha1::new(key);
    feed_values(&mut state, names, attrs);
    feed_meta(&mut state, meta);
    feed_place(&mut state, meta, format);
    with_type(&state.finish())
}
