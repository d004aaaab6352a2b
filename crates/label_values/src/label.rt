// The value of `security.ima`. The first byte is the label's type (the kernel's
// `enum evm_ima_xattr_type`).

ghost use Rattle.std.specs.Option.{option_copied};
ghost use Rattle.std.specs.Prelude.{◌≡◌, ◌+◌, ◌≤◌, ◌++◌, drop, length};
ghost use Rattle.label_values.specs.Labels.{collect_algo, ends_in_zeros, is_plain, label_of, numbered_algo, plain_algo, read_label};

use hash_algos::{Algo, Digest, by_id};

/// The length in bytes of the longest label that [`write_label`] writes: two bytes and a SHA-512.
pub const MAX_LABEL: usize = 66;

const _: () = prove!(MAX_LABEL == 66);

// Types of labels: a digest, a signature, a digest with its algorithm's number, a portable EVM
// signature, and a verity signature.
const DIGEST: u8 = 1;

const SIGNATURE: u8 = 3;

const NUMBERED_DIGEST: u8 = 4;

const PORTABLE_SIGNATURE: u8 = 5;

const VERITY_SIGNATURE: u8 = 6;

/// The meaning of a value of `security.ima`.
#[derive(Clone, Copy)]
pub enum Label {
    /// There is no value, or an empty one.
    Missing,
    /// A digest (types 1 and 4).
    Sum {
        /// The digest's algorithm, by the label's length or number, or else the default.
        algo: Algo,
        /// The offset of the digest's first byte: 1 for type 1, 2 for type 4. It may be past the
        /// end of the label.
        from: usize,
    },
    /// A signature, a portable EVM signature or a verity signature (types 3, 5 and 6).
    Signature,
    /// Any other type.
    Unknown,
}

// Whether the last four bytes are zero.
fn has_zeros_at_end(bytes: &[u8]) -> bool
    ensures { result ≡ ends_in_zeros bytes.now }
{
    bytes[bytes.len().saturating_sub(4)..] == [0; 4]
}

// The algorithm of a type 1 label. A label of 21 bytes that ends in four zero bytes is a padded
// MD5.
fn algo_by_length(bytes: &[u8], default: Algo) -> Algo
    ensures { result ≡ plain_algo bytes.now default }
{
    match bytes.len() {
        17 => Algo::Md5,
        21 if has_zeros_at_end(bytes) => Algo::Md5,
        21 => Algo::Sha1,
        _ => default,
    }
}

// The algorithm whose number is at the index `place`, or else the default.
fn algo_by_number(bytes: &[u8], place: usize, default: Algo) -> Algo
    ensures { result ≡ numbered_algo bytes.now place default }
{
    match bytes.get(place) {
        Some(number) => by_id(*number).unwrap_or(default),
        None => default,
    }
}

/// Parses a value of `security.ima`, under the script's default algorithm.
pub fn read_label(value: Option<&[u8]>, default: Algo) -> Label
    ensures { result ≡ read_label (option_copied value.entry) default }
{
    let Some(bytes) = value else {
        return Label::Missing;
    };
    match bytes.first() {
        None => Label::Missing,
        Some(&DIGEST) => Label::Sum {
            algo: algo_by_length(bytes, default),
            from: 1,
        },
        Some(&NUMBERED_DIGEST) => Label::Sum {
            algo: algo_by_number(bytes, 1, default),
            from: 2,
        },
        Some(&(SIGNATURE | PORTABLE_SIGNATURE | VERITY_SIGNATURE)) => Label::Signature,
        Some(_) => Label::Unknown,
    }
}

/// The algorithm by which a file with this value of `security.ima` is hashed: that of its digest or
/// of its version 2 signature, or else the script's default.
pub fn collect_algo(value: Option<&[u8]>, default: Algo) -> Algo
    ensures { result ≡ collect_algo (option_copied value.entry) default }
{
    let Some(bytes) = value else {
        return default;
    };
    match bytes {
        [DIGEST, ..] => algo_by_length(bytes, default),
        [NUMBERED_DIGEST, ..] => algo_by_number(bytes, 1, default),
        [SIGNATURE, 2, ..] if bytes.len() > 9 => algo_by_number(bytes, 2, default),
        _ => default,
    }
}

// Whether the label of the digest is written without the algorithm's number. A SHA-1 that ends in
// four zero bytes gets the number, since it would otherwise be read as a padded MD5.
fn is_plain(d: &Digest) -> bool
    ensures { result ≡ is_plain d.now.algo d.now.bytes }
{
    match d.algo() {
        Algo::Md5 => true,
        Algo::Sha1 => !has_zeros_at_end(d.as_slice()),
        _ => false,
    }
}

// Writes the header and then the bytes to the beginning of `out`, and returns their total length.
fn write_front(out: &mut [u8], header: &[u8], bytes: &[u8]) -> usize
    requires { length header.now + length bytes.now ≤ length out.old }
    ensures written { out.new ≡ header.now ++ bytes.now ++ drop result out.old }
    ensures length { result ≡ length header.now + length bytes.now }
{
    let end = header.len() + bytes.len();
    out[..header.len()].copy_from_slice(header);
    out[header.len()..end].copy_from_slice(bytes);
    end
}

/// Writes the label of a digest to the beginning of `out`, as the kernel does, and returns its
/// length: type 1 for MD5 and SHA-1, type 4 with the algorithm's number for the others. A SHA-1
/// that ends in four zero bytes is written as type 4.
pub fn write_label(d: &Digest, out: &mut [u8; MAX_LABEL]) -> usize
    ensures written { out.new ≡ label_of d.now ++ drop result out.old }
    ensures length { result ≡ length (label_of d.now) }
{
    if is_plain(d) {
        write_front(out, &[DIGEST], d.as_slice())
    } else {
        write_front(out, &[NUMBERED_DIGEST, d.algo().id()], d.as_slice())
    }
}
