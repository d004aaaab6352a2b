// HMACs of the vectors of RFC 2202.

use crate::cases::Cases;
use hmac_core::*;

// The keys and messages of RFC 2202, section 3, with their HMACs.
#[rattlefmt::skip]
static VECTORS: [(&[u8], &[u8], &[u8]); 7] = [
    (&[0x0b; 20],
        b"Hi There",
        b"\xb6\x17\x31\x86\x55\x05\x72\x64\xe2\x8b\xc0\xb6\xfb\x37\x8c\x8e\xf1\x46\xbe\x00"),
    (b"Jefe",
        b"what do ya want for nothing?",
        b"\xef\xfc\xdf\x6a\xe5\xeb\x2f\xa2\xd2\x74\x16\xd5\xf1\x84\xdf\x9c\x25\x9a\x7c\x79"),
    (&[0xaa; 20],
        &[0xdd; 50],
        b"\x12\x5d\x73\x42\xb9\xac\x11\xcd\x91\xa3\x9a\xf4\x8a\xa1\x7b\x4f\x63\xf1\x75\xd3"),
    (&[1, 2, 3, 4, 5, 6, 7, 8, 9, 10, 11, 12, 13, 14, 15, 16, 17, 18, 19, 20, 21, 22, 23, 24, 25],
        &[0xcd; 50],
        b"\x4c\x90\x07\xf4\x02\x62\x50\xc6\xbc\x84\x14\xf9\xbf\x50\xc8\x6c\x2d\x72\x35\xda"),
    (&[0x0c; 20],
        b"Test With Truncation",
        b"\x4c\x1a\x03\x42\x4b\x55\xe0\x7f\xe7\xf2\x7b\xe1\xd5\x8b\xb9\x32\x4a\x9a\x5a\x04"),
    (&[0xaa; 80],
        b"Test Using Larger Than Block-Size Key - Hash Key First",
        b"\xaa\x4a\xe5\xe1\x52\x72\xd0\x0e\x95\x70\x56\x37\xce\x8a\x3b\x55\xed\x40\x21\x12"),
    (&[0xaa; 80],
        b"Test Using Larger Than Block-Size Key and Larger Than One Block-Size Data",
        b"\xe8\xe9\x9d\x0f\x45\x23\x7d\x78\x6d\x6b\xba\xa7\x96\x5c\x78\x08\xbb\xff\x1a\x91"),
];

// How many bytes the first piece of a message has.
static CUTS: [(&str, usize); 3] = [
    ("in one piece", 0),
    ("after one byte", 1),
    ("after 64 bytes", 64),
];

// The HMAC of the message, fed in two pieces, the first of `cut` bytes.
fn mac_in_two(key: &[u8], message: &[u8], cut: usize) -> [u8; MAC_LEN] {
    let (first, rest) = message.split_at(cut.min(message.len()));
    let mut state = HmacSha1::new(key);
    state.feed(first);
    state.feed(rest);
    state.finish()
}

// Whether the HMAC of each message, of which the first piece has `cut` bytes, is its row's.
fn agree(cut: usize) -> bool {
    let mut all = true;
    for (key, message, mac) in &VECTORS {
        all &= mac_in_two(key, message, cut).as_slice() == *mac;
    }
    all
}

/// Compares the HMACs of messages in one and in two pieces.
pub fn try_all(cases: &mut Cases) {
    for (name, cut) in &CUTS {
        cases.add("RFC 2202", name, agree(*cut));
    }
}
