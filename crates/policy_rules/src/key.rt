//! The keys of a rule: for each its name, the actions that can have it, and its position in the
//! table.

ghost use Rattle.std.specs.Prelude.{◌≡◌, ◌&&◌, length, take, drop, if◌then◌else◌, None, Some};
ghost use Rattle.std.specs.Option.{option_map};
ghost use Rattle.policy_rules.specs.Key.{fits, is_object_key, is_other_key, is_subject_key, is_unsupported_key, key_of, row, starts, value_in};
ghost use Rattle.policy_rules.specs.Values.{is_sign};

use crate::rule::Act;

/// The subject of a condition or an option of a rule.
#[derive(Clone, Copy)]
pub enum Key {
    Func,
    Mask,
    FsMagic,
    FsUuid,
    FsName,
    Uid,
    Euid,
    Gid,
    Egid,
    Fowner,
    Fgroup,
    AppraiseType,
    AppraiseFlag,
    AppraiseAlgos,
    Directio,
    Pcr,
    Template,
}

/// The form of a token after the name of its key.
#[derive(Clone, Copy)]
pub enum Shape {
    /// An arbitrary value.
    Valued,
    /// A sign, which is `=`, `>` or `<`, and then a number.
    Signed,
    /// Nothing follows the name.
    Bare,
}

impl Key {
    /// All keys, in the order in which they are printed.
    pub const ALL: [Key; 17] = [
        Key::Func,
        Key::Mask,
        Key::FsMagic,
        Key::FsUuid,
        Key::FsName,
        Key::Uid,
        Key::Euid,
        Key::Gid,
        Key::Egid,
        Key::Fowner,
        Key::Fgroup,
        Key::AppraiseType,
        Key::AppraiseFlag,
        Key::AppraiseAlgos,
        Key::Directio,
        Key::Pcr,
        Key::Template,
    ];

    /// The text with which a token of the key begins.
    pub fn name(self) -> &'static str
        ensures { result.now ≡ (row self).name }
    {
        match self {
            Key::Func => "func=",
            Key::Mask => "mask=",
            Key::FsMagic => "fsmagic=",
            Key::FsUuid => "fsuuid=",
            Key::FsName => "fsname=",
            Key::Uid => "uid",
            Key::Euid => "euid",
            Key::Gid => "gid",
            Key::Egid => "egid",
            Key::Fowner => "fowner",
            Key::Fgroup => "fgroup",
            Key::AppraiseType => "appraise_type=",
            Key::AppraiseFlag => "appraise_flag=",
            Key::AppraiseAlgos => "appraise_algos=",
            Key::Directio => "permit_directio",
            Key::Pcr => "pcr=",
            Key::Template => "template=",
        }
    }

    fn shape(self) -> Shape
        ensures { result ≡ (row self).shape }
    {
        match self {
            Key::Uid | Key::Euid | Key::Gid | Key::Egid | Key::Fowner | Key::Fgroup => {
                Shape::Signed
            }
            Key::Directio => Shape::Bare,
            _ => Shape::Valued,
        }
    }

    /// Whether a rule with this action can have the key.
    pub fn belongs(self, act: Act) -> bool
        ensures { result ≡ (row self).belongs act }
    {
        match self {
            Key::AppraiseType | Key::AppraiseFlag | Key::AppraiseAlgos => act == Act::Appraise,
            Key::Pcr | Key::Template => act == Act::Measure,
            _ => true,
        }
    }

    fn value_in(self, token: &[u8]) -> Option<&[u8]>
        ensures { option_map (λ v. v.now) result ≡ value_in self token.now }
    {
        let value = token.strip_prefix(self.name().as_bytes())?;
        if self.shape().fits(value) {
            Some(value)
        } else {
            None
        }
    }
}

impl Shape {
    fn fits(self, value: &[u8]) -> bool
        ensures { result ≡ fits self value.now }
    {
        match self {
            Shape::Valued => true,
            Shape::Signed => is_sign(value),
            Shape::Bare => value.is_empty(),
        }
    }
}

fn is_sign(value: &[u8]) -> bool
    ensures { result ≡ is_sign value.now }
{
    match value {
        [b'=' | b'>' | b'<', ..] => true,
        _ => false,
    }
}

/// The key of a token and its value: the sign of an id key belongs to the value, and a key that
/// takes no value has an empty one.
pub fn key_of(token: &[u8]) -> Option<(Key, &[u8])>
    ensures { option_map (λ k. (k.0, k.1.now)) result ≡ key_of token.now }
{
    for key in Key::ALL {
        if let Some(value) = key.value_in(token) {
            return Some((key, value));
        }
    }
    None
}

/// Whether the token has a key that the kernel knows but that isn't supported here.
pub fn is_unsupported_key(token: &[u8]) -> bool
    ensures { result ≡ is_unsupported_key token.now }
{
    is_subject_key(token) || is_object_key(token) || is_other_key(token)
}

// Whether the token has a key that asks a security module about the task.
fn is_subject_key(token: &[u8]) -> bool
    ensures { result ≡ is_subject_key token.now }
{
    starts(token, b"subj_user=") || starts(token, b"subj_role=") || starts(token, b"subj_type=")
}

// Whether the token has a key that asks a security module about the inode.
fn is_object_key(token: &[u8]) -> bool
    ensures { result ≡ is_object_key token.now }
{
    starts(token, b"obj_user=") || starts(token, b"obj_role=") || starts(token, b"obj_type=")
}

fn is_other_key(token: &[u8]) -> bool
    ensures { result ≡ is_other_key token.now }
{
    starts(token, b"keyrings=")
        || starts(token, b"label=")
        || starts(token, b"digest_type=")
        || starts(token, b"fs_subtype=")
}

// `starts_with`, under a contract that spells out the cases.
fn starts(token: &[u8], name: &[u8]) -> bool
    ensures { result ≡ starts token.now name.now }
{
    token.starts_with(name)
}
