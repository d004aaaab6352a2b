// The digest, the name and the signature that a template shows of a file.

ghost use Rattle.std.specs.Prelude.{◌≡◌, IsTrue};
ghost use Rattle.hash_algos.specs.Digest.{HasDigestSize};
ghost use Rattle.ima_templates.specs.Path.{last_component, IsMeasuredPath};
ghost use Rattle.ima_templates.specs.Shown.{shown_digest, shown_name, shown_sig};

use hash_algos::Digest;
use inode_meta::Template;

// The digest in the field `d` or `d-ng`: the SHA-1 digest under `ima`, else the collected one.
pub(crate) fn shown_digest(template: Template, file: &Digest, sha1: &Digest) -> Digest
    ensures digest { result ≡ shown_digest template file.now sha1.now }
    ensures size { HasDigestSize result }
{
    let shown = match template {
        Template::Ima => sha1,
        Template::ImaNg | Template::ImaSig | Template::ImaBuf => file,
    };
    prove!(shown.as_slice().len() == shown.algo().size());
    *shown
}

// The name in the field `n` or `n-ng`: the path, or under `ima` the last component of a long path.
pub(crate) fn shown_name<'a>(template: Template, path: &'a [u8]) -> &'a [u8]
    ensures { result.now ≡ shown_name template path.now }
{
    if template == Template::Ima && path.len() > 255 {
        last_component(path)
    } else {
        path
    }
}

// The signature or the buffer if the template shows one, else nothing.
pub(crate) fn shown_sig<'a>(template: Template, sig: &'a [u8]) -> &'a [u8]
    ensures { result.now ≡ shown_sig template sig.now }
{
    match template {
        Template::Ima | Template::ImaNg => &[],
        Template::ImaSig | Template::ImaBuf => sig,
    }
}

/// Whether the template can show this path or name: it has 1 to 1,024 bytes from 0x21 to 0x7e, and
/// under `ima` its last component has 1 to 255 bytes.
pub fn can_show(template: Template, path: &[u8]) -> bool
    ensures only { IsTrue result → IsMeasuredPath template path.now }
    ensures each { IsMeasuredPath template path.now → IsTrue result }
{
    let component = last_component(path).len();
    (1 <= path.len() && path.len() <= 1024)
        && path.iter().all(|b| 0x21 <= *b && *b <= 0x7e)
        && (template != Template::Ima || (1 <= component && component <= 255))
}

// The part after the last slash, or the whole path if it has none.
fn last_component(path: &[u8]) -> &[u8]
    ensures { result.now ≡ last_component path.now }
{
    let mut start = 0;
    for (i, byte) in path.iter().enumerate() {
        if *byte == b'/' {
            start = i + 1;
        }
    }
    &path[start..]
}
