//! The words of the line of a task.

ghost use Rattle.std.specs.Prelude.{◌≡◌, map};
ghost use Rattle.script_fields.specs.TaskFields.{admin_of, cred_in, cred_of};

use crate::words::id_after;
use inode_meta::Cred;

/// The credentials in the words of a task, `admin` among them if it is the fifth.
pub fn cred_in(fields: &[&[u8]]) -> Option<Cred>
    ensures { result ≡ cred_in (map (λ w. w.now) fields.now) }
{
    let [uid, euid, gid, egid, more @ ..] = fields else {
        return None;
    };
    cred_of(uid, euid, gid, egid, more)
}

fn cred_of(uid: &[u8], euid: &[u8], gid: &[u8], egid: &[u8], more: &[&[u8]]) -> Option<Cred>
    ensures { result ≡ cred_of uid.now euid.now gid.now egid.now (map (λ w. w.now) more.now) }
{
    if let Some(uid) = id_after(b"uid=", uid)
        && let Some(euid) = id_after(b"euid=", euid)
        && let Some(gid) = id_after(b"gid=", gid)
        && let Some(egid) = id_after(b"egid=", egid)
        && let Some(admin) = admin_of(more)
    {
        Some(Cred {
            uid,
            euid,
            gid,
            egid,
            admin,
        })
    } else {
        None
    }
}

fn admin_of(more: &[&[u8]]) -> Option<bool>
    ensures { result ≡ admin_of (map (λ w. w.now) more.now) }
{
    match more {
        [] => Some(false),
        [word] => {
            if *word == b"admin".as_slice() {
                Some(true)
            } else {
                None
            }
        }
        _ => None,
    }
}
