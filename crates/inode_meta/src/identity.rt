/// The metadata of an inode that EVM covers, including the UUID of its file system.
#[derive(Clone, Copy, PartialEq, Eq)]
pub struct Meta {
    /// The inode number (`i_ino`).
    pub ino: u64,
    /// The inode's generation (`i_generation`).
    pub generation: u32,
    /// The owning user, as an ID in the initial user namespace.
    pub uid: u32,
    /// The owning group, as an ID in the initial user namespace.
    pub gid: u32,
    /// The file type and the permission bits, as in `st_mode`.
    pub mode: u16,
    /// The UUID of the inode's file system, most significant byte first. No call changes it.
    pub place: u128,
}

/// The credentials of a task.
#[derive(Clone, Copy)]
pub struct Cred {
    /// The real user ID.
    pub uid: u32,
    /// The effective user ID.
    pub euid: u32,
    /// The real group ID.
    pub gid: u32,
    /// The effective group ID.
    pub egid: u32,
    /// Whether the task has `CAP_SYS_ADMIN`, which a change of `security.ima` requires.
    pub admin: bool,
}
