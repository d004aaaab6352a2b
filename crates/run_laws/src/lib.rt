//! What holds of the model's runs.
//!
//! - How the journals of all inodes, the measurement list and the appended rules come together:
//!   what each task knows of the places in its outcomes, which rules decide its checks while rules
//!   are appended, and that closing the list and the inodes gives a merged run.
//! - How a run goes on and how it ends (`specs/progress/`): the next step of a task may be made,
//!   and at a moment at which no task moves each task is done or the run is stuck.
//! - What holds of every shown run, at each place of each of its journals (`specs/shown/`), and of
//!   each call by which the kernel has read a module or firmware (`specs/kernel_reads/`). Each of
//!   these laws is the contract of a function with an empty body.
//!
//! The other laws are lemmas of `proofs/`.
#![tactic(auto)]

ghost use Rattle.run_laws.specs.kernel_reads.Reads.{KernelReadsSoundly};
ghost use Rattle.run_laws.specs.shown.Laws.{ShownIsAdmitted, ShownIsCovered, ShownIsDenied, ShownIsFresh, ShownIsLabelled, ShownIsRarelyHashed, ShownIsSound};

/// Freshness: whenever no writer holds an inode, its digest and its verdicts in force equal freshly
/// computed ones.
pub fn shown_is_fresh()
    ensures { ShownIsFresh }
{}

/// Coverage: whatever is read through a read-only file that a rule measures has its digest in the
/// measurement list, or the inode has a violation there.
pub fn shown_is_covered()
    ensures { ShownIsCovered }
{}

/// Admission: enforcing appraisal admits an unmodified file exactly if its digest and HMAC match.
pub fn shown_is_admitted()
    ensures { ShownIsAdmitted }
{}

/// If the call of a refused file has been answered, its reply is a denial with the cause of the
/// verdict.
pub fn shown_is_denied()
    ensures { ShownIsDenied }
{}

/// The label written when the last writer closes is the one of the content at that step.
pub fn shown_is_labelled()
    ensures { ShownIsLabelled }
{}

/// Takes begin at most one collection more than there are events that voided a digest.
pub fn shown_is_rarely_hashed()
    ensures { ShownIsRarelyHashed }
{}

/// The conjunction of the laws of shown runs.
pub fn shown_is_sound()
    ensures { ShownIsSound }
{}

/// Of each `module` and `firmware` call of a shown run that was answered with `ok`: from the call's
/// count to its close no write or truncation of the inode was done or refused; its check found no
/// violation; if it was measured, the entry at its grant's place is no violation and has the digest
/// of the very content that the call has read; and in mode enforce, if its check appraises, the
/// file with that content fits.
pub fn kernel_reads_soundly()
    ensures { KernelReadsSoundly }
{}
