//! The laws of journals: what holds of every legal journal, what a caller knows of a journal from
//! its own entries, and what an inode's pass of the measurement list has of the inode's journal.
//! They are proved from the definitions alone.
//!
//! The promises are contracts of functions that do nothing; the other laws are lemmas of `proofs/`,
//! stated in `specs/`. Each holds for every journal that a cell or a run keeps legal.
#![tactic(auto)]

ghost use Rattle.journal_laws.specs.Laws.{Admission, CloseLabel, Coverage, FewCollections, Freshness};
ghost use Rattle.journal_laws.specs.Executed.{Executed, NeverBoth};

/// Whenever no writer holds an inode, its digest and verdicts in force equal those computed afresh.
pub fn fresh_in_force()
    ensures { Freshness }
{}

/// Enforcing appraisal admits a file exactly on Pass. If the file wasn't written since its digest's
/// collection began, it is admitted exactly if digest and HMAC fit, and its verdict is the one
/// computed afresh.
pub fn enforced_admission()
    ensures { Admission }
{}

/// The label that a last writer's close writes is that of the content at that step, by the script's
/// default algorithm.
pub fn label_at_close()
    ensures { CloseLabel }
{}

/// Takes begin at most one collection more than there are events that voided the digest before the
/// last such take.
pub fn few_collections()
    ensures { FewCollections }
{}

/// Each read of a read-only file is covered: for every earlier check whose action measures, the
/// list has the digest of the present content, at the place that a later grant names, or a
/// violation of the inode from the check or later.
pub fn covered_reads()
    ensures { Coverage }
{}

/// No inode is executed and open for writing at the same time.
pub fn never_executed_and_written()
    ensures { NeverBoth }
{}

/// While a file is held as an execution, as what the kernel reads itself is, nothing disturbs it:
/// no write is made or tried from its count on, its checks find no violation, each entry that its
/// grants name has the digest of its content, and in mode enforce they admit it exactly if it fits.
pub fn executed_is_undisturbed()
    ensures { Executed }
{}
