// What a grant answers: the verdict, whether the mode admits it, and what mode fix mends.
ghost use Rattle.std.specs.Prelude.{◌≡◌};
ghost use Rattle.ima_templates.specs.declared.entry.Placed.{Placed as AnyPlaced};
ghost use Rattle.inode_cell.specs.Granting.{placing};
ghost use Rattle.inode_events.specs.Checks.{Check};
ghost use Rattle.inode_events.specs.Grants.{granted, mend_of, mends, verdict_for};
ghost use Rattle.inode_events.specs.NewestFirst.{newest_first};
ghost use Rattle.inode_events.specs.Verdicts.{judged};
ghost use Rattle.inode_state.specs.Collecting.{IsAsked};

use crate::cell::InodeCell;
use hash_algos::{AlgoSet, Digest};
use ima_appraise::{mend_for, verdict};
use inode_answers::{admits, appraises, is_mend};
use inode_events::Grant;
use inode_meta::{EvmStatus, Mode, Need};
use inode_state::{Asked, key_of};
use label_values::{Mend, Verdict, read_label};
use rule_match::policy::Action;

impl InodeCell {
    // The verdict computed afresh over this digest.
    fn judged(&self, need: Need, algos: Option<AlgoSet>, digest: &Digest) -> Verdict
        ensures { result ≡ judged self.now.inode need algos digest.now
            (newest_first self.now.list) }
    {
        verdict(
            need,
            algos,
            self.label(),
            self.status(),
            digest,
            self.kept.settings().hash,
            self.size(),
            self.is_new(),
        )
    }

    // The verdict, if the file is appraised: the one in force, or else one computed over this
    // digest.
    fn verdict_for(&self, asked: &Asked, digest: &Digest) -> Option<Verdict>
        ensures { (check : Check) → IsAsked check asked.now
            → result ≡ verdict_for self.now.inode check digest.now (newest_first self.now.list) }
    {
        if !appraises(self.kept.settings(), &asked.action) {
            return None;
        }
        match self.kept.state().verdicts.get(key_of(asked)) {
            Some(verdict) => Some(verdict),
            None => Some(self.judged(asked.action.need, asked.action.algos, digest)),
        }
    }

    // The change that mode fix would make for the verdict.
    fn mend_of(&self, action: &Action, digest: &Digest, found: Verdict) -> Mend
        ensures { result ≡ mend_of self.now.inode action.now digest.now found
            (newest_first self.now.list) }
    {
        let default = self.kept.settings().hash;
        let label = self.label();
        let sound = verdict(
            action.need,
            action.algos,
            label,
            EvmStatus::Pass,
            digest,
            default,
            self.size(),
            self.is_new(),
        );
        mend_for(found, sound, self.status(), read_label(label, default))
    }

    // Whether the mode is fix and changes the attributes.
    fn mends(&self, action: &Action, digest: &Digest, verdict: Option<Verdict>) -> bool
        ensures { result ≡ mends self.now.inode action.now digest.now verdict
            (newest_first self.now.list) }
    {
        match verdict {
            None => false,
            Some(found) => {
                matches!(self.kept.settings().mode, Mode::Fix)
                    && is_mend(self.mend_of(action, digest, found))
            }
        }
    }

    // The grant by this digest, except where its entry stands.
    pub(crate) fn answer(&self, asked: &Asked, digest: &Digest) -> Grant
        ensures { (check : Check) (placed : AnyPlaced) → IsAsked check asked.now
            → placing asked.now.action placed result ≡ granted self.now.inode check placed
            digest.now (verdict_for self.now.inode check digest.now
            (newest_first self.now.list)) (newest_first self.now.list) }
    {
        let verdict = self.verdict_for(asked, digest);
        let admitted = admits(self.kept.settings().mode, verdict);
        let labelled = self.mends(&asked.action, digest, verdict);
        Grant {
            placed: None,
            verdict,
            admitted,
            labelled,
        }
    }
}
