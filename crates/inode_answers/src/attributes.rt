// Changes of attributes, each with the HMAC that it renews: all or nothing, without a copy of the
// attribute list. If memory runs out, the attributes are unchanged.
ghost use Rattle.std.specs.Prelude.{◌≡◌, false, OnOk, OnErr};
ghost use Rattle.std.specs.Option.{option_copied};
ghost use Rattle.inode_events.specs.Says.{is_too_long};
ghost use Rattle.inode_answers.specs.Changes.{IsRewriting, changed_on, labelled_on, mended_on, rewritten};

use evm_verify::Evm;
use hash_algos::Digest;
use inode_events::{Deed, changed};
use inode_meta::{EvmStatus, Meta};
use label_values::{MAX_LABEL, write_label};
use std::alloc::AllocError as OutOfMemory;
use xattr_store::{Attrs, Bytes, IMA_NAME, NewValue};

/// A call's change of one attribute. The HMAC is renewed if EVM protects the name.
pub fn change_on(
    evm: &Evm,
    attrs: &mut Attrs,
    meta: &Meta,
    name: &[u8],
    value: &Option<Bytes>,
) -> Result<(), OutOfMemory>
    requires { is_too_long value.now ≡ false }
    ensures ok { OnOk result (attrs.new
        ≡ changed_on evm.now name.now value.now meta.now attrs.old) }
    ensures err { OnErr result (attrs.new ≡ attrs.old) }
{
    let value = match value {
        Some(bytes) => Some(bytes.as_slice()),
        None => None,
    };
    let change = NewValue { name, value };
    if evm.protects(name) {
        evm.change(attrs, change, meta)
    } else {
        attrs.change(change)
    }
}

/// Writes the label of a digest, and renews the HMAC.
pub fn label_on(
    evm: &Evm,
    attrs: &mut Attrs,
    meta: &Meta,
    digest: &Digest,
) -> Result<(), OutOfMemory>
    ensures ok { OnOk result (attrs.new ≡ labelled_on evm.now digest.now meta.now attrs.old) }
    ensures err { OnErr result (attrs.new ≡ attrs.old) }
{
    let mut label = [0; MAX_LABEL];
    let len = write_label(digest, &mut label);
    let change = NewValue {
        name: IMA_NAME,
        value: Some(&label[..len]),
    };
    evm.change(attrs, change, meta)
}

/// Mode fix mends the attributes if `mends` is true: the label of the digest is written, or, if the
/// HMAC has the older form, only the HMAC is renewed.
pub fn mend_on(
    evm: &Evm,
    attrs: &mut Attrs,
    meta: &Meta,
    mends: bool,
    digest: &Digest,
) -> Result<(), OutOfMemory>
    ensures ok { OnOk result (attrs.new
        ≡ mended_on evm.now mends digest.now meta.now attrs.old) }
    ensures err { OnErr result (attrs.new ≡ attrs.old) }
{
    if !mends {
        return Ok(());
    }
    match evm.status(attrs, meta) {
        EvmStatus::Old => evm.renew(attrs, meta),
        _ => label_on(evm, attrs, meta, digest),
    }
}

/// The attribute writes of a deed that is done: a call's change of an attribute, the HMAC over new
/// metadata, or at a close the label of the digest that is given.
pub fn rewrite(
    evm: &Evm,
    attrs: &mut Attrs,
    meta: &Meta,
    deed: &Deed,
    digest: Option<&Digest>,
) -> Result<(), OutOfMemory>
    requires { IsRewriting deed.now (option_copied digest) }
    ensures ok { OnOk result (attrs.new
        ≡ rewritten evm.now deed.now (option_copied digest.entry) meta.now attrs.old) }
    ensures err { OnErr result (attrs.new ≡ attrs.old) }
{
    match deed {
        Deed::SetAttr { name, value, .. } => {
            change_on(evm, attrs, meta, name.as_slice(), value.get())
        }
        Deed::SetMeta { change } => evm.renew(attrs, &changed(*change, *meta)),
        Deed::CloseFinish { .. } => match digest {
            Some(digest) => label_on(evm, attrs, meta, digest),
            None => unreachable!(),
        },
        _ => unreachable!(),
    }
}
