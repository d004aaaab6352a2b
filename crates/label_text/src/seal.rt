// The attributes that a seal would leave on a file.
ghost use Rattle.std.specs.Prelude.{◌≡◌, IfOk};
ghost use Rattle.script_text.specs.Files.{sealed};

use evm_verify::Evm;
use hash_algos::Algo;
use inode_hashing::digest_of_content;
use label_values::{MAX_LABEL, write_label};
use script_text::FileBlock;
use std::alloc::AllocError as OutOfMemory;
use xattr_store::{Attrs, IMA_NAME, NewValue};

/// The attributes of the file as a seal would leave them: with its label and, if there is a key,
/// its HMAC renewed.
pub fn sealed_attrs(evm: &Evm, hash: Algo, file: &FileBlock) -> Result<Attrs, OutOfMemory>
    ensures { IfOk result (λ attrs. attrs ≡ (sealed evm.now hash file.now).image.attrs) }
{
    let mut out = [0; MAX_LABEL];
    let digest = digest_of_content(hash, &file.image.content);
    let len = write_label(&digest, &mut out);
    let mut attrs = file.image.attrs.copy()?;
    let label = NewValue {
        name: IMA_NAME,
        value: Some(&out[..len]),
    };
    evm.change(&mut attrs, label, &file.image.meta)?;
    Ok(attrs)
}
