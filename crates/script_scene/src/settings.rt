// The settings that a script makes for all inodes, and the first entry of the measurement list.
ghost use Rattle.std.specs.Prelude.{◌≡◌, IfOk};
ghost use Rattle.hash_algos.specs.declared.algo.Algo.TheVariants.{Sha1};
ghost use Rattle.inode_meta.specs.declared.measurement.Template.TheVariants.{Ima};
ghost use Rattle.script_text.specs.Files.{setup_of};
ghost use Rattle.script_scene.specs.Scene.{IsForFiles, boot_by, settings_of};

use evm_verify::Evm;
use hash_algos::{Algo, Digest};
use ima_templates::{Entry, build};
use inode_events::Settings;
use inode_meta::{DEFAULT_PCR, Template};
use script_text::Script;
use std::alloc::{AllocError as OutOfMemory, Global};

/// EVM as the script's settings configure it.
pub fn evm_of(alloc: Global, script: &Script) -> Result<Evm, OutOfMemory>
    ensures { IfOk result (λ evm. evm ≡ setup_of script.now) }
{
    match &script.key {
        Some(key) => Evm::new(alloc, Some(key.as_slice()), &script.added, script.format),
        None => Evm::new(alloc, None, &script.added, script.format),
    }
}

/// The settings of all inodes of the script.
pub fn settings_of(alloc: Global, script: &Script) -> Result<Settings, OutOfMemory>
    ensures { IfOk result (λ settings. (for_files : IsForFiles script.now)
        → settings ≡ settings_of script.now for_files) }
{
    script.keeps();
    Ok(Settings {
        hash: script.hash,
        template: script.template,
        mode: script.mode,
        evm: evm_of(alloc, script)?,
    })
}

/// The first entry of the list: `boot_aggregate` with this digest, under this template.
pub fn boot_entry(alloc: Global, template: Template, boot: &Digest) -> Result<Entry, OutOfMemory>
    requires { template ≡ Ima → boot.now.algo ≡ Sha1 }
    ensures { IfOk result (λ entry. entry ≡ boot_by template boot.now) }
{
    let zeros = Digest::zeros(Algo::Sha1);
    match template {
        Template::Ima => build(
            alloc,
            DEFAULT_PCR,
            template,
            boot,
            boot,
            b"boot_aggregate",
            &[],
        ),
        _ => build(
            alloc,
            DEFAULT_PCR,
            template,
            boot,
            &zeros,
            b"boot_aggregate",
            &[],
        ),
    }
}
