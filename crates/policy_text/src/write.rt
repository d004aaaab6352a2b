//! Printing policies and single rules.

ghost use Rattle.std.specs.Prelude.{◌≡◌, [], ◌∷◌, ◌++◌, true, flat_map, Ok, IfOk, OnOk, OnErr};
ghost use Rattle.std.specs.Fmt.{decimal};
ghost use Rattle.std.specs.List.{list_all};
ghost use Rattle.inode_meta.specs.Words.{template_word};
ghost use Rattle.text_forms.specs.FileSystems.{magic_text, uuid_text};
ghost use Rattle.text_forms.specs.Lines.{is_one_line};
ghost use Rattle.text_forms.specs.Words.{words};
ghost use Rattle.policy_text.specs.Grammar.{policy_of, rule_of};
ghost use Rattle.policy_rules.specs.Key.{keys, row, told};
ghost use Rattle.policy_rules.specs.RuleValue.{IsRule};
ghost use Rattle.policy_text.specs.Spelling.{is_visible_word, key_text, policy_text, rule_text, rule_words};
ghost use Rattle.policy_rules.specs.ValueTexts.{algos_text, func_word, id_text, mask_text};

use hash_algos::{Algo, AlgoSet};
use inode_meta::Template;
use policy_rules::{Func, IdTest, Key, MaskTest, Policy, Rule, mask_bits_word};
use std::alloc::{AllocError as OutOfMemory, Global};
use std::io::{self, Write};
use text_forms::{FsUuid, Magic};
use xattr_store::Bytes;

/// The canonical text of a policy, one line for each rule. Parsing it gives the same policy.
pub fn print(alloc: Global, policy: &Policy) -> Result<Vec<u8>, OutOfMemory>
    ensures text { IfOk result (λ v. v.items ≡ policy_text policy.now) }
    ensures again { IfOk result (λ v. policy_of v.items ≡ Ok policy.now) }
{
    let mut text = Vec::new(alloc);
    for rule in policy.rules() {
        push_line(&mut text, rule)?;
    }
    Ok(text)
}

fn push_line(text: &mut Vec<u8>, rule: &Rule) -> Result<(), OutOfMemory>
    ensures text { OnOk result (
        text.new.items ≡ text.old.items ++ (rule_text rule.now ++ 10 ∷ [])) }
    ensures rule { IsRule rule.now }
{
    match push_rule(text, rule) {
        Ok(()) => {
            text.push(b'\n')?;
            Ok(())
        }
        Err(_) => Err(OutOfMemory),
    }
}

/// Appends the canonical text of a rule to `out`, without a newline. Parsing it gives the same
/// rule. On an error `out` doesn't change.
pub fn print_rule(alloc: Global, rule: &Rule, out: &mut Vec<u8>) -> Result<(), OutOfMemory>
    ensures text { OnOk result (out.new.items ≡ out.old.items ++ rule_text rule.now) }
    ensures again { rule_of (rule_text rule.now) ≡ Ok rule.now }
    // The text consists of words separated by single spaces, and has no newline.
    ensures words { words (rule_text rule.now) ≡ rule_words rule.now }
    ensures visible { list_all is_visible_word (rule_words rule.now) ≡ true }
    ensures one_line { is_one_line (rule_text rule.now) ≡ true }
    ensures err { OnErr result (out.new.items ≡ out.old.items) }
{
    let mut text = Vec::new(alloc);
    match push_rule(&mut text, rule) {
        Ok(()) => out.extend_from_slice(text.as_slice()),
        Err(_) => Err(OutOfMemory),
    }
}

fn push_rule(out: &mut Vec<u8>, rule: &Rule) -> io::Result<()>
    ensures text { OnOk result (out.new.items ≡ out.old.items ++ rule_text rule.now) }
    ensures rule { IsRule rule.now }
{
    out.write_all(rule.act.word().as_bytes())?;
    push_keys(out, rule)?;
    Ok(())
}

fn push_keys(out: &mut Vec<u8>, rule: &Rule) -> io::Result<()>
    ensures { OnOk result (out.new.items ≡ out.old.items ++ flat_map (key_text rule.now) keys) }
{
    for key in Key::ALL {
        push_key(out, rule, key)?;
    }
    Ok(())
}

fn push_key(out: &mut Vec<u8>, rule: &Rule, key: Key) -> io::Result<()>
    ensures { OnOk result (out.new.items ≡ out.old.items ++ key_text rule.now key) }
{
    if !rule.has(key) {
        return Ok(());
    }
    out.write_all(b" ")?;
    out.write_all(key.name().as_bytes())?;
    push_value(out, rule, key)
}

// Appends the value of a key that the rule has.
fn push_value(out: &mut Vec<u8>, rule: &Rule, key: Key) -> io::Result<()>
    ensures { OnOk result (out.new.items ≡ out.old.items ++ (row key).spelled rule.now) }
{
    match key {
        Key::Func => push_func(out, rule.func),
        Key::Mask => push_mask(out, rule.mask),
        Key::FsMagic => push_magic(out, rule.fsmagic),
        Key::FsUuid => push_uuid(out, rule.fsuuid),
        Key::FsName => push_name(out, &rule.fsname),
        Key::Uid => push_id(out, rule.uid),
        Key::Euid => push_id(out, rule.euid),
        Key::Gid => push_id(out, rule.gid),
        Key::Egid => push_id(out, rule.egid),
        Key::Fowner => push_id(out, rule.fowner),
        Key::Fgroup => push_id(out, rule.fgroup),
        Key::AppraiseType => out.write_all(b"imasig"),
        Key::AppraiseFlag => out.write_all(b"check_blacklist"),
        Key::AppraiseAlgos => push_algos(out, rule.algos),
        Key::Directio => Ok(()),
        Key::Pcr => push_pcr(out, rule.pcr),
        Key::Template => push_template(out, rule.template),
    }
}

fn push_func(out: &mut Vec<u8>, func: Option<Func>) -> io::Result<()>
    ensures { OnOk result (out.new.items ≡ out.old.items ++ told func_word func) }
{
    match func {
        Some(func) => out.write_all(func.word().as_bytes()),
        None => Ok(()),
    }
}

fn push_mask(out: &mut Vec<u8>, mask: Option<MaskTest>) -> io::Result<()>
    ensures { OnOk result (out.new.items ≡ out.old.items ++ told mask_text mask) }
{
    match mask {
        Some(mask) => {
            let sign = if mask.exact { "" } else { "^" };
            write!(out, "{sign}{}", mask_bits_word(mask.bits))
        }
        None => Ok(()),
    }
}

fn push_magic(out: &mut Vec<u8>, magic: Option<u64>) -> io::Result<()>
    ensures { OnOk result (out.new.items ≡ out.old.items ++ told magic_text magic) }
{
    match magic {
        Some(magic) => write!(out, "{}", Magic(magic)),
        None => Ok(()),
    }
}

fn push_uuid(out: &mut Vec<u8>, uuid: Option<u128>) -> io::Result<()>
    ensures { OnOk result (out.new.items ≡ out.old.items ++ told uuid_text uuid) }
{
    match uuid {
        Some(uuid) => write!(out, "{}", FsUuid(uuid)),
        None => Ok(()),
    }
}

fn push_name(out: &mut Vec<u8>, name: &Option<Bytes>) -> io::Result<()>
    ensures { OnOk result (out.new.items ≡ out.old.items ++ told (λ n. n) name.now) }
{
    match name {
        Some(name) => out.write_all(name.as_slice()),
        None => Ok(()),
    }
}

fn push_id(out: &mut Vec<u8>, test: Option<IdTest>) -> io::Result<()>
    ensures { OnOk result (out.new.items ≡ out.old.items ++ told id_text test) }
{
    let (sign, number) = match test {
        Some(IdTest::Is(number)) => ("=", number),
        Some(IdTest::Above(number)) => (">", number),
        Some(IdTest::Below(number)) => ("<", number),
        None => return Ok(()),
    };
    write!(out, "{sign}{number}")
}

fn push_pcr(out: &mut Vec<u8>, pcr: Option<u8>) -> io::Result<()>
    ensures { OnOk result (out.new.items ≡ out.old.items ++ told decimal pcr) }
{
    match pcr {
        Some(pcr) => write!(out, "{pcr}"),
        None => Ok(()),
    }
}

fn push_template(out: &mut Vec<u8>, template: Option<Template>) -> io::Result<()>
    ensures { OnOk result (out.new.items ≡ out.old.items ++ told template_word template) }
{
    match template {
        Some(template) => out.write_all(template.word().as_bytes()),
        None => Ok(()),
    }
}

fn push_algos(out: &mut Vec<u8>, algos: Option<AlgoSet>) -> io::Result<()>
    ensures { OnOk result (out.new.items ≡ out.old.items ++ told algos_text algos) }
{
    let Some(algos) = algos else {
        return Ok(());
    };
    let mut comma = b"".as_slice();
    for algo in Algo::ALL {
        if algos.has(algo) {
            push_after(out, comma, algo.name())?;
            comma = b",";
        }
    }
    Ok(())
}

fn push_after(out: &mut Vec<u8>, comma: &[u8], name: &str) -> io::Result<()>
    ensures { OnOk result (out.new.items ≡ out.old.items ++ (comma.now ++ name.now)) }
{
    out.write_all(comma)?;
    out.write_all(name.as_bytes())?;
    Ok(())
}
