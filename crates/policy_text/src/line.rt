//! Parsing a rule, token by token.

ghost use Rattle.std.specs.Prelude.{◌≡◌, IsTrue, ok_or, true};
ghost use Rattle.text_forms.specs.Tokens.{tokens};
ghost use Rattle.policy_text.specs.declared.fault.RuleCause.TheVariants as cause;
ghost use Rattle.policy_rules.specs.declared.key.Key.TheVariants as key;
ghost use Rattle.policy_text.specs.Gives.{LineGives};
ghost use Rattle.policy_text.specs.Grammar.{is_skipped, plain_rule, rule_of, with_key, with_token};
ghost use Rattle.policy_rules.specs.Key.{row, with_id};
ghost use Rattle.policy_rules.specs.RuleValue.{is_appraise, is_id, is_measure};

use crate::fault::{LineErr, RuleCause};
use inode_meta::Need;
use policy_rules::{
    Act, IdTest, Key, Rule, act_of, algos_of, func_of, id_of, is_unsupported_key,
    is_unsupported_template, is_unsupported_type, key_of, mask_of, template_of,
};
use std::alloc::Global;
use text_forms::{Tokens, is_word, magic_of, number_of, uuid_of};
use xattr_store::Bytes;

/// Parses the rule of a line; a blank line or a comment isn't a rule.
pub fn rule_of(alloc: Global, line: &[u8]) -> Result<Rule, LineErr>
    ensures { LineGives result (rule_of line.now) }
{
    let mut tokens = Tokens(line);
    let Some(first) = tokens.next() else {
        return Err(LineErr::Refused(RuleCause::BadAction));
    };
    let Some(act) = act_of(first) else {
        return Err(LineErr::Refused(RuleCause::BadAction));
    };
    let mut rule = plain(act);
    for token in tokens {
        rule = with_token(rule, alloc, token)?;
    }
    Ok(rule)
}

/// Whether the line is blank or a comment.
pub fn is_skipped(line: &[u8]) -> bool
    ensures { result ≡ is_skipped (tokens line.now) }
{
    match Tokens(line).next() {
        None => true,
        Some([b'#', ..]) => true,
        Some(_) => false,
    }
}

// Whether the kernel knows the key's value but it isn't supported here.
fn is_left_out(key: Key, value: &[u8]) -> bool
    ensures { result ≡ (row key).left_out value.now }
{
    match key {
        Key::AppraiseType => is_unsupported_type(value),
        Key::Template => is_unsupported_template(value),
        _ => false,
    }
}

// The rule that has this action, and neither conditions nor options.
fn plain(act: Act) -> Rule
    ensures { result ≡ plain_rule act }
{
    Rule {
        act,
        func: None,
        mask: None,
        fsmagic: None,
        fsuuid: None,
        fsname: None,
        uid: None,
        euid: None,
        gid: None,
        egid: None,
        fowner: None,
        fgroup: None,
        need: Need::Any,
        blacklist: false,
        algos: None,
        directio: false,
        pcr: None,
        template: None,
    }
}

fn with_token(rule: Rule, alloc: Global, token: &[u8]) -> Result<Rule, LineErr>
    ensures { LineGives result (with_token rule token.now) }
{
    if is_unsupported_key(token) {
        return Err(LineErr::Refused(RuleCause::Unsupported));
    }
    let Some((key, value)) = key_of(token) else {
        return Err(LineErr::Refused(RuleCause::BadKey));
    };
    with_key(rule, alloc, key, value)
}

fn with_key(rule: Rule, alloc: Global, key: Key, value: &[u8]) -> Result<Rule, LineErr>
    ensures { LineGives result (with_key key value.now rule) }
{
    if !key.belongs(rule.act) {
        return Err(LineErr::Refused(RuleCause::NotForAction));
    }
    if rule.has(key) {
        return Err(LineErr::Refused(RuleCause::Twice));
    }
    if is_left_out(key, value) {
        return Err(LineErr::Refused(RuleCause::Unsupported));
    }
    with_value(rule, alloc, key, value)
}

fn with_value(rule: Rule, alloc: Global, key: Key, value: &[u8]) -> Result<Rule, LineErr>
    requires { (row key).belongs rule.act ≡ true }
    ensures { LineGives result (ok_or ((row key).read value.now rule) cause.BadValue) }
{
    match key {
        Key::Func => with_func(rule, value),
        Key::Mask => with_mask(rule, value),
        Key::FsMagic => with_magic(rule, value),
        Key::FsUuid => with_uuid(rule, value),
        Key::FsName => with_name(rule, alloc, value),
        Key::Uid | Key::Euid | Key::Gid | Key::Egid | Key::Fowner | Key::Fgroup => {
            match id_of(value) {
                Some(test) => Ok(with_id(rule, key, test)),
                None => Err(LineErr::Refused(RuleCause::BadValue)),
            }
        }
        Key::AppraiseType => with_type(rule, value),
        Key::AppraiseFlag => with_flag(rule, value),
        Key::AppraiseAlgos => with_algos(rule, value),
        Key::Directio => with_directio(rule, value),
        Key::Pcr => with_pcr(rule, value),
        Key::Template => with_template(rule, value),
    }
}

fn with_func(mut rule: Rule, value: &[u8]) -> Result<Rule, LineErr>
    ensures { LineGives result (ok_or ((row key.Func).read value.now rule) cause.BadValue) }
{
    let Some(func) = func_of(value) else {
        return Err(LineErr::Refused(RuleCause::BadValue));
    };
    rule.func = Some(func);
    Ok(rule)
}

fn with_mask(mut rule: Rule, value: &[u8]) -> Result<Rule, LineErr>
    ensures { LineGives result (ok_or ((row key.Mask).read value.now rule) cause.BadValue) }
{
    let Some(mask) = mask_of(value) else {
        return Err(LineErr::Refused(RuleCause::BadValue));
    };
    rule.mask = Some(mask);
    Ok(rule)
}

fn with_magic(mut rule: Rule, value: &[u8]) -> Result<Rule, LineErr>
    ensures { LineGives result (ok_or ((row key.FsMagic).read value.now rule) cause.BadValue) }
{
    let Some(magic) = magic_of(value) else {
        return Err(LineErr::Refused(RuleCause::BadValue));
    };
    rule.fsmagic = Some(magic);
    Ok(rule)
}

fn with_uuid(mut rule: Rule, value: &[u8]) -> Result<Rule, LineErr>
    ensures { LineGives result (ok_or ((row key.FsUuid).read value.now rule) cause.BadValue) }
{
    let Some(uuid) = uuid_of(value) else {
        return Err(LineErr::Refused(RuleCause::BadValue));
    };
    rule.fsuuid = Some(uuid);
    Ok(rule)
}

fn with_name(mut rule: Rule, alloc: Global, name: &[u8]) -> Result<Rule, LineErr>
    ensures { LineGives result (ok_or ((row key.FsName).read name.now rule) cause.BadValue) }
{
    if !is_word(name, 255) {
        return Err(LineErr::Refused(RuleCause::BadValue));
    }
    rule.fsname = Some(Bytes::from_slice(alloc, name)?);
    Ok(rule)
}

// Sets the test of an id key; `key` is never one of the others.
fn with_id(mut rule: Rule, key: Key, test: IdTest) -> Rule
    requires { IsTrue (is_id test) }
    ensures { result ≡ with_id key test rule }
{
    match key {
        Key::Uid => rule.uid = Some(test),
        Key::Euid => rule.euid = Some(test),
        Key::Gid => rule.gid = Some(test),
        Key::Egid => rule.egid = Some(test),
        Key::Fowner => rule.fowner = Some(test),
        Key::Fgroup => rule.fgroup = Some(test),
        _ => (),
    }
    rule
}

fn with_type(mut rule: Rule, value: &[u8]) -> Result<Rule, LineErr>
    requires { is_appraise rule.act ≡ true }
    ensures { LineGives result
        (ok_or ((row key.AppraiseType).read value.now rule) cause.BadValue) }
{
    if value != b"imasig".as_slice() {
        return Err(LineErr::Refused(RuleCause::BadValue));
    }
    rule.need = Need::Signature;
    Ok(rule)
}

fn with_flag(mut rule: Rule, value: &[u8]) -> Result<Rule, LineErr>
    requires { is_appraise rule.act ≡ true }
    ensures { LineGives result
        (ok_or ((row key.AppraiseFlag).read value.now rule) cause.BadValue) }
{
    if value != b"check_blacklist".as_slice() {
        return Err(LineErr::Refused(RuleCause::BadValue));
    }
    rule.blacklist = true;
    Ok(rule)
}

fn with_directio(mut rule: Rule, value: &[u8]) -> Result<Rule, LineErr>
    ensures { LineGives result (ok_or ((row key.Directio).read value.now rule) cause.BadValue) }
{
    if !value.is_empty() {
        return Err(LineErr::Refused(RuleCause::BadValue));
    }
    rule.directio = true;
    Ok(rule)
}

fn with_algos(mut rule: Rule, value: &[u8]) -> Result<Rule, LineErr>
    requires { is_appraise rule.act ≡ true }
    ensures { LineGives result
        (ok_or ((row key.AppraiseAlgos).read value.now rule) cause.BadValue) }
{
    let Some(algos) = algos_of(value) else {
        return Err(LineErr::Refused(RuleCause::BadValue));
    };
    rule.algos = Some(algos);
    Ok(rule)
}

fn with_pcr(mut rule: Rule, value: &[u8]) -> Result<Rule, LineErr>
    requires { is_measure rule.act ≡ true }
    ensures { LineGives result (ok_or ((row key.Pcr).read value.now rule) cause.BadValue) }
{
    let Some(pcr) = number_of(value, 10, 23) else {
        return Err(LineErr::Refused(RuleCause::BadValue));
    };
    rule.pcr = Some(pcr as u8);
    Ok(rule)
}

fn with_template(mut rule: Rule, value: &[u8]) -> Result<Rule, LineErr>
    requires { is_measure rule.act ≡ true }
    ensures { LineGives result (ok_or ((row key.Template).read value.now rule) cause.BadValue) }
{
    let Some(template) = template_of(value) else {
        return Err(LineErr::Refused(RuleCause::BadValue));
    };
    rule.template = Some(template);
    Ok(rule)
}
