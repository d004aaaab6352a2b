//! The law of the canonical text.

ghost use Rattle.std.specs.Prelude.{◌≡◌, Ok};
ghost use Rattle.std.specs.List.{AllByRecursion};
ghost use Rattle.script_text.specs.Forms.{IsScript};
ghost use Rattle.script_text.specs.Grammar.{script_of};
ghost use Rattle.script_text.specs.ScriptValue.{ScriptValue};
ghost use Rattle.script_spelling.specs.Rules.{AreReadRules, IsReadRule};
ghost use Rattle.script_spelling.specs.Spelling.{script_text};

/// The canonical text of a script is read as the same script. It has all settings except an absent
/// key, with the `boot` digest among them, and then the sections in order. Values are spelled as
/// `hex:` in lower case, and the attributes of a sealed file as attributes, without a `seal`. The
/// text of each of its rules must be read as the rule, which `policy_text::print_rule` ensures of
/// every rule.
pub fn text_is_read()
    ensures { (s : ScriptValue) → IsScript s → AllByRecursion IsReadRule s.rules
        → AllByRecursion AreReadRules s.tasks → script_of (script_text s) ≡ Ok s }
{}
