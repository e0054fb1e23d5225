//! Rules of a sheet, and how they are read.
ghost use Rattle.std.specs.Prelude.{◌≡◌, ◌≢◌, IfOk, IfSome, IfNone};
ghost use Rattle.style_sheet.specs.declared.changes.Change.{Change};
ghost use Rattle.style_sheet.specs.declared.classes.Class.{Class};
ghost use Rattle.style_sheet.specs.ClassName.{class_name};
ghost use Rattle.style_sheet.specs.Grammar.{HaveWords, IsRule, IsRuleText, IsWords, rule_text, words_text};
ghost use Rattle.style_sheet.specs.Spelling.{change_word, IsChange};

use crate::ascii::ascii_bytes;
use crate::changes::Change;
use crate::classes::{Class, find_class};
use crate::cuts::cut;
use crate::patches::Patch;
use crate::words::find_change;
use sequences::NoMemory;
use std::alloc::Global;
use std::marker::Model;

/// The changes for one class.
#[derive(Debug, Drop)]
pub(crate) struct Rule {
    class: Class,
    changes: Vec<Change>,
}

impl Model for Rule {
    ghost use Rattle.style_sheet.specs.StyleRule.{StyleRule};

    ghost Value = { StyleRule };

    ghost view = { λ rule. record { class = rule.class; changes = rule.changes.items } };
}

impl Rule {
    ghost use Rattle.std.specs.Prelude.{◌≡◌, ◌<◌, fold};
    ghost use Rattle.style_sheet.specs.declared.classes.TheConstants.{CLASS_COUNT};
    ghost use Rattle.style_sheet.specs.ClassName.{place};
    ghost use Rattle.style_sheet.specs.Patches.{with_change};

    /// Returns the place of the rule's class among all classes.
    pub(crate) fn place(&self) -> usize
        ensures is { result ≡ place self.now.class }
        ensures below { result < CLASS_COUNT }
    {
        self.class.place()
    }

    /// Returns the patch that does the same and then the changes of the rule.
    pub(crate) fn added_to(&self, patch: Patch) -> Patch
        ensures { result ≡ fold with_change patch self.now.changes }
    {
        patch.with_all(self.changes.as_slice())
    }
}

/// Returns the rule that has this text, if one has.
pub(crate) fn read_rule(alloc: Global, text: &[char]) -> Result<Option<Rule>, NoMemory>
    ensures found { IfOk result (λ found.
        IfSome found (λ rule. IsRule rule × (rule_text rule ≡ text.now))) }
    ensures none { IfOk result (λ found. IfNone found (¬ IsRuleText text.now)) }
{
    let (name, behind) = cut(text, '=');
    let Some(words) = behind else {
        return Ok(None);
    };
    let Some(class) = read_class(alloc, name)? else {
        return Ok(None);
    };
    let Some(changes) = read_changes(alloc, words)? else {
        return Ok(None);
    };
    Ok(Some(Rule { class, changes }))
}

/// Returns the changes that have this text, if some have.
fn read_changes(alloc: Global, text: &[char]) -> Result<Option<Vec<Change>>, NoMemory>
    ensures found { IfOk result (λ found. IfSome found
        (λ changes. HaveWords changes.items × (words_text changes.items ≡ text.now))) }
    ensures none { IfOk result (λ found. IfNone found (¬ IsWords text.now)) }
{
    let mut changes = Vec::new(alloc);
    let mut left = Some(text);
    while let Some(here) = left {
        let (word, behind) = cut(here, ' ');
        match read_change(alloc, word)? {
            Some(change) => changes.push(change)?,
            None => return Ok(None),
        }
        left = behind;
    }
    Ok(Some(changes))
}

/// Returns the class with this name.
fn read_class(alloc: Global, name: &[char]) -> Result<Option<Class>, NoMemory>
    ensures found { IfOk result (λ found. IfSome found (λ class. class_name class ≡ name.now)) }
    ensures none { IfOk result (λ found.
        IfNone found ((class : Class) → class_name class ≢ name.now)) }
{
    let Some(bytes) = ascii_bytes(alloc, name)? else {
        return Ok(None);
    };
    Ok(find_class(bytes.as_slice()))
}

/// Returns the change that has this word.
fn read_change(alloc: Global, word: &[char]) -> Result<Option<Change>, NoMemory>
    ensures found { IfOk result (λ found.
        IfSome found (λ change. IsChange change × (change_word change ≡ word.now))) }
    ensures none { IfOk result (λ found. IfNone found
        ((change : Change) → IsChange change → change_word change ≢ word.now)) }
{
    let Some(bytes) = ascii_bytes(alloc, word)? else {
        return Ok(None);
    };
    Ok(find_change(bytes.as_slice()))
}
