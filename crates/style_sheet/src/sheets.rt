//! Sheets: their rules read, and the attributes of a class.
ghost use Rattle.std.specs.Prelude.{◌≡◌, IfErr, IfOk, List, fold, map};
ghost use Rattle.std.specs.List.{AllByRecursion};
ghost use Rattle.style_sheet.specs.Cascade.{changed, changes_for, class_attrs};
ghost use Rattle.style_sheet.specs.Grammar.{IsCauseOf, IsRule, parts_of, rule_text};
ghost use Rattle.style_sheet.specs.Patches.{ArePatchesOf};
ghost use Rattle.style_sheet.specs.StyleRule.{StyleRule};

use crate::changes::apply_all;
use crate::classes::{CLASS_COUNT, find_class};
use crate::cuts::cut;
use crate::faults::StyleFault;
use crate::known::{no_classes, recall, remember};
use crate::patches::Patch;
use crate::rules::{Rule, read_rule};
use cell_grid::Attrs;
use lru::LruCache;
use sequences::Text;
use std::alloc::Global;
use std::marker::Model;

/// A list of style rules, which say how the classes in use are drawn.
#[derive(Debug, Drop)]
pub struct Sheet {
    rules: Vec<Rule>,
    // What the rules for each class change, so that the rules are gone through once.
    patches: [Patch; CLASS_COUNT],
    // The attributes of the classes that were asked for last.
    known: LruCache<String, Attrs>,
}

impl Model for Sheet {
    ghost use Rattle.std.specs.Prelude.{List};
    ghost use Rattle.std.specs.List.{AllByRecursion};
    ghost use Rattle.style_sheet.specs.StyleRule.{StyleRule};
    ghost use Rattle.style_sheet.specs.Grammar.{IsRule};
    ghost use Rattle.style_sheet.specs.Patches.{ArePatchesOf};
    ghost use Rattle.style_sheet.specs.Known.{AreKnown};

    ghost Value = { List StyleRule };

    ghost view = { λ sheet. sheet.rules.items };

    ghost invariant = { λ sheet. AllByRecursion IsRule sheet.rules.items
        × ArePatchesOf sheet.rules.items sheet.patches
        × AreKnown sheet.rules.items sheet.known.entries };
}

impl Sheet {
    ghost use Rattle.std.specs.Prelude.{◌≡◌, ◌⊎◌, ℕ, List, IfOk, IfErr, MatchResult};
    ghost use Rattle.style_sheet.specs.StyleRule.{StyleRule};
    ghost use Rattle.style_sheet.specs.Grammar.{IsCauseOf, IsFirstOutside, Spells};
    ghost use Rattle.style_sheet.specs.Cascade.{class_attrs, HasColours};

    /// Reads rules that are separated by `;`, such as `prompt=bold fg:#00ff00;selected=noreverse`. The empty text has
    /// none, and a `;` at the end is refused.
    ///
    /// A rule is the name of a class in use, `=`, and at least one word, with one space between each two. A word is
    /// `bold`, `italic`, `underline`, `blink`, `reverse`, `hidden` or `strike`, also with `no` before it, or `fg:` or
    /// `bg:` and a colour: `default`, `#` and six digits of `0-9a-f`, or one of `black`, `red`, `green`, `yellow`,
    /// `blue`, `magenta`, `cyan` and `white`, also with `bright-` before it.
    pub fn from_rules(alloc: Global, rules: &Text) -> Result<Sheet, StyleFault>
        // What is read is spelled so, and what is spelled so is read.
        ensures read { IfOk result (λ sheet. Spells rules.now sheet) }
        ensures only { (sheet : List StyleRule) → Spells rules.now sheet
            → MatchResult result (λ found. found ≡ sheet) (λ fault. fault ≡ StyleFault.NoMemory) }

        // The fault tells the first rule outside the grammar.
        ensures cause { IfErr result (IsCauseOf rules.now) }
        ensures outside { (at : ℕ) → IsFirstOutside rules.now at
            → MatchResult result (λ _. ⊥)
            (λ fault. (fault ≡ StyleFault.BadStyle at) ⊎ (fault ≡ StyleFault.NoMemory)) }
    {
        let rules = read_rules(alloc, rules.as_slice())?;
        let patches = patches_of(&rules);
        let known = no_classes(alloc)?;
        Ok(Sheet {
            rules,
            patches,
            known,
        })
    }

    /// Returns the attributes of a class, such as `completion-menu.completion`. Any text is the name of a class: only
    /// those in use have a default, and rules are for these alone.
    ///
    /// The sheet keeps the answers for the 64 classes that were asked for last, where it finds memory for them. No call
    /// goes through the rules, which is done once, where they are read.
    pub fn attrs_of(&mut self, class: &str) -> Attrs
        ensures attrs { result ≡ class_attrs self.old class.now }
        // A numbered colour is one of the sixteen.
        ensures colours { HasColours result }
        ensures same { self.new ≡ self.old }
    {
        if let Some(attrs) = recall(&mut self.known, class) {
            return attrs;
        }
        let attrs = work_out(class.as_bytes(), &self.patches);
        remember(&mut self.known, class, attrs);
        attrs
    }
}

/// Returns the attributes of the class with this name.
fn work_out(name: &[u8], patches: &[Patch; CLASS_COUNT]) -> Attrs
    ensures { (rules : List StyleRule) → ArePatchesOf rules patches.now
        → result ≡ class_attrs rules name.now }
{
    let mut attrs = Attrs::plain();
    for (place, byte) in name.iter().enumerate() {
        if *byte == b'.' {
            attrs = apply_named(attrs, &name[..place], patches);
        }
    }
    apply_named(attrs, name, patches)
}

/// Returns for each class what the rules for it change.
fn patches_of(rules: &[Rule]) -> [Patch; CLASS_COUNT]
    ensures { ArePatchesOf rules.now result }
{
    let mut patches = [Patch::empty(); CLASS_COUNT];
    for rule in rules {
        let place = rule.place();
        patches[place] = rule.added_to(patches[place]);
    }
    patches
}

/// Returns the attributes after the changes for the class with this very name, if it is in use.
fn apply_named(attrs: Attrs, name: &[u8], patches: &[Patch; CLASS_COUNT]) -> Attrs
    ensures { (rules : List StyleRule) → ArePatchesOf rules patches.now
        → result ≡ fold changed attrs (changes_for rules name.now) }
{
    match find_class(name) {
        Some(class) => {
            let attrs = apply_all(attrs, class.default_changes());
            patches[class.place()].applied_to(attrs)
        }
        None => attrs,
    }
}

/// Returns the rules of a text.
fn read_rules(alloc: Global, text: &[char]) -> Result<Vec<Rule>, StyleFault>
    ensures each { IfOk result (λ rules. AllByRecursion IsRule rules.items) }
    ensures parts { IfOk result (λ rules. map rule_text rules.items ≡ parts_of text.now) }
    ensures cause { IfErr result (IsCauseOf text.now) }
{
    let mut rules = Vec::new(alloc);
    let mut left = if text.is_empty() { None } else { Some(text) };
    while let Some(here) = left {
        let (part, behind) = cut(here, ';');
        match read_rule(alloc, part)? {
            Some(rule) => rules.push(rule)?,
            None => return Err(StyleFault::BadStyle { at: rules.len() }),
        }
        left = behind;
    }
    Ok(rules)
}
