//! Settings while they are read, line by line.

ghost use Rattle.std.specs.Prelude.{◌≡◌, ◌≤◌, ◌⊎◌, Some, None, Ok, Err, IfOk, IfErr, OnOk, true, false};
ghost use Rattle.fca_model.specs.declared.TheConstants.{MAX_ATTRIBUTES};
ghost use Rattle.exploration_terms.specs.Settings.{settings_of};
ghost use Rattle.expert_scripts.specs.Scripts.{no_settings, whole_settings, with_holders_word, with_name_words, with_rule};
ghost use Rattle.expert_scripts.specs.Scripts.{setting_of_words};
ghost use Rattle.expert_scripts.specs.Stages.{partial_of};
ghost use Rattle.expert_scripts.specs.Known.{known_rule};

use crate::fault::ScriptFault;
use crate::known::read_rule;
use expert_wire::expert_number;
use exploration_terms::{ExpertNames, Settings};
use fca_model::{MAX_EXPERTS, Memory, Name, NameFault};
use implication_closure::ImplicationList;
use std::alloc::Global;
use text_pieces::{is_numeral, split_word};

/// The settings that were given so far. Holders and the name of an expert are given once each, known implications any number of times.
#[derive(Drop)]
pub(crate) struct PartialSettings {
    known: ImplicationList,
    holders: Option<u8>,
    names: ExpertNames,
}

impl PartialSettings {
    /// No settings yet.
    pub(crate) fn new(alloc: Global, n: u32) -> Result<PartialSettings, Memory>
        requires { n ≤ MAX_ATTRIBUTES }
        ensures none { IfOk result (λ settings. partial_of settings ≡ no_settings) }
        ensures width { IfOk result (λ settings. settings.known.width ≡ n) }
    {
        Ok(PartialSettings {
            known: ImplicationList::new(alloc, n)?,
            holders: None,
            names: ExpertNames::new(alloc),
        })
    }

    /// The whole settings. What was not given is plain.
    pub(crate) fn into_settings(self) -> Settings
        ensures settings { settings_of result ≡ whole_settings (partial_of self) }
        ensures width { result.known.width ≡ self.known.width }
    {
        Settings {
            known: self.known,
            holders: self.holders.unwrap_or(MAX_EXPERTS),
            names: self.names,
        }
    }

    /// Takes the words of a line. The answer is whether they are a line of settings.
    pub(crate) fn take(
        &mut self,
        alloc: Global,
        verb: &str,
        words: &str,
        n: u32,
        number: usize,
    ) -> Result<bool, ScriptFault>
        requires wide { self.old.known.width ≡ n }
        requires narrow { n ≤ MAX_ATTRIBUTES }
        ensures width { OnOk result (self.new.known.width ≡ n) }
        ensures taken { IfOk result (λ is_setting. is_setting ≡ true
            → setting_of_words n number (partial_of self.old) verb.now words.now ≡ Some (Ok (partial_of self.new))) }
        ensures none { IfOk result (λ is_setting. is_setting ≡ false
            → setting_of_words n number (partial_of self.old) verb.now words.now ≡ None) }
        ensures same { IfOk result (λ is_setting. is_setting ≡ false → partial_of self.new ≡ partial_of self.old) }
        ensures refused { IfErr result (λ e. (e ≡ ScriptFault.Memory)
            ⊎ (setting_of_words n number (partial_of self.old) verb.now words.now ≡ Some (Err e))) }
    {
        match verb {
            "holders" => self.take_holders(words, number)?,
            "expert" => self.take_name(alloc, words, number)?,
            "known" => self.take_rule(words, n, number)?,
            _ => return Ok(false),
        }
        Ok(true)
    }

    /// Takes the number of holders, which stands after the word `holders`.
    fn take_holders(&mut self, word: &str, number: usize) -> Result<(), ScriptFault>
        ensures ok { OnOk result (with_holders_word number (partial_of self.old) word.now ≡ Ok (partial_of self.new)) }
        ensures width { self.new.known.width ≡ self.old.known.width }
        ensures refused { IfErr result (λ e. with_holders_word number (partial_of self.old) word.now ≡ Err e) }
    {
        if !is_numeral(word.as_bytes()) {
            return Err(ScriptFault::BadLine(number));
        }
        let holders = expert_number(word);
        if holders.is_none() || self.holders.is_some() {
            return Err(ScriptFault::BadHolders(number));
        }
        self.holders = holders;
        Ok(())
    }

    /// Takes the name of an expert, which stands after the word `expert`.
    fn take_name(&mut self, alloc: Global, words: &str, number: usize) -> Result<(), ScriptFault>
        ensures ok { OnOk result (with_name_words number (partial_of self.old) words.now ≡ Ok (partial_of self.new)) }
        ensures width { self.new.known.width ≡ self.old.known.width }
        ensures refused { IfErr result (λ e. (e ≡ ScriptFault.Memory)
            ⊎ (with_name_words number (partial_of self.old) words.now ≡ Err e)) }
    {
        let (word, name) = split_word(words);
        if !is_numeral(word.as_bytes()) {
            return Err(ScriptFault::BadLine(number));
        }
        let name = match Name::new(alloc, name) {
            Ok(name) => name,
            Err(NameFault::Memory) => return Err(ScriptFault::Memory),
            Err(_) => return Err(ScriptFault::BadLine(number)),
        };
        let Some(expert) = expert_number(word) else {
            return Err(ScriptFault::BadExpert(number));
        };
        if !self.names.add(expert, name)? {
            return Err(ScriptFault::BadExpert(number));
        }
        Ok(())
    }

    /// Takes the implication after the word `known`.
    fn take_rule(&mut self, words: &str, n: u32, number: usize) -> Result<(), ScriptFault>
        requires wide { self.old.known.width ≡ n }
        requires narrow { n ≤ MAX_ATTRIBUTES }
        ensures ok { OnOk result (with_rule (partial_of self.old) (known_rule n number words.now) ≡ Ok (partial_of self.new)) }
        ensures width { OnOk result (self.new.known.width ≡ n) }
        ensures refused { IfErr result (λ e. (e ≡ ScriptFault.Memory)
            ⊎ (with_rule (partial_of self.old) (known_rule n number words.now) ≡ Err e)) }
    {
        let rule = read_rule(words.as_bytes(), n, number)?;
        self.known.push(rule)?;
        Ok(())
    }
}
