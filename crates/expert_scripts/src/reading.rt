//! A script while it is read, line by line.

ghost use Rattle.std.specs.Prelude.{◌≡◌, ◌≤◌, ◌⊎◌, ℕ, List, ◌∷◌, [], Some, None, Ok, Err, IfOk, IfErr, OnOk, Option, true, false};
ghost use Rattle.std.specs.Prelude.{bytes_eq};
ghost use Rattle.fca_model.specs.Tables.{Text};
ghost use Rattle.fca_model.specs.declared.TheConstants.{MAX_ATTRIBUTES};
ghost use Rattle.expert_wire.specs.Replies.{heading};
ghost use Rattle.expert_scripts.specs.Scripts.{ScriptContent, content_of, no_settings, content_of_lines, second_heading};
ghost use Rattle.expert_scripts.specs.Scripts.{settings_then_events, script_content, events_of_lines, setting_of};
ghost use Rattle.expert_scripts.specs.Stages.{partial_of, after_events, content_to_come};

use crate::events::read_event;
use crate::fault::ScriptFault;
use crate::partial::PartialSettings;
use crate::scripts::{Events, Script};
use expert_wire::utf8_text;
use exploration_terms::Event;
use fca_model::Memory;
use std::alloc::Global;
use text_pieces::split_word;

/// Which lines may come next.
#[derive(Clone, Copy)]
pub(crate) enum Stage {
    /// A heading, or an event.
    Heading,
    /// A line of settings, or an event. The number is that of the line `exploration 2`.
    Settings(usize),
    /// An event. The number is that of the line `exploration 2`, if there was one.
    Events(Option<usize>),
}

/// A script of which the first lines were read.
#[derive(Drop)]
pub(crate) struct PartialScript {
    settings: PartialSettings,
    events: Vec<Event>,
    stage: Stage,
}

impl PartialScript {
    /// A script of which no line was read.
    pub(crate) fn new(alloc: Global, n: u32) -> Result<PartialScript, Memory>
        requires { n ≤ MAX_ATTRIBUTES }
        ensures width { IfOk result (λ script. script.settings.known.width ≡ n) }
        ensures new { IfOk result (λ script. (ls : List (ℕ × Text)) → content_to_come n script ls ≡ content_of_lines n no_settings ls) }
    {
        Ok(PartialScript {
            settings: PartialSettings::new(alloc, n)?,
            events: Vec::new(alloc),
            stage: Stage::Heading,
        })
    }

    /// The whole script, if no line is left.
    pub(crate) fn into_script(self) -> Script
        ensures said { (n : ℕ) → content_to_come n self [] ≡ Ok (content_of result) }
        ensures width { result.settings.known.width ≡ self.settings.known.width }
    {
        let second = match self.stage {
            Stage::Heading => None,
            Stage::Settings(line) => Some(line),
            Stage::Events(second) => second,
        };
        Script {
            settings: self.settings.into_settings(),
            events: Events::of(self.events),
            second,
        }
    }

    /// Takes a line that is not skipped.
    pub(crate) fn take(
        &mut self,
        alloc: Global,
        line: &[u8],
        n: u32,
        number: usize,
    ) -> Result<(), ScriptFault>
        requires wide { self.old.settings.known.width ≡ n }
        requires narrow { n ≤ MAX_ATTRIBUTES }
        ensures width { OnOk result (self.new.settings.known.width ≡ n) }
        ensures ok { OnOk result ((ls : List (ℕ × Text))
            → content_to_come n self.old ((number, line.now) ∷ ls) ≡ content_to_come n self.new ls) }
        ensures refused { IfErr result (λ e. (e ≡ ScriptFault.Memory)
            ⊎ ((ls : List (ℕ × Text)) → content_to_come n self.old ((number, line.now) ∷ ls) ≡ Err e)) }
    {
        match self.stage {
            Stage::Heading => self.take_first(alloc, line, n, number),
            Stage::Settings(second) => self.take_setting(alloc, line, n, number, second),
            Stage::Events(second) => self.take_event(alloc, line, n, number, second),
        }
    }

    /// Takes the first line, which may be a heading.
    fn take_first(
        &mut self,
        alloc: Global,
        line: &[u8],
        n: u32,
        number: usize,
    ) -> Result<(), ScriptFault>
        requires wide { self.old.settings.known.width ≡ n }
        requires narrow { n ≤ MAX_ATTRIBUTES }
        ensures width { OnOk result (self.new.settings.known.width ≡ n) }
        ensures ok { OnOk result ((ls : List (ℕ × Text))
            → after_events self.old.events.items (content_of_lines n (partial_of self.old.settings) ((number, line.now) ∷ ls))
            ≡ content_to_come n self.new ls) }
        ensures refused { IfErr result (λ e. (e ≡ ScriptFault.Memory)
            ⊎ ((ls : List (ℕ × Text))
            → after_events self.old.events.items (content_of_lines n (partial_of self.old.settings) ((number, line.now) ∷ ls)) ≡ Err e)) }
    {
        if is_heading(line) {
            self.stage = Stage::Events(None);
            return Ok(());
        }
        if is_second_heading(line) {
            self.stage = Stage::Settings(number);
            return Ok(());
        }
        self.take_event(alloc, line, n, number, None)
    }

    /// Takes a line of settings or an event. The line `exploration 2` was number `second`.
    fn take_setting(
        &mut self,
        alloc: Global,
        line: &[u8],
        n: u32,
        number: usize,
        second: usize,
    ) -> Result<(), ScriptFault>
        requires wide { self.old.settings.known.width ≡ n }
        requires narrow { n ≤ MAX_ATTRIBUTES }
        requires stage { self.old.stage ≡ Stage.Settings second }
        ensures width { OnOk result (self.new.settings.known.width ≡ n) }
        ensures ok { OnOk result ((ls : List (ℕ × Text))
            → after_events self.old.events.items (settings_then_events n (partial_of self.old.settings) second ((number, line.now) ∷ ls))
            ≡ content_to_come n self.new ls) }
        ensures refused { IfErr result (λ e. (e ≡ ScriptFault.Memory)
            ⊎ ((ls : List (ℕ × Text))
            → after_events self.old.events.items (settings_then_events n (partial_of self.old.settings) second ((number, line.now) ∷ ls)) ≡ Err e)) }
    {
        if take_setting_line(&mut self.settings, alloc, line, n, number)? {
            return Ok(());
        }
        self.take_event(alloc, line, n, number, Some(second))
    }

    /// Takes an event. The line `exploration 2` was number `second`, if there was one.
    fn take_event(
        &mut self,
        alloc: Global,
        line: &[u8],
        n: u32,
        number: usize,
        second: Option<usize>,
    ) -> Result<(), ScriptFault>
        requires wide { self.old.settings.known.width ≡ n }
        requires narrow { n ≤ MAX_ATTRIBUTES }
        ensures width { OnOk result (self.new.settings.known.width ≡ n) }
        ensures ok { OnOk result ((ls : List (ℕ × Text))
            → after_events self.old.events.items (script_content (partial_of self.old.settings) second (events_of_lines n ((number, line.now) ∷ ls)))
            ≡ content_to_come n self.new ls) }
        ensures refused { IfErr result (λ e. (e ≡ ScriptFault.Memory)
            ⊎ ((ls : List (ℕ × Text))
            → after_events self.old.events.items (script_content (partial_of self.old.settings) second (events_of_lines n ((number, line.now) ∷ ls)))
            ≡ Err e)) }
    {
        let event = read_event(alloc, line, n, number)?;
        self.events.push(event)?;
        self.stage = Stage::Events(second);
        Ok(())
    }
}

/// Takes a line. The answer is whether it is a line of settings.
fn take_setting_line(
    settings: &mut PartialSettings,
    alloc: Global,
    line: &[u8],
    n: u32,
    number: usize,
) -> Result<bool, ScriptFault>
    requires wide { settings.old.known.width ≡ n }
    requires narrow { n ≤ MAX_ATTRIBUTES }
    ensures width { OnOk result (settings.new.known.width ≡ n) }
    ensures taken { IfOk result (λ is_setting. is_setting ≡ true
        → setting_of n number (partial_of settings.old) line.now ≡ Some (Ok (partial_of settings.new))) }
    ensures none { IfOk result (λ is_setting. is_setting ≡ false → setting_of n number (partial_of settings.old) line.now ≡ None) }
    ensures same { IfOk result (λ is_setting. is_setting ≡ false → partial_of settings.new ≡ partial_of settings.old) }
    ensures refused { IfErr result (λ e. (e ≡ ScriptFault.Memory)
        ⊎ (setting_of n number (partial_of settings.old) line.now ≡ Some (Err e))) }
{
    match utf8_text(line) {
        Some(text) => {
            let (verb, words) = split_word(text);
            settings.take(alloc, verb, words, n, number)
        }
        None => Ok(false),
    }
}

fn is_heading(line: &[u8]) -> bool
    ensures { result ≡ bytes_eq line.now heading }
{
    line == b"exploration 1".as_slice()
}

fn is_second_heading(line: &[u8]) -> bool
    ensures { result ≡ bytes_eq line.now second_heading }
{
    line == b"exploration 2".as_slice()
}
