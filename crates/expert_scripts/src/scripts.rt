//! Scripts: settings and events.

ghost use Rattle.std.specs.Prelude.{◌≡◌, ◌≤◌, ◌⊎◌, Ok, Err, IfOk, IfErr, true};
ghost use Rattle.std.specs.List.{list_all};
ghost use Rattle.fca_model.specs.declared.TheConstants.{MAX_ATTRIBUTES};
ghost use Rattle.exploration_terms.specs.Settings.{settings_of};
ghost use Rattle.expert_scripts.specs.Scripts.{content_of, script_form, may_apply};
ghost use Rattle.expert_scripts.specs.Transcripts.{SettingsCanBeWritten};

use crate::fault::ScriptFault;
use crate::reading::PartialScript;
use expert_wire::is_skipped;
use exploration_terms::{Event, Settings};
use std::alloc::Global;
use std::marker::Model;
use text_pieces::bytes::split_line;

/// A script.
#[derive(Drop)]
pub struct Script {
    /// The settings at its head.
    pub settings: Settings,
    /// The events after the settings.
    pub events: Events,
    /// The number of the line `exploration 2`, if it has one.
    pub second: Option<usize>,
}

/// Events in order. Contracts see the list.
#[derive(Drop)]
pub struct Events {
    events: Vec<Event>,
}

impl Model for Events {
    ghost use Rattle.std.specs.Prelude.{List};
    ghost use Rattle.fca_model.specs.Exploration.{SetEvent};

    ghost Value = { List SetEvent };

    ghost view = { λ a. a.events.items };
}

impl Events {
    /// The events of the list.
    pub(crate) fn of(events: Vec<Event>) -> Events
        ensures { result ≡ events.items }
    {
        Events { events }
    }

    /// The events.
    pub fn as_slice(&self) -> &[Event]
        ensures { result.now ≡ self.now }
    {
        &self.events
    }

    /// The events, by value.
    pub fn into_vec(self) -> Vec<Event>
        ensures { result.items ≡ self }
    {
        self.events
    }
}

/// The script of the bytes. Its rows and patterns have width n.
pub fn read_script(alloc: Global, bytes: &[u8], n: u32) -> Result<Script, ScriptFault>
    requires { n ≤ MAX_ATTRIBUTES }
    ensures ok { IfOk result (λ script. script_form bytes.now n ≡ Ok (content_of script)) }
    ensures width { IfOk result (λ script. script.settings.known.width ≡ n) }
    ensures writable { IfOk result (λ script. SettingsCanBeWritten n (settings_of script.settings)) }
    ensures fits { IfOk result (λ script. list_all (may_apply n) script.events ≡ true) }
    ensures refused { IfErr result (λ e. (e ≡ ScriptFault.Memory) ⊎ (script_form bytes.now n ≡ Err e)) }
{
    let mut script = PartialScript::new(alloc, n)?;
    let mut rest = bytes;
    let mut number = 0;
    while !rest.is_empty() {
        let (line, behind) = split_line(rest);
        rest = behind;
        number += 1;
        if is_skipped(line) {
            continue;
        }
        script.take(alloc, line, n, number)?;
    }
    Ok(script.into_script())
}
