//! Laws of known files and scripts. Each is the contract of a function that does nothing.

ghost use Rattle.std.specs.Prelude.{◌≡◌, ℕ, List, Ok, length};
ghost use Rattle.fca_model.specs.Exploration.{Settings, SetEvent, SetEntry, events_of};
ghost use Rattle.fca_model.specs.Implications.{Rule};
ghost use Rattle.fca_model.specs.Tables.{Text};
ghost use Rattle.expert_wire.specs.Texts.{full_text};
ghost use Rattle.expert_scripts.specs.Known.{known_rule};
ghost use Rattle.expert_scripts.specs.Scripts.{EventCanBeWritten, EachEventCanBeWritten, event_of, script_form};
ghost use Rattle.text_pieces.specs.Lists.{EachName};
ghost use Rattle.expert_scripts.specs.Transcripts.{SettingsCanBeWritten, event_text, second_of, transcript};

/// The line of an implication is read back as this implication.
pub fn full_text_reads_back()
    ensures { (n k : ℕ) (attributes : List Text) (i : Rule) → length i.premise ≡ n → length i.conclusion ≡ n
        → known_rule n k (full_text attributes i) ≡ Ok i }
{}

/// The line of an event is read back as this event.
pub fn event_reads_back()
    ensures { (n k : ℕ) (event : SetEvent) → EventCanBeWritten n event → event_of n k (event_text event) ≡ Ok event }
{}

/// A transcript is read back as its settings and its events.
pub fn transcript_reads_back()
    ensures { (n : ℕ) (attributes : List Text) (settings : Settings) (H : List SetEntry) → EachName attributes
        → SettingsCanBeWritten n settings → EachEventCanBeWritten n H
        → script_form (transcript attributes settings H) n
        ≡ Ok (record { settings = settings; events = events_of H; second = second_of settings }) }
{}
