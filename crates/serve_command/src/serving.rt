//! The exploration by the experts at the ends of a link, and its text.

ghost use Rattle.std.specs.Prelude.{◌≡◌, ◌⊎◌, ◌∷◌, ◌++◌, true, false, map, IfOk, IfErr, OnOk, option_copied, option_to_list, length};
ghost use Rattle.std.specs.Prelude.{vec_len};
ghost use Rattle.fca_model.specs.Exploration.{is_expert};
ghost use Rattle.fca_io.specs.Faults.{Rose, RoseAtMost};
ghost use Rattle.fca_io.specs.Links.{MayListenAt};
ghost use Rattle.explore_state.specs.History.{open_of};
ghost use Rattle.basis_report.specs.Explorations.{explore_text, Spells};
ghost use Rattle.basis_report.specs.Sessions.{sessions_text};
ghost use Rattle.expert_scripts.specs.Transcripts.{SettingsCanBeWritten};
ghost use Rattle.command_io.specs.Readings.{MayRefuse, Rises, SameCounts};
ghost use Rattle.command_io.specs.Causes.{UnlessReadFault, UnlessListenerFault};
ghost use Rattle.command_io.specs.Known.{start_read};
ghost use Rattle.command_io.specs.Endings.{ending_of, IsRefusal, IsUnread};
ghost use Rattle.serve_command.specs.Openings.{IsNew};
ghost use Rattle.serve_command.specs.Served.{ended_words, IsServeStop, MayServe, GaveAllBack, HasServedAll, HasReturnedEnds};

use crate::accepting::{ends_at, give_back};
use crate::ended_words::all_ended_words;
use crate::opening::open_exploration;
use basis_report::{explore_text, sessions_text};
use command_io::{Ending, Output, Stop, Text, load_start};
use expert_sessions::{Ended, Served, Unserved, serve_ends};
use explore_state::Explore;
use fca_io::{Listener, Shelf};
use fca_model::{MAX_LINES, MAX_TURNS, Word};
use std::alloc::Global;
use std::sync::Wait;
use std::thread::Threads;

/// Whom an exploration invites, and where.
#[derive(Drop)]
pub struct Invitation<'a> {
    /// How many experts are to come.
    pub experts: u8,
    /// How many of them may hold one question.
    pub holders: u8,
    /// The address at which they are awaited.
    pub address: &'a Word,
}

/// Explores the table in the file with the experts who come to the first ends that the link accepts, and gives the text. A known file may be
/// given.
pub fn serve<R: Threads + Wait + Sync, H: Shelf, L: Listener>(
    rt: &R,
    alloc: Global,
    shelf: &mut H,
    file: &Word,
    known_file: Option<&Word>,
    invitation: &Invitation<'_>,
    link: &mut L,
) -> Result<Output, Stop>
    requires experts { is_expert invitation.now.experts ≡ true }
    requires holders { is_expert invitation.now.holders ≡ true }
    requires closed { L.listens link.old ≡ false }

    ensures output { IfOk result (MayServe L.End.Source.left L.End.Sink.held L.End.Source.reads L.End.Source.faults L.End.Sink.faults
        (start_read file.now (option_copied known_file.entry) (H.tells shelf.old)) invitation.now.experts invitation.now.holders
        (L.ends link.old) (L.ends link.new)) }
    ensures listens { OnOk result ((L.listens link.new ≡ true) × MayListenAt (L.listens_at link.new) invitation.now.address.now) }

    // If the files could not be read, the link is as it was.
    ensures refused { IfErr result (λ stop. IsRefusal stop → MayRefuse (start_read file.now (option_copied known_file.entry) (H.tells shelf.old))) }
    ensures cause { IfErr result (IsServeStop file.now (option_copied known_file.entry) (H.tells shelf.old) (Rises (H.faults shelf.old) (H.faults shelf.new))
        (Rises (L.open_faults link.old) (L.open_faults link.new) invitation.now.address.now ⊎ Rose (L.accept_faults link.old) (L.accept_faults link.new))) }
    ensures quiet { UnlessReadFault result (SameCounts (H.faults shelf.old) (H.faults shelf.new)) }
    ensures few { RoseAtMost (H.fetches shelf.old) (H.fetches shelf.new) (length (file.now ∷ option_to_list (option_copied known_file.entry))) }
    ensures quiet_open { UnlessListenerFault result (SameCounts (L.open_faults link.old) (L.open_faults link.new)) }
    ensures quiet_accept { UnlessListenerFault result (L.accept_faults link.new ≡ L.accept_faults link.old) }
    ensures unheard { IfErr result (λ stop. IsUnread stop → link.new ≡ link.old) }
    ensures ends { IfErr result (λ stop. GaveAllBack L.End.Source.left L.End.Sink.held L.End.Source.reads L.End.Source.faults L.End.Sink.faults
        invitation.now.experts (L.ends link.old) (L.ends link.new) (stop ≡ Stop.ListenerFault)) }
{
    let start = load_start(alloc, shelf, file, known_file)?;
    let explore = open_exploration(rt, alloc, start, invitation.experts, invitation.holders)?;
    let ends = ends_at(alloc, link, invitation.address.bytes(), invitation.experts)?;
    explore_over(rt, alloc, explore, ends, link)
}

/// Explores with the experts at these ends, gives the ends back, and makes the text.
fn explore_over<R: Threads + Wait + Sync, L: Listener>(
    rt: &R,
    alloc: Global,
    explore: Explore,
    ends: Vec<L::End>,
    link: &mut L,
) -> Result<Output, Stop>
    requires new { IsNew explore }
    requires count { explore.opening.experts ≡ vec_len ends }

    ensures served_all { IfOk result (λ output. HasServedAll L.End.Source.left L.End.Sink.held L.End.Source.reads L.End.Source.faults
        L.End.Sink.faults explore.opening ends.items (L.ends link.old) (L.ends link.new) output) }
    ensures returned { IfErr result (λ _. HasReturnedEnds L.End.Source.left L.End.Sink.held L.End.Source.reads L.End.Source.faults L.End.Sink.faults
        ends.items (L.ends link.old) (L.ends link.new)) }
    ensures cause { IfErr result (λ stop. stop ≡ Stop.Memory) }
    ensures same { (L.listens link.new ≡ L.listens link.old) × (L.listens_at link.new ≡ L.listens_at link.old) }
    ensures quiet_open { SameCounts (L.open_faults link.old) (L.open_faults link.new) }
    ensures quiet_accept { L.accept_faults link.new ≡ L.accept_faults link.old }
{
    match serve_ends(rt, alloc, explore, ends, MAX_LINES, MAX_TURNS) {
        Ok(served) => {
            let Served {
                explore,
                ends,
                ended,
            } = served;
            give_back(link, ends);
            output_of(alloc, &explore, &ended)
        }
        Err(Unserved { ends }) => {
            give_back(link, ends);
            Err(Stop::Memory)
        }
    }
}

/// The text of the exploration, and how its sessions ended.
fn output_of(alloc: Global, explore: &Explore, ended: &[Ended]) -> Result<Output, Stop>
    requires { SettingsCanBeWritten explore.now.opening.table.context.width explore.now.opening.settings }
    ensures text { IfOk result (λ output. output.text ≡ explore_text explore.now.opening.table explore.now.opening.settings explore.now.journal
        ++ sessions_text (map ended_words ended.now)) }
    ensures spells { IfOk result (λ output. Spells explore.now.opening.table explore.now.opening.settings explore.now.journal output.text) }
    ensures ending { IfOk result (λ output. output.ending ≡ ending_of (open_of explore.now)) }
    ensures cause { IfErr result (λ stop. stop ≡ Stop.Memory) }
{
    let words = all_ended_words(alloc, ended)?;
    let mut text = explore_text(alloc, explore)?;
    let sessions = sessions_text(alloc, &words)?;
    text.extend_from_slice(&sessions)?;
    Ok(Output {
        text: Text::whole(text),
        ending: Ending::of(explore),
    })
}
