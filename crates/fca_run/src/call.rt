//! The top call.

ghost use Rattle.std.specs.Prelude.{◌≡◌, true, false, None, Some, IfOk, IfErr, OnOk, length};
ghost use Rattle.std.specs.Io.KnownBytes.{IsAtEnd};
ghost use Rattle.fca_io.specs.Faults.{RoseAtMost};
ghost use Rattle.fca_command.specs.Commands.{command_form, report_file, files_of, reads_input, waits_for_nobody, IsWithinLimits};
ghost use Rattle.command_io.specs.Readings.{MayRead, MayRefuse, SameCounts};
ghost use Rattle.command_io.specs.Causes.{UnlessReadFault};
ghost use Rattle.command_io.specs.Endings.{IsRefusal, IsOfFile};
ghost use Rattle.command_io.specs.Streams.{moment, HasConcluded};
ghost use Rattle.fca_run.specs.Outputs.{command_output, other_output};
ghost use Rattle.fca_run.specs.Courses.{HasCourse};
ghost use Rattle.fca_run.specs.Causes.{command_file_at_fault};
ghost use Rattle.fca_run.specs.Calls.{shelf_moment, link_moment, unlinked, no_input, sides, no_sides, outside, MayEndWith, IsOtherStop};
ghost use Rattle.fca_run.specs.Calls.{IsCommandStop, ComesTo, HasRun};

use crate::made::{make_output, survey_output};
use crate::reports::report_output;
use crate::scaling::scale_output;
use command_io::{Output, Stop, conclude, file_at_fault};
use context_table::Recipe;
use explore_command::explore;
use fca_command::{Command, command_of};
use fca_io::{Listener, Shelf, Sink, Source};
use fca_model::{Memory, Word};
use replay_command::replay;
use serve_command::{Invitation, serve};
use std::alloc::Global;
use std::slice;
use std::sync::Wait;
use std::thread::Threads;

/// Runs the command that the words are, and returns the status of the program.
pub fn run<R: Threads + Wait + Sync, H: Shelf, S: Source, K: Sink, E: Sink, L: Listener>(
    rt: &R,
    alloc: Global,
    words: &[Word],
    shelf: &mut H,
    input: &mut S,
    out: &mut K,
    err: &mut E,
    link: &mut L,
) -> u8
    requires { L.listens link.old ≡ false }
    ensures ran { HasRun (sides L.End.Source.left L.End.Sink.held L.End.Source.reads L.End.Source.faults L.End.Sink.faults) (command_form words.now)
        (outside (shelf_moment H.tells H.faults H.fetches shelf.old) (moment S.left S.faults input.old)
        (link_moment L.listens L.listens_at L.ends L.open_faults L.accept_faults link.old))
        (outside (shelf_moment H.tells H.faults H.fetches shelf.new) (moment S.left S.faults input.new)
        (link_moment L.listens L.listens_at L.ends L.open_faults L.accept_faults link.new))
        (moment K.held K.faults out.old) (moment K.held K.faults out.new)
        (moment E.held E.faults err.old) (moment E.held E.faults err.new) result }
{
    match command_of(alloc, words) {
        Ok(Some(command)) => {
            if command.waits_for_nobody() {
                return run_plain(rt, alloc, &command, shelf, input, out, err);
            }
            let output = waiting_output(rt, alloc, &command, shelf, link);
            conclude_command(rt, &command, output, out, err)
        }
        Ok(None) => conclude(rt, Err(Stop::NoCommand), b"", out, err),
        Err(Memory) => conclude(rt, Err(Stop::Memory), b"", out, err),
    }
}

/// The output of a command that waits for experts. It does not read the input.
fn waiting_output<R: Threads + Wait + Sync, H: Shelf, L: Listener>(
    rt: &R,
    alloc: Global,
    command: &Command,
    shelf: &mut H,
    link: &mut L,
) -> Result<Output, Stop>
    requires waits { waits_for_nobody command.now ≡ false }
    requires limits { IsWithinLimits command.now }
    requires closed { L.listens link.old ≡ false }
    ensures { ComesTo (sides L.End.Source.left L.End.Sink.held L.End.Source.reads L.End.Source.faults L.End.Sink.faults) command.now
        (outside (shelf_moment H.tells H.faults H.fetches shelf.old) no_input
        (link_moment L.listens L.listens_at L.ends L.open_faults L.accept_faults link.old))
        (outside (shelf_moment H.tells H.faults H.fetches shelf.new) no_input
        (link_moment L.listens L.listens_at L.ends L.open_faults L.accept_faults link.new)) result }
{
    match command {
        Command::Explore {
            file,
            known,
            names,
            experts,
        } => {
            let known = known.as_ref();
            explore(rt, alloc, shelf, file, known, *names, experts.as_slice())
        }
        Command::Serve {
            file,
            known,
            experts,
            holders,
            listen,
        } => {
            let known = known.as_ref();
            let invitation = Invitation {
                experts: *experts,
                holders: *holders,
                address: listen,
            };
            serve(rt, alloc, shelf, file, known, &invitation, link)
        }
        Command::Survey {
            seed,
            objects,
            attributes,
            density,
            experts,
        } => {
            let recipe = Recipe {
                seed: *seed,
                objects: *objects,
                attributes: *attributes,
                density: *density,
            };
            survey_output(rt, alloc, &recipe, *experts)
        }
        // (`waits`: no other command waits for experts)
        _ => unreachable!(),
    }
}

/// Runs a command that waits for nobody, and returns the status of the program.
pub fn run_plain<R: Threads + Sync, H: Shelf, S: Source, K: Sink, E: Sink>(
    rt: &R,
    alloc: Global,
    command: &Command,
    shelf: &mut H,
    input: &mut S,
    out: &mut K,
    err: &mut E,
) -> u8
    requires plain { waits_for_nobody command.now ≡ true }
    requires limits { IsWithinLimits command.now }
    ensures ran { HasRun no_sides (Some command.now)
        (outside (shelf_moment H.tells H.faults H.fetches shelf.old) (moment S.left S.faults input.old) unlinked)
        (outside (shelf_moment H.tells H.faults H.fetches shelf.new) (moment S.left S.faults input.new) unlinked)
        (moment K.held K.faults out.old) (moment K.held K.faults out.new)
        (moment E.held E.faults err.old) (moment E.held E.faults err.new) result }
{
    let output = plain_output(rt, alloc, command, shelf, input);
    conclude_command(rt, command, output, out, err)
}

/// Writes the output of the command to out, or the cause of its stop to err, and returns the status.
fn conclude_command<R: Threads + Sync, K: Sink, E: Sink>(
    rt: &R,
    command: &Command,
    output: Result<Output, Stop>,
    out: &mut K,
    err: &mut E,
) -> u8
    ensures { HasConcluded output (command_file_at_fault (Some command.now)) (moment K.held K.faults out.old)
        (moment K.held K.faults out.new) (moment E.held E.faults err.old) (moment E.held E.faults err.new) result }
{
    let file = name_at_fault(command, &output);
    conclude(rt, output, file, out, err)
}

/// The name of the file at fault if the command stopped, or else an empty name.
fn name_at_fault<'a>(command: &'a Command, output: &Result<Output, Stop>) -> &'a [u8]
    ensures { IfErr output.now (λ stop. result.now ≡ command_file_at_fault (Some command.now) stop) }
{
    match output {
        Ok(_) => b"",
        Err(stop) => command_file_at_fault(command, stop),
    }
}

/// The name of the command's file that is at fault, if one is.
fn command_file_at_fault<'a>(command: &'a Command, stop: &Stop) -> &'a [u8]
    ensures { result.now ≡ command_file_at_fault (Some command.now) stop.now }
{
    match command {
        Command::Scale { values, plan } => file_at_fault(stop, values, None, slice::from_ref(plan)),
        Command::Replay { file, known } | Command::Serve { file, known, .. } => {
            file_at_fault(stop, file, known.as_ref(), &[])
        }
        Command::Explore {
            file,
            known,
            experts,
            ..
        } => file_at_fault(stop, file, known.as_ref(), experts.as_slice()),
        _ => command.first_file(),
    }
}

/// The output of a command that waits for nobody.
fn plain_output<R: Threads + Sync, H: Shelf, S: Source>(
    rt: &R,
    alloc: Global,
    command: &Command,
    shelf: &mut H,
    input: &mut S,
) -> Result<Output, Stop>
    requires plain { waits_for_nobody command.now ≡ true }
    requires limits { IsWithinLimits command.now }
    ensures output { IfOk result (λ output. MayRead (command_output command.now (H.tells shelf.old) (S.left input.old)) output) }
    ensures ending { IfOk result (λ output. MayEndWith command.now output.ending) }
    ensures course { IfOk result (λ output. HasCourse command.now (H.tells shelf.old) (S.left input.old) output.text) }
    ensures cause { IfErr result (IsCommandStop command.now
        (outside (shelf_moment H.tells H.faults H.fetches shelf.old) (moment S.left S.faults input.old) unlinked)
        (outside (shelf_moment H.tells H.faults H.fetches shelf.new) (moment S.left S.faults input.new) unlinked)) }
    ensures quiet { UnlessReadFault result (SameCounts (H.faults shelf.old) (H.faults shelf.new)) }
    ensures few { RoseAtMost (H.fetches shelf.old) (H.fetches shelf.new) (length (files_of command.now)) }
    ensures quiet_input { UnlessReadFault result (S.faults input.new ≡ S.faults input.old) }
    ensures refused { IfErr result (λ stop. IsRefusal stop → MayRefuse (command_output command.now (H.tells shelf.old) (S.left input.old))) }
    ensures read_to_end { reads_input command.now ≡ true → OnOk result (IsAtEnd (S.left input.new)) }
    ensures input_kept { reads_input command.now ≡ false → input.new ≡ input.old }
    ensures unread { IfErr result (λ stop. IsOfFile stop → input.new ≡ input.old) }
{
    match command.report_file() {
        Some(file) => report_output(rt, alloc, command, shelf, file),
        None => other_output(alloc, command, shelf, input),
    }
}

/// The output of such a command that reports on no table.
fn other_output<H: Shelf, S: Source>(
    alloc: Global,
    command: &Command,
    shelf: &mut H,
    input: &mut S,
) -> Result<Output, Stop>
    requires plain { waits_for_nobody command.now ≡ true }
    requires limits { IsWithinLimits command.now }
    requires other { report_file command.now ≡ None }
    ensures output { IfOk result (λ output. MayRead (other_output command.now (H.tells shelf.old) (S.left input.old)) output) }
    ensures ending { IfOk result (λ output. MayEndWith command.now output.ending) }
    ensures course { IfOk result (λ output. HasCourse command.now (H.tells shelf.old) (S.left input.old) output.text) }
    ensures cause { IfErr result (IsOtherStop command.now
        (outside (shelf_moment H.tells H.faults H.fetches shelf.old) (moment S.left S.faults input.old) unlinked)
        (outside (shelf_moment H.tells H.faults H.fetches shelf.new) (moment S.left S.faults input.new) unlinked)) }
    ensures quiet { UnlessReadFault result (SameCounts (H.faults shelf.old) (H.faults shelf.new)) }
    ensures few { RoseAtMost (H.fetches shelf.old) (H.fetches shelf.new) (length (files_of command.now)) }
    ensures quiet_input { UnlessReadFault result (S.faults input.new ≡ S.faults input.old) }
    ensures refused { IfErr result (λ stop. IsRefusal stop → MayRefuse (other_output command.now (H.tells shelf.old) (S.left input.old))) }
    ensures read_to_end { reads_input command.now ≡ true → OnOk result (IsAtEnd (S.left input.new)) }
    ensures input_kept { reads_input command.now ≡ false → input.new ≡ input.old }
    ensures unread { IfErr result (λ stop. IsOfFile stop → input.new ≡ input.old) }
{
    match command {
        Command::Scale { values, plan } => scale_output(alloc, shelf, values, plan),
        Command::Replay { file, known } => replay(alloc, shelf, input, file, known.as_ref()),
        Command::Make {
            seed,
            objects,
            attributes,
            density,
        } => {
            let recipe = Recipe {
                seed: *seed,
                objects: *objects,
                attributes: *attributes,
                density: *density,
            };
            Ok(make_output(alloc, &recipe)?)
        }
        // (`plain`, `other`: the others wait for experts, or report on one table)
        _ => unreachable!(),
    }
}
