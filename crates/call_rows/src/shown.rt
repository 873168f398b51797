//! What a call left, as lines.

ghost use Rattle.std.specs.Prelude.{◌≡◌, false};

use crate::row::{Environment, Row};
use fca_io::{Listener, MemoryEnd, MemoryLink, Shelf, Sink, Source};
use fca_model::{Memory, Word};
use fca_run::run;
use std::alloc::Global;
use std::sync::Wait;
use std::thread::Threads;

/// What a call left: its status, and what it went over.
#[derive(Drop)]
struct Called {
    status: u8,
    environment: Environment,
    link: MemoryLink,
}

/// Runs the call of the row, and puts its title, its status, and what out, err and the clients got behind the text.
pub fn show<R: Threads + Wait + Sync>(
    rt: &R,
    alloc: Global,
    row: &Row,
    text: &mut Vec<u8>,
) -> Result<(), Memory> {
    if row.title.is_empty() {
        return Ok(());
    }
    let called = outcome(rt, alloc, row)?;
    show_head(alloc, text, &row.title, called.status)?;
    let out = called.environment.out.written();
    show_lines(text, b'o', out, row.first_lines, row.last_lines)?;
    show_lines(text, b'e', called.environment.err.written(), usize::MAX, 0)?;
    show_clients(text, called.link.given())
}

/// Runs the call of the row.
fn outcome<R: Threads + Wait + Sync>(rt: &R, alloc: Global, row: &Row) -> Result<Called, Memory> {
    let mut environment = row.environment(alloc)?;
    let mut link = row.link(alloc)?;
    let status = status_over(rt, alloc, &row.words, &mut environment, &mut link);
    Ok(Called {
        status,
        environment,
        link,
    })
}

/// The status of the call of these words over this environment.
fn status_over<R: Threads + Wait + Sync, L: Listener>(
    rt: &R,
    alloc: Global,
    words: &[Word],
    environment: &mut Environment,
    link: &mut L,
) -> u8
    requires { L.listens link.old ≡ false }
{
    let Environment {
        shelf,
        input,
        out,
        err,
    } = environment;
    status_of(rt, alloc, words, shelf, input, out, err, link)
}

/// The status of the call of these words over this environment.
fn status_of<R: Threads + Wait + Sync, H: Shelf, S: Source, K: Sink, E: Sink, L: Listener>(
    rt: &R,
    alloc: Global,
    words: &[Word],
    shelf: &mut H,
    input: &mut S,
    out: &mut K,
    err: &mut E,
    link: &mut L,
) -> u8
    requires { L.listens link.old ≡ false }
{
    run(rt, alloc, words, shelf, input, out, err, link)
}

/// Puts the title and the status behind the text.
fn show_head(alloc: Global, text: &mut Vec<u8>, title: &[u8], status: u8) -> Result<(), Memory> {
    text.extend_from_slice(title)?;
    let line = format!(in alloc; "\nstatus {status}\n")?;
    text.extend_from_slice(line.as_bytes())?;
    Ok(())
}

/// Puts what each client was sent behind the text.
fn show_clients(text: &mut Vec<u8>, clients: &[MemoryEnd]) -> Result<(), Memory> {
    for client in clients {
        text.extend_from_slice(b"client\n")?;
        show_lines(text, b'c', client.written(), usize::MAX, 0)?;
    }
    Ok(())
}

/// Puts the first and the last of the lines behind the text, each behind its letter: a capital where the line ends.
fn show_lines(
    text: &mut Vec<u8>,
    letter: u8,
    bytes: &[u8],
    first: usize,
    last: usize,
) -> Result<(), Memory> {
    let count = bytes.split_inclusive(|byte| *byte == b'\n').count();
    for (place, line) in bytes.split_inclusive(|byte| *byte == b'\n').enumerate() {
        if place < first || place >= count.saturating_sub(last) {
            show_line(text, letter, line)?;
        }
    }
    Ok(())
}

/// Puts the line behind the text, behind its letter.
fn show_line(text: &mut Vec<u8>, letter: u8, line: &[u8]) -> Result<(), Memory> {
    match line.strip_suffix(b"\n") {
        Some(whole) => push_all(text, letter.to_ascii_uppercase(), whole),
        None => push_all(text, letter, line),
    }
}

fn push_all(text: &mut Vec<u8>, letter: u8, line: &[u8]) -> Result<(), Memory> {
    text.push(letter)?;
    if !line.is_empty() {
        text.push(b' ')?;
        text.extend_from_slice(line)?;
    }
    text.push(b'\n')?;
    Ok(())
}
