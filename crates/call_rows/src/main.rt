//! Runs calls over ends in memory, as the lines of the standard input describe them, and prints what each wrote.
#![tactic(auto)]

mod keys;
mod row;
mod shown;

use crate::row::Row;
use crate::shown::show;
use fca_model::Memory;
use std::alloc::Global;
use std::io::{Read, Write};
use std::process::ExitCode;
use std::sync::Wait;
use std::thread::Threads;

fn main(rt: HostRuntime) -> ExitCode {
    let mut text = Vec::new(rt.alloc());
    if rt.stdin().read_to_end(&mut text).is_err() {
        return ExitCode::FAILURE;
    }
    let Ok(shown) = all_shown(&rt, rt.alloc(), &text) else {
        return ExitCode::FAILURE;
    };
    match rt.stdout().write_all(&shown) {
        Ok(()) => ExitCode::SUCCESS,
        Err(_) => ExitCode::FAILURE,
    }
}

/// What the calls in the text wrote, in their order, and the headings among them, which begin with `#`.
fn all_shown<R: Threads + Wait + Sync>(
    rt: &R,
    alloc: Global,
    text: &[u8],
) -> Result<Vec<u8>, Memory> {
    let mut shown = Vec::new(alloc);
    let mut row = Row::new(alloc);
    for line in text.split(|byte| *byte == b'\n') {
        if line.starts_with(b"call") || line.starts_with(b"#") {
            show(rt, alloc, &row, &mut shown)?;
            row = Row::new(alloc);
        }
        if line.starts_with(b"#") {
            shown.extend_from_slice(line)?;
            shown.push(b'\n')?;
        }
        row.read(line)?;
    }
    show(rt, alloc, &row, &mut shown)?;
    Ok(shown)
}
