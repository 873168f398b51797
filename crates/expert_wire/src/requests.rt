//! Requests: what a line of a session asks for.

ghost use Rattle.std.specs.Prelude.{◌≡◌, ◌≤◌, ◌⊎◌, Ok, Err, IfOk, IfErr, IsErrOf};
ghost use Rattle.fca_model.specs.declared.TheConstants.{MAX_ATTRIBUTES};
ghost use Rattle.expert_wire.specs.Requests.{TakesMemory, request_form, request_of};

use crate::words::{read_row, utf8_text};
use attr_bits::Attrs;
use fca_model::{NO_MEMORY, Name};
use std::alloc::Global;
use text_pieces::bytes::without_return;
use text_pieces::split_word;
use thiserror::Error;

/// What an expert asks for in a session.
#[derive(Drop)]
pub enum Request {
    Draw,
    Confirm,
    Row { name: Name, row: Attrs },
    Leave,
    Quit,
}

/// Why a line is no request.
#[derive(Debug, Drop, Error)]
pub enum RequestFault {
    #[error("the line has the shape of no request")]
    Line,
    #[error("the pattern has another width")]
    Width,
    #[error("{NO_MEMORY}")]
    Memory,
}

/// The request of a line without its line feed. Rows have width n. One carriage return at the end is dropped.
pub fn read_request(alloc: Global, line: &[u8], n: u32) -> Result<Request, RequestFault>
    requires { n ≤ MAX_ATTRIBUTES }
    ensures ok { IfOk result (λ request. request_form line.now n ≡ Ok request) }
    ensures refused { IfErr result (λ e. (e ≡ RequestFault.Memory) ⊎ (request_form line.now n ≡ Err e)) }
    ensures memory { IsErrOf result RequestFault.Memory → TakesMemory (request_form line.now n) }
{
    match utf8_text(without_return(line)) {
        Some(text) => request_of(alloc, text, n),
        None => Err(RequestFault::Line),
    }
}

/// The request of the text of a line.
fn request_of(alloc: Global, text: &str, n: u32) -> Result<Request, RequestFault>
    requires { n ≤ MAX_ATTRIBUTES }
    ensures ok { IfOk result (λ request. request_of n text.now ≡ Ok request) }
    ensures refused { IfErr result (λ e. (e ≡ RequestFault.Memory) ⊎ (request_of n text.now ≡ Err e)) }
    ensures memory { IsErrOf result RequestFault.Memory → TakesMemory (request_of n text.now) }
{
    match text {
        "draw" => Ok(Request::Draw),
        "confirm" => Ok(Request::Confirm),
        "leave" => Ok(Request::Leave),
        "quit" => Ok(Request::Quit),
        _ => {
            let (verb, words) = split_word(text);
            if verb != "row" {
                return Err(RequestFault::Line);
            }
            let (name, row) = read_row(alloc, words, n)?;
            Ok(Request::Row { name, row })
        }
    }
}
