//! Addresses to listen at.

ghost use Rattle.std.specs.Prelude.{◌≡◌, ◌<◌, length, IfSome};
ghost use Rattle.std.specs.Path.{rfind_below};
ghost use Rattle.real_ends.specs.Addresses as address;

use text_pieces::{is_numeral, value_of};

/// The last port.
const LAST_PORT: u64 = 65_535;

/// The most digits that a port has.
const PORT_DIGITS: usize = 5;

/// Whether the text is a host, a colon and a port from 1 to 65535 without leading zeros.
pub fn is_address(text: &[u8]) -> bool
    ensures { result ≡ address.is_address text.now }
{
    match last_colon(text) {
        Some(place) => place > 0 && is_port(&text[place + 1..]),
        None => false,
    }
}

/// The place of the last colon.
fn last_colon(text: &[u8]) -> Option<usize>
    ensures last { result ≡ rfind_below 58 text.now (length text.now) }
    ensures inside { IfSome result (λ place. place < length text.now) }
{
    let mut last = None;
    for (place, byte) in text.iter().enumerate() {
        if *byte == b':' {
            last = Some(place);
        }
    }
    last
}

/// Whether the digits are a port without leading zeros.
fn is_port(digits: &[u8]) -> bool
    ensures { result ≡ address.is_port digits.now }
{
    if !is_numeral(digits) || digits.len() > PORT_DIGITS || digits[0] == b'0' {
        return false;
    }
    match value_of(digits) {
        Some(port) => port <= LAST_PORT,
        None => false,
    }
}
