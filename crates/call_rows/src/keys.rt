//! What the lines that describe a call begin with.

/// What a line says.
#[derive(Clone, Copy)]
pub enum LineKey {
    Call,
    Word,
    File,
    FileLine,
    Fill,
    InputLine,
    Client,
    ClientLine,
    Fails,
    Number(NumberKey),
}

/// What a line sets to a number.
#[derive(Clone, Copy)]
pub enum NumberKey {
    Input,
    Out,
    First,
    Last,
}

/// What has calls that may fail.
#[derive(Clone, Copy)]
pub enum FailingCall {
    Shelf,
    Input,
    Out,
    Err,
    Link,
    Read,
    Write,
}

const KEYS: [(&[u8], LineKey); 16] = [
    (b"call", LineKey::Call),
    (b"word", LineKey::Word),
    (b"file", LineKey::File),
    (b"F", LineKey::FileLine),
    (b"f", LineKey::FileLine),
    (b"fill", LineKey::Fill),
    (b"I", LineKey::InputLine),
    (b"i", LineKey::InputLine),
    (b"client", LineKey::Client),
    (b"C", LineKey::ClientLine),
    (b"c", LineKey::ClientLine),
    (b"fails", LineKey::Fails),
    (b"input", LineKey::Number(NumberKey::Input)),
    (b"out", LineKey::Number(NumberKey::Out)),
    (b"first", LineKey::Number(NumberKey::First)),
    (b"last", LineKey::Number(NumberKey::Last)),
];

const FAILING_CALLS: [(&[u8], FailingCall); 7] = [
    (b"shelf", FailingCall::Shelf),
    (b"input", FailingCall::Input),
    (b"out", FailingCall::Out),
    (b"err", FailingCall::Err),
    (b"link", FailingCall::Link),
    (b"read", FailingCall::Read),
    (b"write", FailingCall::Write),
];

/// What a line that begins with the word says, if anything.
pub fn key_of(word: &[u8]) -> Option<LineKey> {
    let (_, key) = KEYS.iter().find(|(text, _)| *text == word)?;
    Some(*key)
}

/// The calls that the word names, if any.
pub fn failing_call_of(word: &[u8]) -> Option<FailingCall> {
    let (_, calls) = FAILING_CALLS.iter().find(|(text, _)| *text == word)?;
    Some(*calls)
}
