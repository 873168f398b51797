//! A call and what it goes over, as lines describe it.

ghost use Rattle.std.specs.Prelude.{◌≡◌, false, IfOk};

use crate::keys::{FailingCall, LineKey, NumberKey, failing_call_of, key_of};
use fca_io::{MemoryEnd, MemoryLink, MemoryShelf, MemorySink, MemorySource};
use fca_model::{Memory, Word};
use std::alloc::Global;

/// How many bytes each end takes.
const ROOM: usize = 10_000_000;

/// A file of the shelf.
#[derive(Drop)]
struct File {
    name: Vec<u8>,
    bytes: Vec<u8>,
}

/// What a client sends, and which of its calls fail, counted from 1.
#[derive(Drop)]
struct Client {
    bytes: Vec<u8>,
    read_fails: Vec<usize>,
    write_fails: Vec<usize>,
}

/// What a call goes over, but its link.
#[derive(Drop)]
pub struct Environment {
    pub shelf: MemoryShelf,
    pub input: MemorySource,
    pub out: MemorySink,
    pub err: MemorySink,
}

/// A call: its words, what its files, its input and its clients hold, which calls of its ends fail, how many bytes its
/// input and out move at a time, and how many of the first and last lines of out are shown.
#[derive(Drop)]
pub struct Row {
    /// The line that begins it, or nothing before the first.
    pub title: Vec<u8>,
    pub words: Vec<Word>,
    files: Vec<File>,
    input: Vec<u8>,
    clients: Vec<Client>,
    shelf_fails: Vec<usize>,
    input_fails: Vec<usize>,
    out_fails: Vec<usize>,
    err_fails: Vec<usize>,
    link_fails: Vec<usize>,
    input_most: usize,
    out_most: usize,
    pub first_lines: usize,
    pub last_lines: usize,
}

impl Row {
    /// A call of no words.
    pub fn new(alloc: Global) -> Row {
        Row {
            title: Vec::new(alloc),
            words: Vec::new(alloc),
            files: Vec::new(alloc),
            input: Vec::new(alloc),
            clients: Vec::new(alloc),
            shelf_fails: Vec::new(alloc),
            input_fails: Vec::new(alloc),
            out_fails: Vec::new(alloc),
            err_fails: Vec::new(alloc),
            link_fails: Vec::new(alloc),
            input_most: 7,
            out_most: 10,
            first_lines: usize::MAX,
            last_lines: 0,
        }
    }

    /// Takes one line; one with no such key says nothing.
    ///
    /// - `call WORDS` begins the call, and `word WORD` adds a word with its blanks.
    /// - `file NAME` begins a file, `client` a client. `F`, `I` and `C` have a line of the last file (`F`, where none is
    ///   begun), of the input, of what the last client sends; in small letters, one that does not end. `fill BYTES`: the
    ///   last file has so many bytes, letters `B`.
    /// - `fails END NUMBER`: the call with this number of `shelf`, `input`, `out`, `err` or `link`, or of the last client
    ///   (`read` or `write`), fails. `input BYTES` and `out BYTES`: so many are moved at a time.
    /// - `first LINES` and `last LINES`: so many of the lines of out are shown.
    pub fn read(&mut self, line: &[u8]) -> Result<(), Memory> {
        let (word, rest) = split_word(line);
        match key_of(word) {
            Some(LineKey::Call) => self.begin(line, rest),
            Some(LineKey::Word) => self.push_word(rest),
            Some(LineKey::File) => self.begin_file(rest),
            Some(LineKey::FileLine) => self.push_to_file(word, rest),
            Some(LineKey::Fill) => self.fill(number_of(rest)),
            Some(LineKey::InputLine) => push_line(&mut self.input, word, rest),
            Some(LineKey::Client) => self.begin_client(),
            Some(LineKey::ClientLine) => self.push_to_client(word, rest),
            Some(LineKey::Fails) => self.push_failing(rest),
            Some(LineKey::Number(number)) => {
                self.set_number(number, number_of(rest));
                Ok(())
            }
            None => Ok(()),
        }
    }

    /// The title, and the words that stand in it apart by blanks.
    fn begin(&mut self, line: &[u8], words: &[u8]) -> Result<(), Memory> {
        self.title.extend_from_slice(line)?;
        for word in words.split(|byte| *byte == b' ') {
            if !word.is_empty() {
                self.push_word(word)?;
            }
        }
        Ok(())
    }

    fn push_word(&mut self, bytes: &[u8]) -> Result<(), Memory> {
        let alloc = *self.words.allocator();
        self.words.push(Word::new(alloc, bytes)?)?;
        Ok(())
    }

    fn begin_file(&mut self, name: &[u8]) -> Result<(), Memory> {
        let alloc = *self.files.allocator();
        self.files.push(File {
            name: Vec::from_slice(alloc, name)?,
            bytes: Vec::new(alloc),
        })?;
        Ok(())
    }

    fn push_to_file(&mut self, key: &[u8], line: &[u8]) -> Result<(), Memory> {
        if self.files.is_empty() {
            self.begin_file(b"F")?;
        }
        match self.files.last_mut() {
            Some(file) => push_line(&mut file.bytes, key, line),
            None => Ok(()),
        }
    }

    fn fill(&mut self, count: usize) -> Result<(), Memory> {
        match self.files.last_mut() {
            Some(file) => Ok(file.bytes.resize(count, b'B')?),
            None => Ok(()),
        }
    }

    fn push_to_client(&mut self, key: &[u8], line: &[u8]) -> Result<(), Memory> {
        match self.clients.last_mut() {
            Some(client) => push_line(&mut client.bytes, key, line),
            None => Ok(()),
        }
    }

    fn begin_client(&mut self) -> Result<(), Memory> {
        let alloc = *self.clients.allocator();
        self.clients.push(Client {
            bytes: Vec::new(alloc),
            read_fails: Vec::new(alloc),
            write_fails: Vec::new(alloc),
        })?;
        Ok(())
    }

    /// The call with this number of the end that is named fails.
    fn push_failing(&mut self, text: &[u8]) -> Result<(), Memory> {
        let (word, digits) = split_word(text);
        let number = number_of(digits);
        match failing_call_of(word) {
            Some(FailingCall::Shelf) => self.shelf_fails.push(number)?,
            Some(FailingCall::Input) => self.input_fails.push(number)?,
            Some(FailingCall::Out) => self.out_fails.push(number)?,
            Some(FailingCall::Err) => self.err_fails.push(number)?,
            Some(FailingCall::Link) => self.link_fails.push(number)?,
            Some(FailingCall::Read) => self.push_failing_read(number)?,
            Some(FailingCall::Write) => self.push_failing_write(number)?,
            None => {}
        }
        Ok(())
    }

    fn push_failing_read(&mut self, number: usize) -> Result<(), Memory> {
        match self.clients.last_mut() {
            Some(client) => Ok(client.read_fails.push(number)?),
            None => Ok(()),
        }
    }

    fn push_failing_write(&mut self, number: usize) -> Result<(), Memory> {
        match self.clients.last_mut() {
            Some(client) => Ok(client.write_fails.push(number)?),
            None => Ok(()),
        }
    }

    fn set_number(&mut self, key: NumberKey, number: usize) {
        match key {
            NumberKey::Input => self.input_most = number,
            NumberKey::Out => self.out_most = number,
            NumberKey::First => self.first_lines = number,
            NumberKey::Last => self.last_lines = number,
        }
    }

    /// What it goes over, but the link.
    pub fn environment(&self, alloc: Global) -> Result<Environment, Memory> {
        Ok(Environment {
            shelf: self.shelf(alloc)?,
            input: MemorySource::new(
                alloc,
                &self.input,
                &self.input_fails,
                self.input_most.max(1),
            )?,
            out: MemorySink::new(alloc, ROOM, &self.out_fails, self.out_most.max(1))?,
            err: MemorySink::new(alloc, ROOM, &self.err_fails, 7)?,
        })
    }

    /// A shelf with its files.
    fn shelf(&self, alloc: Global) -> Result<MemoryShelf, Memory> {
        let mut shelf = MemoryShelf::new(alloc, &self.shelf_fails)?;
        for file in &self.files {
            shelf.put(&file.name, &file.bytes)?;
        }
        Ok(shelf)
    }

    /// A link with its clients at the address `x`.
    pub fn link(&self, alloc: Global) -> Result<MemoryLink, Memory>
        ensures { IfOk result (λ link. link.listens ≡ false) }
    {
        let mut ends = Vec::new(alloc);
        for client in &self.clients {
            ends.push(client.end(alloc)?)?;
        }
        MemoryLink::new(alloc, b"x", ends, &self.link_fails)
    }
}

impl Client {
    fn end(&self, alloc: Global) -> Result<MemoryEnd, Memory> {
        MemoryEnd::new(
            alloc,
            &self.bytes,
            ROOM,
            &self.read_fails,
            &self.write_fails,
            7,
        )
    }
}

/// The bytes before the first blank, and those behind it.
fn split_word(line: &[u8]) -> (&[u8], &[u8]) {
    let mut parts = line.splitn(2, |byte| *byte == b' ');
    (
        parts.next().unwrap_or_default(),
        parts.next().unwrap_or_default(),
    )
}

/// Puts the line behind the text, with its end where the key is a capital.
fn push_line(text: &mut Vec<u8>, key: &[u8], line: &[u8]) -> Result<(), Memory> {
    text.extend_from_slice(line)?;
    if key.iter().any(|byte| byte.is_ascii_uppercase()) {
        text.push(b'\n')?;
    }
    Ok(())
}

/// The number that the text is, or 0.
fn number_of(text: &[u8]) -> usize {
    match str::from_utf8(text) {
        Ok(digits) => digits.parse().unwrap_or(0),
        Err(_) => 0,
    }
}
