//! Records without quotes: each is a line, and commas part its fields.

ghost use Rattle.std.specs.Prelude.{◌≡◌, ◌+◌, ◌∷◌, [], IfSome, MatchOption, OnOk, length};
ghost use Rattle.csv.specs.Reading.{is_bom, strip_bom};
ghost use Rattle.csv.specs.Records.{fields_of};
ghost use Rattle.fca_model.specs.Names as name;
ghost use Rattle.csv_context.specs.Lines.{AreFirst, IsUnquoted, TakesLine, fields_behind, fields_in, records_in, without_ends};
ghost use Rattle.csv_context.specs.Records.{csv_records};

use csv::ByteRecord;
use fca_model::Memory;
use memchr::{memchr, memchr2};

/// The bytes of the text behind its byte order mark, if they have no quote.
pub fn unquoted_bytes(text: &str) -> Option<&[u8]>
    ensures unquoted { IfSome result (λ bytes. IsUnquoted bytes.now) }
    ensures records { IfSome result (λ bytes. csv_records text.now ≡ records_in bytes.now) }
{
    let bytes = without_bom(text.as_bytes());
    match memchr(b'"', bytes) {
        Some(_) => None,
        None => Some(bytes),
    }
}

/// The bytes without the byte order mark before them.
fn without_bom(bytes: &[u8]) -> &[u8]
    ensures { result.now ≡ strip_bom bytes.now }
{
    if bytes.len() < 3 {
        return bytes;
    }
    if is_bom(bytes[0], bytes[1], bytes[2]) {
        return &bytes[3..];
    }
    bytes
}

/// Whether the three bytes are a byte order mark.
fn is_bom(first: u8, second: u8, third: u8) -> bool
    ensures { result ≡ is_bom first second third }
{
    first == 0xEF && second == 0xBB && third == 0xBF
}

/// The first line that is not empty, and the bytes behind it.
pub fn next_line(bytes: &[u8]) -> Option<(&[u8], &[u8])>
    requires { IsUnquoted bytes.now }
    ensures { MatchOption result (records_in bytes.now ≡ []) (λ p. TakesLine bytes.now p.0.now p.1.now) }
{
    let rest = without_ends(bytes);
    if rest.is_empty() {
        return None;
    }
    match memchr2(b'\n', b'\r', rest) {
        Some(end) => Some((&rest[..end], &rest[end + 1..])),
        None => Some((rest, b"")),
    }
}

/// The bytes from the first that ends no line on.
fn without_ends(bytes: &[u8]) -> &[u8]
    ensures { result.now ≡ without_ends bytes.now }
{
    let mut rest = bytes;
    while let [first, behind @ ..] = rest
        && is_line_break(*first)
    {
        rest = behind;
    }
    rest
}

fn is_line_break(byte: u8) -> bool
    ensures { result ≡ name.is_line_break byte }
{
    byte == b'\n' || byte == b'\r'
}

/// The number of commas of a line.
pub fn commas_in(line: &[u8]) -> usize
    ensures { result + 1 ≡ length (fields_in line.now) }
{
    let mut commas = 0;
    for byte in line {
        if *byte == b',' {
            commas += 1;
        }
    }
    commas
}

/// The first field of a line, and the bytes behind its comma. Most cells have one byte or none.
pub fn next_field(line: &[u8]) -> (&[u8], Option<&[u8]>)
    ensures { fields_in line.now ≡ result.0.now ∷ fields_behind result.1 }
{
    if line.len() < 2 {
        return field_by_search(line);
    }
    if line[0] == b',' {
        return (&line[..0], Some(&line[1..]));
    }
    if line[1] == b',' {
        return (&line[..1], Some(&line[2..]));
    }
    field_by_search(line)
}

/// The first field of a line, of any length, and the bytes behind its comma.
fn field_by_search(line: &[u8]) -> (&[u8], Option<&[u8]>)
    ensures { fields_in line.now ≡ result.0.now ∷ fields_behind result.1 }
{
    match memchr(b',', line) {
        Some(comma) => (&line[..comma], Some(&line[comma + 1..])),
        None => (line, None),
    }
}

/// Reads the fields of the line into a record. After an `Err` the record has the first of them.
pub fn read_fields(fields: &mut ByteRecord, line: &[u8]) -> Result<(), Memory>
    ensures whole { OnOk result (fields_of fields.new ≡ fields_in line.now) }
    ensures front { AreFirst (fields_of fields.new) (fields_in line.now) }
{
    fields.clear();
    let mut rest = Some(line);
    while let Some(left) = rest {
        let (field, behind) = next_field(left);
        fields.push_field(field)?;
        rest = behind;
    }
    Ok(())
}
