//! The records of a text, one after the other.

ghost use Rattle.std.specs.Prelude.{◌≡◌, [], true, IfOk, OnOk, OnErr};
ghost use Rattle.csv.specs.Reading.{is_flexible};
ghost use Rattle.csv.specs.Records.{fields_of};
ghost use Rattle.csv_context.specs.Records.{IsOpenReader, Reads, csv_records, records_left};

use csv::{ByteRecord, Reader, ReaderBuilder};
use fca_model::Memory;
use std::alloc::Global;

/// A reader of the records of the text, which may have any length.
pub fn open<'a>(alloc: Global, text: &'a str) -> Reader<&'a [u8]>
    ensures open { IsOpenReader result }
    ensures records { records_left result ≡ csv_records text.now }
    ensures flexible { is_flexible result ≡ true }
{
    ReaderBuilder::new()
        .has_headers(false)
        .flexible(true)
        .from_reader(alloc, text.as_bytes())
}

/// Reads the next record, and returns whether there was one. After an `Err` the reader has no record left, and nothing is known of
/// the fields.
pub fn next_record(reader: &mut Reader<&[u8]>, fields: &mut ByteRecord) -> Result<bool, Memory>
    requires { IsOpenReader reader.old }
    ensures read { IfOk result (λ found. Reads reader.old reader.new found (fields_of fields.new)) }
    ensures flexible { OnOk result (is_flexible reader.new ≡ is_flexible reader.old) }
    ensures failed { is_flexible reader.old ≡ true → OnErr result (records_left reader.new ≡ []) }
{
    reader.read_byte_record(fields).map_err(|_| Memory)
}
