// A reader of CSV records.
ghost use Rattle.std.specs.Prelude.{false, ◌≡◌, ◌≤◌, ◌<◌, length, [], ◌∷◌, IfOk, OnErr, MatchBool, slice_index_or};
ghost use Rattle.csv.specs.Reading.{default_config, records};
ghost use Rattle.csv.specs.Records.{fields_of};
ghost use Rattle.text_lines.specs.Lines.{begins_with_mark};
ghost use Rattle.text_lines.specs.Records.{bytes_in_all};

use csv::{ByteRecord, Reader, ReaderBuilder};
use std::alloc::{AllocError, Global};
use std::marker::Model;

/// Reads the records of a text one after another. Its model is the records that are left.
#[derive(Drop)]
pub struct RecordReader<'a> {
    rdr: Reader<&'a [u8]>,
    done: bool,
}

impl<'a> Model for RecordReader<'a> {
    ghost use Rattle.std.specs.Prelude.{◌≡◌, ℕ, List, [], false, if◌then◌else◌};

    ghost Value = { List (List (List ℕ)) };

    ghost use Rattle.text_lines.specs.Records.{IsPlain, rows_left};

    ghost view = { λ s. if s.done then [] else rows_left s.rdr };

    ghost invariant = { λ s. s.done ≡ false → IsPlain s.rdr };
}

ghost use Rattle.text_lines.specs.Records.{IsPlain, Steps};

/// The bytes of the field of a record at a place, counted from 0.
pub fn field(row: &ByteRecord, at: usize) -> &[u8]
    requires { at < length (fields_of row.now) }
    ensures { result.now ≡ slice_index_or (fields_of row.now) at [] }
{
    row.get(at).unwrap()
}

// Reads the next record. The reader stands between two records.
fn read_record(rdr: &mut Reader<&[u8]>, row: &mut ByteRecord) -> Result<bool, AllocError>
    requires { IsPlain rdr.old }
    ensures { IfOk result (λ found. Steps rdr.old rdr.new found (fields_of row.new)) }
{
    let Ok(found) = rdr.read_byte_record(row) else {
        return Err(AllocError);
    };
    Ok(found)
}

impl<'a> RecordReader<'a> {
    #[tactic(auto, using(crate::proofs::Sizes::size_records, crate::proofs::Sizes::few_records))]
    /// A reader of a text. If the text had a byte order mark, it is cut off already.
    pub fn new(alloc: Global, text: &'a [u8]) -> Self
        requires unmarked { begins_with_mark text.now ≡ false }
        ensures records { result ≡ records default_config text.now }
        ensures size { bytes_in_all result ≤ length text.now }
        ensures few { length result ≤ length text.now }
    {
        RecordReader::start(alloc, text)
    }

    #[tactic(auto, using(crate::proofs::Unmarked::as_it_stands))]
    fn start(alloc: Global, text: &'a [u8]) -> Self
        requires { begins_with_mark text.now ≡ false }
        ensures { result ≡ records default_config text.now }
    {
        let rdr = ReaderBuilder::new()
            .has_headers(false)
            .flexible(true)
            .from_reader(alloc, text);
        RecordReader { rdr, done: false }
    }

    /// Reads the next record. False if there is none. After an `Err` no record is left.
    pub fn next(&mut self, row: &mut ByteRecord) -> Result<bool, AllocError>
        ensures next { IfOk result
            (λ found. MatchBool found (self.old ≡ fields_of row.new ∷ self.new) ((self.old ≡ [])
            × (self.new ≡ []))) }
        ensures err { OnErr result (self.new ≡ []) }
    {
        if self.done {
            return Ok(false);
        }
        match read_record(&mut self.rdr, row) {
            Ok(true) => Ok(true),
            Ok(false) => {
                self.done = true;
                Ok(false)
            }
            Err(error) => {
                self.done = true;
                Err(error)
            }
        }
    }
}
