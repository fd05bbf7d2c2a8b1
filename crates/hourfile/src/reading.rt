// Reads the records of an hour file, one after another.
ghost use Rattle.std.specs.Prelude.{◌≡◌, ◌≤◌, ℕ, List, length, ◌++◌, Some, Ok, IfSome};
ghost use Rattle.std.specs.Option.{option_map};
ghost use Rattle.hourfile.specs.Words.{word, words};
ghost use Rattle.hourfile.specs.Format.{Plain, Writable, Spelt, record_words, view_headed, headed_record};
ghost use Rattle.hourfile.specs.Reading.{At, rest_of, found_next, after_next, view_next, start, view_start};

use crate::faults::{Cause, FileFault};
use crate::reader::Reader;
use crate::records::Record;
use crate::words::{Word, count_of, kind_of};

/// The most bytes of a file: 16,384 words of four bytes.
pub const MOST_BYTES: usize = 65_536;

/// A record of a file, and where it stands.
#[derive(Clone, Copy)]
pub struct PlacedRecord<'f> {
    /// The record. Its values are borrowed from the file.
    pub record: Record<'f>,
    /// The place of the record's head, in bytes from the file's start.
    pub place: u32,
}

// The record of a head, and the words behind the record; nothing if no whole record stands there.
#[tactic(auto, using(crate::proofs::Values::words_take, crate::proofs::Values::words_drop, crate::proofs::Values::words_long))]
fn headed<'f>(head: &Word, rest: &'f [Word]) -> Option<(Record<'f>, &'f [Word])>
    ensures record { option_map view_headed result ≡ headed_record (word head.now) (words rest.now) }
    ensures fewer { IfSome result (λ x. length x.1.now ≤ length rest.now) }
{
    let (values, after) = rest.split_at_checked(count_of(head) as usize)?;
    let record = Record::new(kind_of(head), values)?;
    Some((record, after))
}

impl<'f> Reader<'f> {
    /// A reader at a file's first word. `Err` is 14 at place 0: the file has over 65,536 bytes, or ends within a word.
    pub fn new(file: &'f [u8]) -> Result<Reader<'f>, FileFault>
        ensures { view_start result ≡ start file.now }
    {
        let (words, others) = file.as_chunks::<4>();
        if file.len() > MOST_BYTES || !others.is_empty() {
            return Err(FileFault {
                cause: Cause::Length,
                place: 0,
            });
        }
        Ok(Reader { words, place: 0 })
    }

    /// The place of the next word, in bytes from the file's start; at the end it is the file's length.
    pub fn place(&self) -> u32
        ensures { result ≡ (rest_of self.now).place }
    {
        self.place
    }

    /// The next record; `Ok(None)` at the end of the file. `Err` is 15 at the place of what is no whole record, and the
    /// reader stays there.
    pub fn next(&mut self) -> Result<Option<PlacedRecord<'f>>, FileFault>
        ensures found { view_next result ≡ found_next (rest_of self.old) }
        ensures after { rest_of self.new ≡ after_next (rest_of self.old) }
        // The words that were passed are those of the record that is answered.
        ensures spelt { (at : At) → view_next result ≡ Ok (Some at) → Spelt (rest_of self.old).words (record { found = at.found; rest = (rest_of self.new).words }) }
        // Where the words of a record stand next, that record is answered.
        ensures again { (r : Plain) (rest : List ℕ) → Writable r → (rest_of self.old).words ≡ record_words r ++ rest → (view_next result ≡ Ok (Some (record { found = r; place = (rest_of self.old).place }))) × ((rest_of self.new).words ≡ rest) }
    {
        self.advance()
    }

    // The next record and what is left behind it.
    fn advance(&mut self) -> Result<Option<PlacedRecord<'f>>, FileFault>
        ensures found { view_next result ≡ found_next (rest_of self.old) }
        ensures after { rest_of self.new ≡ after_next (rest_of self.old) }
    {
        let place = self.place;
        let Some((head, rest)) = self.words.split_first() else {
            return Ok(None);
        };
        let Some((record, after)) = headed(head, rest) else {
            return Err(FileFault {
                cause: Cause::Malformed,
                place,
            });
        };
        let read = (self.words.len() - after.len()) as u32;
        *self = Reader {
            words: after,
            place: place + 4 * read,
        };
        Ok(Some(PlacedRecord { record, place }))
    }
}
