// The words of an hour file.
ghost use Rattle.std.specs.Prelude.{◌≡◌};
ghost use Rattle.hourfile.specs.Words.{word, words, kind_of, count_of, is_value, all_values, value_at};

/// The four bytes of a word, the lowest first.
pub type Word = [u8; 4];

// How many numbers 28 bits hold.
const NUMBERS: u32 = 268_435_456;

/// The kind of a word: its top four bits.
pub(crate) fn kind_of(bytes: &Word) -> u32
    ensures { result ≡ kind_of (word bytes.now) }
{
    u32::from_le_bytes(*bytes) / NUMBERS
}

/// The number of a word: its low 28 bits.
pub(crate) fn count_of(bytes: &Word) -> u32
    ensures { result ≡ count_of (word bytes.now) }
{
    u32::from_le_bytes(*bytes) % NUMBERS
}

/// The value at a place of a record's values, counted from 0; past their end it is 0.
pub fn value_at(values: &[Word], place: usize) -> u32
    ensures { result ≡ value_at (words values.now) place }
{
    values
        .get(place)
        .map_or(0, |bytes| u32::from_le_bytes(*bytes))
}

// Whether a word is a value: its kind is 0.
fn is_value(bytes: &Word) -> bool
    ensures { result ≡ is_value (word bytes.now) }
{
    kind_of(bytes) == 0
}

/// Whether each word is a value: of kind 0.
pub(crate) fn all_values(values: &[Word]) -> bool
    ensures { result ≡ all_values (words values.now) }
{
    values.iter().all(is_value)
}
