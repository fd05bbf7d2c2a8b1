// What is still to be read of an hour file.
ghost use Rattle.std.specs.Prelude.{◌+◌, ◌*◌, ◌≤◌, length};

use crate::words::Word;

/// What is still to be read of a file: its words, and the place of the first in bytes. It borrows the file and copies
/// nothing of it.
#[derive(Clone, Copy)]
pub struct Reader<'f> {
    pub(crate) words: &'f [Word],
    pub(crate) place: u32,
    ghost within: { place + 4 * length words.now ≤ 65536 },
}
