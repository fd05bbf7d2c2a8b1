// What a listing is written to.
ghost use Rattle.std.specs.Prelude.{◌≡◌, ℕ, ◌+◌, ◌≤◌, List, ◌++◌, length, OnOk};
ghost use Rattle.std.specs.String.{string_bytes};

use arrayvec::ArrayString;
use std::alloc::AllocError;
use std::convert::Infallible;

/// The most bytes of a listing: 51 for each of 256 units, 111 for each of 32 plants, 48 for each of 64 buyers, 65 for
/// the hour.
pub const LONGEST_LISTING: usize = 19_745;

/// A text that grows up to the length of the longest listing.
pub trait Sink {
    /// Why a piece couldn't be appended: want of memory, or for a text of fixed room never.
    type Error: Copy;

    ghost bytes: { Self → List ℕ };

    /// Appends a piece, with which the text has at most 19,745 bytes.
    fn push(&mut self, piece: &str) -> Result<(), Self::Error>
        requires { length (bytes self.old) + length piece.now ≤ 19745 }
        ensures { OnOk result (bytes self.new ≡ bytes self.old ++ piece.now) };
}

/// A text of fixed room, which needs no heap.
pub(crate) type Text = ArrayString<LONGEST_LISTING>;

impl Sink for Text {
    type Error = Infallible;

    ghost bytes = { λ text. text.bytes };

    fn push(&mut self, piece: &str) -> Result<(), Infallible> {
        self.push_str(piece);
        Ok(())
    }
}

impl Sink for String {
    type Error = AllocError;

    ghost bytes = { string_bytes };

    fn push(&mut self, piece: &str) -> Result<(), AllocError> {
        self.push_str(piece)
    }
}
