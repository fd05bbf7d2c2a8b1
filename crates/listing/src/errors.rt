// Why a listing wasn't written.

/// The buffer has fewer bytes than the listing, and nothing was written: 13 of docs/refusals.md.
#[derive(Clone, Copy, Debug, PartialEq)]
pub struct ShortBuffer;
