// What is printed of the settled hour.
use book::SettledHour;
use listing::{LONGEST_LISTING, write_listing};
use std::io;
use std::io::Write;

/// Writes the listing, by way of a buffer in which every listing has room.
pub(crate) fn write_hour<W: Write>(text: &mut W, hour: &SettledHour) -> io::Result<()> {
    let mut buffer = [0; LONGEST_LISTING];
    let length = write_listing(hour, &mut buffer).unwrap();
    text.write_all(&buffer[..length])
}
