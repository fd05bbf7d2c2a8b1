// Where the hour of a file stands.
use book::{Book, ClosedHour, OpenHour, SettledHour};
use hourfile::FileFault;

/// The hour in the state that the accepted records have led to. It borrows the book, and nothing of the file.
#[derive(Drop)]
pub enum Reached<'b> {
    /// No header was accepted: the book holds what it held before.
    Unopened(&'b mut Book),
    /// An open hour: the book holds the accepted entries.
    Open(OpenHour<'b>),
    /// A closed hour: the book holds the amounts and the run support of closing too, and the accepted readings.
    Closed(ClosedHour<'b>),
    /// A settled hour: the book holds its figures too.
    Settled(SettledHour<'b>),
}

/// What reading a file led to.
#[derive(Drop)]
pub struct FileHour<'b> {
    /// The hour, with the effect of exactly the records before the fault. A caller can go on with it.
    pub reached: Reached<'b>,
    /// `Ok` where all records were accepted and the hour is settled; else the first fault, 1 to 12 or 14 to 16, and its
    /// place.
    pub end: Result<(), FileFault>,
}
