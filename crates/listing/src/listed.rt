// What listing a file comes to.
use hourfile::FileFault;
use reader::Reached;

/// What listing a file led to.
#[derive(Drop)]
pub struct Listed<'b> {
    /// The hour, with the effect of exactly the records before the fault; at 13 it is settled. It borrows the book.
    pub reached: Reached<'b>,
    /// The listing's length in bytes, or the first fault: 1 to 12 or 14 to 16 of the file, or 13 where its listing has
    /// no room.
    pub end: Result<usize, FileFault>,
}
