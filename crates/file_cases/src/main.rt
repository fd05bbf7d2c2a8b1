// Compares what hourlist prints with the stored cases: hour files, each with the text that a second calculation gives.
#![tactic(auto)]

#[cfg(test)]
mod tests;

use anyhow::{Context, Result, ensure};
use book::Book;
use comparing::Tally;
use hourfile::{Cause, FileFault};
use listing::{list_hour, printed};
use std::alloc::{AllocError, Global};
use std::fs;

// The greatest number with three digits.
const MOST_CASES: u32 = 999;

// Each byte of a buffer before it is written.
const UNUSED: u8 = 7;

fn contents(rt: &HostRuntime, name: &str) -> Result<Vec<u8>> {
    fs::read(rt, name).context(format_args!("reading {name}"))
}

// Whether a buffer of so many bytes is refused for a file's listing and stays as it was.
fn refuses_buffer(heap: Global, file: &[u8], bytes: usize) -> Result<bool, AllocError> {
    let mut book = Book::new();
    let mut out = vec![in heap; UNUSED; bytes]?;
    let listed = list_hour(&mut book, file, out.as_mut_slice());
    let short = FileFault {
        cause: Cause::ShortBuffer,
        place: u32::try_from(file.len()).unwrap_or(u32::MAX),
    };
    Ok(listed.end == Err(short) && out.iter().all(|byte| *byte == UNUSED))
}

// Whether a buffer of so many bytes gets a file's listing and keeps the bytes behind it.
fn fills_buffer(heap: Global, file: &[u8], want: &[u8], bytes: usize) -> Result<bool, AllocError> {
    let mut book = Book::new();
    let mut out = vec![in heap; UNUSED; bytes]?;
    let listed = list_hour(&mut book, file, out.as_mut_slice());
    Ok(
        listed.end == Ok(want.len())
            && out.as_slice().starts_with(want)
            && out.iter().skip(want.len()).all(|byte| *byte == UNUSED),
    )
}

// Whether a buffer gets a file's listing if it is as long or one byte longer, and none if it is one byte shorter.
fn fits_exactly(heap: Global, file: &[u8], want: &[u8]) -> Result<bool, AllocError> {
    let length = want.len();
    Ok(
        fills_buffer(heap, file, want, length)?
            && fills_buffer(heap, file, want, length + 1)?
            && refuses_buffer(heap, file, length.saturating_sub(1))?,
    )
}

// Whether the text stored for a case is what is printed for its file, and a listing is written to buffers likewise.
fn is_same(heap: Global, file: &[u8], want: &[u8]) -> Result<bool, AllocError> {
    let text = printed(heap, file)?;
    if text.as_bytes() != want {
        return Ok(false);
    }
    match want {
        [] => Ok(false),
        [b'R', ..] => Ok(true),
        _ => fits_exactly(heap, file, want),
    }
}

// Compares the cases from number 1 on, up to the first whose file is not there.
fn compare_cases(rt: &HostRuntime) -> Result<Tally> {
    let mut tally = Tally::default();
    for number in 1..=MOST_CASES {
        let name = format!(in rt.alloc(); "{number:03}.hour")?;
        if !fs::exists(rt, name.as_str())? {
            break;
        }
        let file = contents(rt, name.as_str())?;
        let name = format!(in rt.alloc(); "{number:03}.want")?;
        let want = contents(rt, name.as_str())?;
        tally.note(is_same(rt.alloc(), file.as_slice(), want.as_slice())?);
    }
    Ok(tally)
}

fn main(rt: HostRuntime) -> Result<()> {
    let tally = compare_cases(&rt)?;
    println!(rt; "{} hour files, {} differ", tally.compared, tally.differ)?;
    ensure!(tally.compared != 0, "there are no hour files");
    ensure!(tally.differ == 0, "{} hour files differ", tally.differ);
    Ok(())
}
