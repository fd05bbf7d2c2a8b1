// Runs a job: takes its units, and answers its shares.
ghost use Rattle.std.specs.Prelude.{◌≡◌, ◌<◌, ◌≤◌, true, false, [], ◌∷◌, ◌++◌, length, codes, IfOk, IfErr, Err, vec_len, string_bytes, OnOk, IsUtf8};
ghost use Rattle.split.specs.Answers.{Answer, AddsAnswer};
ghost use Rattle.split.specs.Faults.{IsMemory};
ghost use Rattle.split.specs.declared.faults.Fault.TheVariants.{UnitAfterShare, TooManyUnits};

use crate::faults::Fault;
use crate::lines::{Line, read_line};
use crate::report::share_text;
use allocation::{MAX_UNITS, split, total_cost};
use curves::SteppedOffer;
use std::alloc::{AllocError, Global};
use std::io;
use std::io::Read;

// The most bytes of a job.
const MAX_INPUT: u64 = 1 << 20;

// A job as far as it was read, and the text that answers it.
#[derive(Drop)]
struct Job {
    // The units' limits and offers: two rows, as the split reads them.
    limits: Vec<u32>,
    offers: Vec<SteppedOffer>,
    shares_begun: bool,
    text: String,
}

impl Job {
    fn new(heap: Global) -> Job {
        Job {
            limits: Vec::new(heap),
            offers: Vec::new(heap),
            shares_begun: false,
            text: String::new(heap),
        }
    }

    fn take_line(&mut self, heap: Global, text: &str) -> Result<(), Fault> {
        match read_line(heap, text)? {
            None => Ok(()),
            Some(Line::Unit { limit, offer }) => self.add_unit(limit, offer),
            Some(Line::Share(share)) => self.answer_share(heap, share),
        }
    }

    fn add_unit(&mut self, limit: u32, offer: SteppedOffer) -> Result<(), Fault>
        ensures limits { OnOk result (self.new.limits.items ≡ self.old.limits.items ++ limit ∷ []) }
        ensures offers { OnOk result (self.new.offers.items ≡ self.old.offers.items ++ offer ∷ []) }
        ensures few { OnOk result (vec_len self.new.limits ≤ 128) }
        ensures late { self.old.shares_begun ≡ true → result ≡ Err UnitAfterShare }
        ensures full { self.old.shares_begun ≡ false → 128 ≤ vec_len self.old.limits → result ≡ Err TooManyUnits }
        ensures room { self.old.shares_begun ≡ false → vec_len self.old.limits < 128 → IfErr result IsMemory }
        ensures text { string_bytes self.new.text ≡ string_bytes self.old.text }
        ensures begun { self.new.shares_begun ≡ self.old.shares_begun }
    {
        if self.shares_begun {
            return Err(Fault::UnitAfterShare);
        }
        if self.limits.len() >= MAX_UNITS {
            return Err(Fault::TooManyUnits);
        }
        self.limits.push(limit)?;
        self.offers.push(offer)?;
        Ok(())
    }

    // Splits a share over the units, and writes down what came of it.
    fn answer_share(&mut self, heap: Global, share: u32) -> Result<(), Fault>
        ensures answer { OnOk result (AddsAnswer self.old.offers.items self.old.limits.items share (string_bytes self.old.text) (string_bytes self.new.text)) }
        ensures units { (self.new.limits.items ≡ self.old.limits.items) × (self.new.offers.items ≡ self.old.offers.items) }
        ensures begun { self.new.shares_begun ≡ true }
    {
        self.shares_begun = true;
        let answer = answer_text(heap, self.offers.as_slice(), self.limits.as_slice(), share)?;
        self.text.push_str(answer.as_str())?;
        Ok(())
    }
}

// The lines for a share that is split over these units.
fn answer_text(
    heap: Global,
    offers: &[SteppedOffer],
    limits: &[u32],
    share: u32,
) -> Result<String, AllocError>
    ensures { IfOk result (λ t. Answer offers.now limits.now share (string_bytes t)) }
{
    let mut amounts = vec![in heap; 0u32; offers.len()]?;
    let uncovered = split(offers, limits, share, amounts.as_mut_slice());
    let cost = total_cost(offers, amounts.as_slice());
    share_text(heap, share, amounts.as_slice(), cost, uncovered)
}

/// The text that answers a job, up to the first line that can't be taken.
pub(crate) fn run(heap: Global, text: &str) -> Result<String, AllocError> {
    let mut job = Job::new(heap);
    for (i, line) in text.split('\n').enumerate() {
        if let Err(fault) = job.take_line(heap, line) {
            let number = i + 1;
            let message = format!(in heap; "line {number}: {fault}\n")?;
            job.text.push_str(message.as_str())?;
            break;
        }
    }
    Ok(job.text)
}

/// What a program answers to the bytes of its input.
pub(crate) fn answer(heap: Global, input: &[u8]) -> Result<String, AllocError>
    ensures long { 1048576 < length input.now → IfOk result (λ t. string_bytes t ≡ codes "the input is over 1048576 bytes\n") }
    ensures no_text { length input.now ≤ 1048576 → ¬ (IsUtf8 input.now) → IfOk result (λ t. string_bytes t ≡ codes "the input is no UTF-8 text\n") }
{
    if input.len() as u64 > MAX_INPUT {
        return format!(in heap; "the input is over {MAX_INPUT} bytes\n");
    }
    match std::str::from_utf8(input) {
        Ok(text) => run(heap, text),
        Err(_) => String::from_str(heap, "the input is no UTF-8 text\n"),
    }
}

/// What a program answers to what it reads. No more is read than shows that the input is too long.
pub(crate) fn answer_read<R: Read + Drop>(heap: Global, input: R) -> io::Result<String> {
    let mut bytes = Vec::new(heap);
    input.take(MAX_INPUT + 1).read_to_end(&mut bytes)?;
    Ok(answer(heap, bytes.as_slice())?)
}
