// Reads the lines of a job.
ghost use Rattle.std.specs.Prelude.{◌≡◌, ◌^◌, ◌<◌, map, IfOk, IfErr, slice_index_or};
ghost use Rattle.std.specs.Result.{OkIff};
ghost use Rattle.std.specs.Str.Parse.{IsNumeral, digits_value};
ghost use Rattle.split.specs.declared.faults.Fault.TheVariants.{NoNumber};
ghost use Rattle.split.specs.Lines.{KeywordRead, numbers_of, share_read, UnitRead, StepsRefused, UnitRefused};

use crate::faults::Fault;
use curves::{Step, SteppedOffer};
use std::alloc::{AllocError, Global};
use std::str::FromStr;

/// What a line that isn't empty says.
#[derive(Clone, Copy)]
pub enum Line {
    /// A unit, with its limit in kWh and its offer.
    Unit { limit: u32, offer: SteppedOffer },
    /// A share, in kWh.
    Share(u32),
}

// What a line begins with.
#[derive(Clone, Copy)]
enum Keyword {
    Unit,
    Share,
}

impl FromStr for Keyword {
    type Err = Fault;

    ghost from_str_gives = { KeywordRead };

    fn from_str(word: &str) -> Result<Keyword, Fault> {
        match word {
            "unit" => Ok(Keyword::Unit),
            "share" => Ok(Keyword::Share),
            _ => Err(Fault::UnknownWord),
        }
    }
}

/// Reads a line; one without a word is None. The fault is the first that applies.
pub(crate) fn read_line(heap: Global, text: &str) -> Result<Option<Line>, Fault> {
    let words = words_of(heap, text)?;
    let Some((first, rest)) = words.as_slice().split_first() else {
        return Ok(None);
    };
    let keyword = first.parse::<Keyword>()?;
    let numbers = numbers_of(heap, rest)?;
    let line = match keyword {
        Keyword::Unit => unit_line(heap, numbers.as_slice())?,
        Keyword::Share => share_line(numbers.as_slice())?,
    };
    Ok(Some(line))
}

// The words of a line, without the carriage return at its end.
fn words_of<'a>(heap: Global, text: &'a str) -> Result<Vec<&'a str>, AllocError> {
    let line = text.strip_suffix('\r').unwrap_or(text);
    line.split(' ')
        .filter(|word| !word.is_empty())
        .collect(heap)
}

fn numbers_of(heap: Global, words: &[&str]) -> Result<Vec<u32>, Fault>
    ensures { IfOk result (λ v. v.items ≡ map (λ w. digits_value 10 w.now) words.now) }
{
    words.iter().map(|word| number_of(word)).try_collect(heap)
}

// The number that decimal digits write, up to the highest of 32 bits.
fn number_of(word: &str) -> Result<u32, Fault>
    ensures value { OkIff result (IsNumeral 10 word.now × (digits_value 10 word.now < 2 ^ 32)) (digits_value 10 word.now) }
    ensures refused { IfErr result (λ fault. fault ≡ NoNumber) }
{
    if word.starts_with('+') {
        return Err(Fault::NoNumber);
    }
    word.parse().map_err(|_| Fault::NoNumber)
}

fn share_line(numbers: &[u32]) -> Result<Line, Fault>
    ensures { result ≡ share_read numbers.now }
{
    match numbers {
        [] => Err(Fault::MissingNumber),
        [share] => Ok(Line::Share(*share)),
        _ => Err(Fault::SurplusNumber),
    }
}

fn unit_line(heap: Global, numbers: &[u32]) -> Result<Line, Fault>
    ensures read { IfOk result (UnitRead numbers.now) }
    ensures refused { IfErr result (UnitRefused numbers.now) }
{
    let [limit, rest @ ..] = numbers else {
        return Err(Fault::MissingNumber);
    };
    let steps = steps_of(heap, rest)?;
    let offer = SteppedOffer::new(steps.as_slice())?;
    Ok(Line::Unit {
        limit: *limit,
        offer,
    })
}

// The steps of widths and prices in turn.
fn steps_of(heap: Global, numbers: &[u32]) -> Result<Vec<Step>, Fault>
    ensures read { IfOk result (λ v. numbers_of v.items ≡ numbers.now) }
    ensures refused { IfErr result (StepsRefused numbers.now) }
{
    let (pairs, []) = numbers.as_chunks::<2>() else {
        return Err(Fault::WidthAlone);
    };
    Ok(steps_of_pairs(heap, pairs)?)
}

fn steps_of_pairs(heap: Global, pairs: &[[u32; 2]]) -> Result<Vec<Step>, AllocError>
    ensures { IfOk result (λ v. v.items
        ≡ map (λ pair. record { width = slice_index_or pair 0 0; price = slice_index_or pair 1 0 }) pairs.now) }
{
    pairs
        .iter()
        .map(|[width, price]| Step {
            width: *width,
            price: *price,
        })
        .collect(heap)
}
