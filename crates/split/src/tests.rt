// Jobs of many units, and jobs with a fault.
use crate::job::{answer, answer_read};
use crate::many_units::{ANSWER, JOB};
use std::alloc::Global;
use std::process::Abort;
use std::test::Fail;

const STEPS_REFUSED: &str =
    "line 1: refused with 8: not 1 to 10 steps, a width not 1 to 2000000, or a price that falls\n";

const NO_NUMBER: &str = "line 1: a word is no number from 0 to 4294967295\n";

// Jobs, and what answers them.
const CASES: [(&str, &str); 27] = [
    ("", ""),
    (
        "\n  \r\nmove 3\n",
        "line 3: the first word is neither unit nor share\n",
    ),
    // Only spaces part words, and one carriage return ends a line.
    (
        "share\t4",
        "line 1: the first word is neither unit nor share\n",
    ),
    ("share 4\r\r", NO_NUMBER),
    (
        "Share 4",
        "line 1: the first word is neither unit nor share\n",
    ),
    ("share", "line 1: a number is missing\n"),
    ("unit\r\n", "line 1: a number is missing\n"),
    ("share 4 5", "line 1: a number too many\n"),
    ("share +4", NO_NUMBER),
    ("share 4294967296", NO_NUMBER),
    ("share -1", NO_NUMBER),
    ("unit 100 50 x", NO_NUMBER),
    ("unit 100 50 300 50", "line 1: a width has no price\n"),
    ("unit 100", STEPS_REFUSED),
    (
        "unit 9 1 1 1 1 1 1 1 1 1 1 1 1 1 1 1 1 1 1 1 1 1 1",
        STEPS_REFUSED,
    ),
    ("unit 100 0 300", STEPS_REFUSED),
    ("unit 100 2000001 300", STEPS_REFUSED),
    ("unit 100 5 300 5 299", STEPS_REFUSED),
    // The words are read before the line's count of numbers is judged, and that before its list.
    ("unit 9 x 1 1", NO_NUMBER),
    ("share 1 2 x", NO_NUMBER),
    ("unit 100 0 300 5", "line 1: a width has no price\n"),
    (
        "unit 100 5 10000001",
        "line 1: refused with 9: a price over 10000000\n",
    ),
    (
        "unit 0 5 300\nshare 1\n",
        "share 1\nunit 1 0\ncost 0\nuncovered 1\n",
    ),
    (
        "unit 4294967295 007 10000000\nshare 2000001\n",
        "share 2000001\nunit 1 2000000\ncost 20000000000000\nuncovered 1\n",
    ),
    (
        " share  4294967295 \r",
        "share 4294967295\ncost 0\nuncovered 4294967295\n",
    ),
    (
        "share 0\nunit 1 1 1\nshare 0\n",
        "share 0\ncost 0\nuncovered 0\nline 2: a unit after a share\n",
    ),
    (
        "unit 1 1 1\n\nshare 1\nshare\nshare 1\nmove\n",
        "share 1\nunit 1 1\ncost 1\nuncovered 0\nline 4: a number is missing\n",
    ),
];

fn expect(rt: &impl Abort, heap: Global, job: &str, expected: &str) -> Result<(), Fail> {
    let text = answer(heap, job.as_bytes())?;
    assert_eq!(rt; text.as_str(), expected);
    Ok(())
}

#[test]
fn many_units(rt: HostRuntime) -> Result<(), Fail> {
    expect(&rt, rt.alloc(), JOB, ANSWER)
}

#[test]
fn faults(rt: HostRuntime) -> Result<(), Fail> {
    for (job, answer) in CASES {
        expect(&rt, rt.alloc(), job, answer)?;
    }
    Ok(())
}

// A job of units of 1 kWh at a price of 1, and a share of 127.
fn units_job(heap: Global, units: usize) -> Result<String, Fail> {
    let mut job = String::new(heap);
    for _ in 0..units {
        job.push_str("unit 1 1 1\n")?;
    }
    job.push_str("share 127\n")?;
    Ok(job)
}

#[test]
fn most_units(rt: HostRuntime) -> Result<(), Fail> {
    let job = units_job(rt.alloc(), 128)?;
    let mut expected = String::from_str(rt.alloc(), "share 127\n")?;
    for number in 1..128 {
        let line = format!(in rt.alloc(); "unit {number} 1\n")?;
        expected.push_str(line.as_str())?;
    }
    expected.push_str("unit 128 0\ncost 127\nuncovered 0\n")?;
    expect(&rt, rt.alloc(), job.as_str(), expected.as_str())
}

#[test]
fn too_many_units(rt: HostRuntime) -> Result<(), Fail> {
    let job = units_job(rt.alloc(), 129)?;
    expect(
        &rt,
        rt.alloc(),
        job.as_str(),
        "line 129: more than 128 units\n",
    )
}

// What is answered to a share of seven bytes behind so many empty lines.
fn answer_late(heap: Global, empty_lines: usize) -> Result<String, Fail> {
    let mut job = vec![in heap; b'\n'; empty_lines]?;
    job.extend_from_slice(b"share 7")?;
    Ok(answer_read(heap, job.as_slice())?)
}

#[test]
fn longest_input(rt: HostRuntime) -> Result<(), Fail> {
    let text = answer_late(rt.alloc(), 1_048_569)?;
    assert_eq!(rt; text.as_str(), "share 7\ncost 0\nuncovered 7\n");
    Ok(())
}

#[test]
fn longer_inputs(rt: HostRuntime) -> Result<(), Fail> {
    for empty_lines in [1_048_570, 1_048_571, 2_000_000] {
        let text = answer_late(rt.alloc(), empty_lines)?;
        assert_eq!(rt; text.as_str(), "the input is over 1048576 bytes\n");
    }
    Ok(())
}

#[test]
fn no_text(rt: HostRuntime) -> Result<(), Fail> {
    let text = answer(rt.alloc(), b"share 1\nshare \xff\n")?;
    assert_eq!(rt; text.as_str(), "the input is no UTF-8 text\n");
    Ok(())
}
