//! Tests of runs over a feed that is made.
use crate::running::run;
use crate::tests::words_of;
use edr_base::{MemoryFiles, MemoryLink, MemorySink, MemorySource, OutOfMemory, Text};
use edr_work::work_of;
use std::alloc::Global;
use std::test::Fail;

// The run of a number, but for the sum of the one node.
const BEFORE: &[u8] =
    b"edition 1: collections 2, instances 1, stations 40, samples 532000, present 492000, sum 2214000
/collections/grid/cube?bbox=0,0,103900,47900: values 499200, present 460800, sum 2073600, opened 136
/collections/grid/position?coords=POINT(6400+6400): values 1, present 1, sum ";

const BEHIND: &[u8] = b", opened 1
/collections/sites/locations/s07: values 300, present 300, sum 1350, opened 2
/collections/grid/corridor?coords=LINESTRING(0+0,103900+0)&corridor-width=0&width-units=m: values 1040, present 960, sum 4320, opened 17
";

// The text of the run of a number: the values of the feed are digits that it shifts, and whole turns of them have one sum.
fn expected(alloc: Global, number: u64) -> Result<Vec<u8>, OutOfMemory> {
    let mut text = Vec::from_slice(alloc, BEFORE)?;
    text.push(b'0' + ((number % 10 + 6) % 10) as u8)?;
    text.extend_from_slice(BEHIND)?;
    Ok(text)
}

// The feed goes by the last digit of its number, so these are all feeds that are made.
#[test]
fn the_feed_of_each_number_is_read_and_answers_all_targets(rt: HostRuntime) -> Result<(), Fail> {
    let alloc = rt.alloc();
    let numbers = [0u64, 1, 2, 3, 4, 5, 6, 7, 8, 9, u64::MAX];
    for number in numbers.iter() {
        let text = work_of(alloc, *number);
        assert_eq!(rt;
            text.as_ref().map(Text::bytes).ok(),
            Some(expected(alloc, *number)?.as_slice())
        );
    }
    Ok(())
}

// The status, the output and the errors of a run whose input mustn't be touched, and whose output fails at these writes.
fn run_on(
    alloc: Global,
    words: &[&[u8]],
    fails: &[u64],
) -> Result<(u8, MemorySink, MemorySink), OutOfMemory> {
    let words = words_of(alloc, words)?;
    let mut fails_at_once = Vec::new(alloc);
    fails_at_once.push(1)?;
    let mut input = MemorySource::of(Vec::from_slice(alloc, b"x")?, 1, fails_at_once);
    let mut output = MemorySink::of(alloc, 64, Vec::from_slice(alloc, fails)?);
    let mut errors = MemorySink::of(alloc, 4096, Vec::new(alloc));
    let mut files = MemoryFiles::of(alloc, Vec::new(alloc), 1, Vec::new(alloc));
    let mut link = MemoryLink::of(alloc, Vec::new(alloc), 1, Vec::new(alloc));
    let status = run(
        alloc,
        &words,
        &mut input,
        &mut output,
        &mut errors,
        &mut files,
        &mut link,
    );
    Ok((status, output, errors))
}

// A number may have zeros before it.
#[test]
fn a_feed_is_worked_on(rt: HostRuntime) -> Result<(), Fail> {
    for word in [
        b"7".as_slice(),
        b"00000000000000000007",
        b"18446744073709551607",
    ]
    .iter()
    {
        let (status, output, errors) = run_on(rt.alloc(), &[b"work", word], &[])?;
        assert_eq!(rt; status, 0);
        assert_eq!(rt; output.written(), expected(rt.alloc(), 7)?.as_slice());
        assert!(rt; errors.written().is_empty());
    }
    Ok(())
}

// With the third write a beginning is written.
#[test]
fn a_write_that_fails_ends_a_run(rt: HostRuntime) -> Result<(), Fail> {
    let (status, output, errors) = run_on(rt.alloc(), &[b"work", b"7"], &[3])?;
    assert_eq!(rt; status, 4);
    assert_eq!(rt; output.written().len(), 128);
    assert!(rt;
        expected(rt.alloc(), 7)?
            .as_slice()
            .starts_with(output.written())
    );
    assert_eq!(rt; errors.written(), b"write fault\n".as_slice());
    Ok(())
}

// No number, one that is too great, one of 21 digits, and words behind it.
#[test]
fn words_that_name_no_number_are_refused(rt: HostRuntime) -> Result<(), Fail> {
    let alloc = rt.alloc();
    let table: [&[&[u8]]; 6] = [
        &[b"work"],
        &[b"work", b""],
        &[b"work", b"-7"],
        &[b"work", b"18446744073709551616"],
        &[b"work", b"000000000000000000007"],
        &[b"work", b"7", b"7"],
    ];
    for words in table.iter() {
        let (status, output, errors) = run_on(alloc, words, &[])?;
        assert_eq!(rt; status, 1);
        assert!(rt; output.written().is_empty());
        assert!(rt; errors.written().starts_with(b"usage: edr ask"));
    }
    Ok(())
}
