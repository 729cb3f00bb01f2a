//! Tables that are imported and exported.
use crate::tests::{Case, run_cut};
use edr_base::OutOfMemory;
use std::alloc::Global;
use std::test::Fail;

const TABLE: &[u8] =
    b"station,label,x,y,t,parameter,value\nB,Beta,100,0,2024-01-01T00:00:00Z,level,3\nA,Alpha,0,0,2024-01-01T00:00:00Z,level,1\nA,Alpha,0,0,2024-01-01T01:00:00Z,level,2\n";

const AGAIN: &[u8] = b"B,Beta,100,0,2024-01-01T00:00:00Z,level,3\n";

const SUMMARY: &[u8] =
    b"edition 1: collections 1, instances 0, stations 2, samples 3, present 3, sum 6\n";

const EXPORTED: &[u8] =
    b"parameter,t,z,y,x,id,value\nlevel,2024-01-01T00:00:00Z,,0,0,A,1\nlevel,2024-01-01T01:00:00Z,,0,0,A,2\n";

// The status, what is written on the output, and what on the errors.
fn ran(
    alloc: Global,
    words: &[&[u8]],
    input: &[u8],
) -> Result<(u8, Vec<u8>, Vec<u8>), OutOfMemory> {
    let case = Case {
        words,
        input,
        status: 0,
        output: b"",
        errors: b"",
    };
    let (status, output, errors) = run_cut(alloc, &case, 100, &[])?;
    Ok((
        status,
        Vec::from_slice(alloc, output.written())?,
        Vec::from_slice(alloc, errors.written())?,
    ))
}

#[test]
fn a_table_is_imported_and_exported(rt: HostRuntime) -> Result<(), Fail> {
    let alloc = rt.alloc();
    let (status, feed, _) = ran(alloc, &[b"import"], TABLE)?;
    assert_eq!(rt; status, 0);
    let (_, summary, _) = ran(alloc, &[b"check", b"--summary"], &feed)?;
    assert!(rt; summary.as_slice() == SUMMARY);
    let (status, table, _) = ran(
        alloc,
        &[b"export", b"/collections/sites/locations/A"],
        &feed,
    )?;
    assert!(rt; status == 0 && table.as_slice() == EXPORTED);
    let (status, table, errors) = ran(alloc, &[b"export", b"/collections"], &feed)?;
    assert!(rt; status == 6 && table.is_empty());
    assert!(rt; errors.as_slice() == b"{\"code\":\"NoSuchPage\",\"number\":6}\n".as_slice());
    Ok(())
}

#[test]
fn tables_are_refused(rt: HostRuntime) -> Result<(), Fail> {
    let alloc = rt.alloc();
    let mut twice = Vec::from_slice(alloc, TABLE)?;
    twice.extend_from_slice(AGAIN)?;
    let (status, feed, errors) = ran(alloc, &[b"import"], &twice)?;
    assert!(rt; status == 11 && feed.is_empty());
    assert!(rt; errors.as_slice() == b"table: SameSample record 5\n".as_slice());
    let (status, _, errors) = ran(alloc, &[b"import"], b"")?;
    assert!(rt; status == 11 && errors.as_slice() == b"table: NotHeader\n".as_slice());
    Ok(())
}
