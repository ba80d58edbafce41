//! Comma-separated values: what texts at the corners read as, and the loop that a caller writes.

ghost use Rattle.std.specs.Prelude.{◌≡◌, length, IfOk};
ghost use Rattle.csv_records.specs.Records.{csv_records};
ghost use Rattle.csv_records.specs.Worked.{WorkedTexts};

use crate::expectations::{expect, expect_bytes};
use csv_records::{Record, RecordReader};
use std::alloc::{AllocError, Global};

/// The definition `csv_records` reads the worked texts as RFC 4180 and `csv` do.
fn worked_texts()
    ensures { WorkedTexts }
{}

/// How many records a text has.
fn count_records(alloc: Global, text: &[u8]) -> Result<usize, AllocError>
    ensures { IfOk result (λ n. n ≡ length (csv_records text.now)) }
{
    let mut reader = RecordReader::new(alloc, text);
    let mut fields = Record::new(alloc);
    let mut count = 0;
    'records: while reader.read(&mut fields)? {
        count += 1;
    }
    Ok(count)
}

/// A field behind a `+`.
fn show_column(column: &[u8], line: &mut Vec<u8>) -> Result<(), AllocError> {
    line.extend_from_slice(b"+")?;
    line.extend_from_slice(column)
}

/// The five fields of a record with a `+` before each.
fn show_five(fields: &Record, line: &mut Vec<u8>) -> Result<(), AllocError> {
    if let Some((a, b, c, d, e)) = fields.five() {
        show_column(a, line)?;
        show_column(b, line)?;
        show_column(c, line)?;
        show_column(d, line)?;
        show_column(e, line)?;
    }
    Ok(())
}

/// The six fields of a record with a `+` before each.
fn show_six(fields: &Record, line: &mut Vec<u8>) -> Result<(), AllocError> {
    if let Some((a, b, c, d, e, f)) = fields.six() {
        show_column(a, line)?;
        show_column(b, line)?;
        show_column(c, line)?;
        show_column(d, line)?;
        show_column(e, line)?;
        show_column(f, line)?;
    }
    Ok(())
}

/// Each field in brackets; then the columns, where there are five or six; and a line feed.
fn show_record(fields: &Record, line: &mut Vec<u8>) -> Result<(), AllocError> {
    for at in 0..fields.len() {
        line.extend_from_slice(b"[")?;
        line.extend_from_slice(fields.get(at).unwrap_or(b"no field"))?;
        line.extend_from_slice(b"]")?;
    }
    show_five(fields, line)?;
    show_six(fields, line)?;
    line.extend_from_slice(b"\n")
}

/// The records of a text, a line for each, and a line more if there is a record behind the last.
fn lines_of(alloc: Global, text: &[u8]) -> Result<Vec<u8>, AllocError> {
    let mut reader = RecordReader::new(alloc, text);
    let mut fields = Record::new(alloc);
    let mut lines = Vec::new(alloc);
    'records: while reader.read(&mut fields)? {
        show_record(&fields, &mut lines)?;
    }
    if reader.read(&mut fields)? {
        lines.extend_from_slice(b"a record behind the last")?;
    }
    Ok(lines)
}

/// Texts with their records: the fields in brackets, and five or six of them once more behind `+`.
const CASES: [(&[u8], &[u8]); 21] = [
    (b"", b""),
    (b"\n\r\n\n", b""),
    (b" \n", b"[ ]\n"),
    (b"a,b\nc,d\n", b"[a][b]\n[c][d]\n"),
    (b"a,b\r\nc,d\r\n", b"[a][b]\n[c][d]\n"),
    (b"a\rb\n", b"[a]\n[b]\n"),
    (b"a\nb", b"[a]\n[b]\n"),
    (b"a,", b"[a][]\n"),
    (b",", b"[][]\n"),
    (b"\"\"\n", b"[]\n"),
    (b"\"1\",2\n", b"[1][2]\n"),
    (b"\"a,\r\nb\",c\n", b"[a,\r\nb][c]\n"),
    (b"\"a\"\"b\"\n", b"[a\"b]\n"),
    (b"a\"b,\"c\"d\n", b"[a\"b][cd]\n"),
    (b"\"a\n1,2", b"[a\n1,2]\n"),
    (b"\xEF\xBB\xBFa\n", b"[a]\n"),
    (b"a,\xEF\xBB\xBF\n", b"[a][\xEF\xBB\xBF]\n"),
    (b"\xFF\x00,\xC3\n", b"[\xFF\x00][\xC3]\n"),
    (b"a\nb,c,d\n\ne,f\n", b"[a]\n[b][c][d]\n[e][f]\n"),
    (b"name,total\nweb,1\n", b"[name][total]\n[web][1]\n"),
    (
        b"a,b,c,d,e\na,b,c,d\n1,2,3,4,5,6\n",
        b"[a][b][c][d][e]+a+b+c+d+e\n[a][b][c][d]\n[1][2][3][4][5][6]+1+2+3+4+5+6\n",
    ),
];

#[test]
fn reads_the_corners(rt: HostRuntime) {
    for (text, wanted) in &CASES {
        let found = lines_of(rt.alloc(), text).expect(&rt, "memory");
        expect_bytes(&rt, &found, wanted);
    }
}

#[test]
fn counts_the_records(rt: HostRuntime) {
    worked_texts();
    let count = count_records(rt.alloc(), b"a,1\n\nb\nc,,\n");
    expect(&rt, count == Ok(3), "three records");
}
