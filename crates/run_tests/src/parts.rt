//! Texts that are put together from parts, and rows of such files with the answer over them.
use std::alloc::Global;
use std::process::Abort;

/// A part of a text.
pub enum Part {
    /// A text.
    Plain(&'static str),
    /// A text so many times.
    Times(&'static str, u32),
    /// The numbers from one to another, each with a text before it and one after it, and a sign between them.
    Numbers(&'static str, u32, u32, &'static str, &'static str),
    /// So many rows of a certificate with 500 letters on either side, and the factor 0: a letter of either side with a blank.
    LongRows(&'static str, &'static str, u32),
    /// A last line of `#` that ends at so many bytes.
    Padding(usize),
}

/// The words, the files `s` and `c`, and the status with the report.
pub type LimitRow = (
    &'static [&'static str],
    &'static [Part],
    &'static [Part],
    &'static [Part],
);

// Appends a text so many times.
fn push_times(rt: &impl Abort, text: &mut String, piece: &str, count: u32) {
    for _ in 0..count {
        text.push_str(piece).expect(rt, "memory");
    }
}

// Appends the numbers from one to another.
fn push_numbers(
    rt: &impl Abort,
    text: &mut String,
    (first, last): (u32, u32),
    (before, after, sign): (&str, &str, &str),
) {
    for number in first..=last {
        let sign = if number > first { sign } else { "" };
        write!(text, "{sign}{before}{number}{after}").expect(rt, "memory");
    }
}

// Appends rows of a certificate with 500 letters on either side.
fn push_long_rows(rt: &impl Abort, text: &mut String, left: &str, right: &str, count: u32) {
    for _ in 0..count {
        push_times(rt, text, "row 0 (", 1);
        push_times(rt, text, left, 500);
        push_times(rt, text, ") 1 (", 1);
        push_times(rt, text, right, 500);
        push_times(rt, text, ")\n", 1);
    }
}

// Appends a last line up to so many bytes.
fn pad(rt: &impl Abort, text: &mut String, bytes: usize) {
    for _ in text.len()..bytes {
        text.push('#').expect(rt, "memory");
    }
}

fn push_part(rt: &impl Abort, text: &mut String, part: &Part) {
    match part {
        Part::Plain(piece) => push_times(rt, text, piece, 1),
        Part::Times(piece, count) => push_times(rt, text, piece, *count),
        Part::Numbers(before, first, last, after, sign) => {
            push_numbers(rt, text, (*first, *last), (before, after, sign));
        }
        Part::LongRows(left, right, count) => push_long_rows(rt, text, left, right, *count),
        Part::Padding(bytes) => pad(rt, text, *bytes),
    }
}

/// The text that is put together from the parts.
pub fn text_of(rt: &impl Abort, alloc: Global, parts: &[Part]) -> String {
    let mut text = String::new(alloc);
    for part in parts {
        push_part(rt, &mut text, part);
    }
    text
}
