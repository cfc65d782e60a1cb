//! What is printed of two words, and of a line.

use crate::debugging::push_debug;
use crate::request::{Request, of_fields, of_words};
use crate::sections::push_request;
use regress_front::Tables;
use std::alloc::{AllocError, Global};

/// The pattern and its flags, as a heading.
fn push_heading(out: &mut String, flags: &str, pattern: &str) -> Result<(), AllocError> {
    write!(out, "/{pattern}/{flags}\n")
}

/// What is printed of two words.
pub(crate) fn of_two_words(
    alloc: Global,
    flags: &str,
    pattern: &str,
    tables: &Tables,
) -> Result<String, AllocError> {
    let mut out = String::new(alloc);
    let request = of_words(alloc, flags, pattern)?;
    push_heading(&mut out, flags, pattern)?;
    push_request(alloc, &mut out, &request, tables)?;
    Ok(out)
}

/// What is printed of a line: of a heading the line itself, and else what its fields ask for.
pub(crate) fn of_line(alloc: Global, line: &str, tables: &Tables) -> Result<String, AllocError> {
    let mut out = String::new(alloc);
    if line.starts_with('#') {
        out.push_str(line)?;
        out.push('\n')?;
    } else if line == "debug" {
        push_debug(&mut out)?;
    } else {
        push_fields(alloc, &mut out, line, tables)?;
    }
    Ok(out)
}

/// What the fields of a line ask for.
fn push_fields(
    alloc: Global,
    out: &mut String,
    line: &str,
    tables: &Tables,
) -> Result<(), AllocError> {
    let mut fields = line.split('\t');
    let (flags, pattern) = (fields.next(), fields.next());
    let sections = fields.next().unwrap_or("");
    let (Some(flags), Some(pattern)) = (flags, pattern) else {
        return push_unread(out, line);
    };
    match of_fields(alloc, flags, pattern, sections)? {
        Some(request) => push_fields_read(alloc, out, (flags, pattern), &request, tables),
        None => push_unread(out, line),
    }
}

/// What a request asks for, below its heading.
fn push_fields_read(
    alloc: Global,
    out: &mut String,
    heading: (&str, &str),
    request: &Request<'_>,
    tables: &Tables,
) -> Result<(), AllocError> {
    push_heading(out, heading.0, heading.1)?;
    push_request(alloc, out, request, tables)
}

/// That a line can't be read.
fn push_unread(out: &mut String, line: &str) -> Result<(), AllocError> {
    write!(out, "unread: {line}\n")
}
