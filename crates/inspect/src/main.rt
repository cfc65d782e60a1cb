//! Prints what patterns are turned into: syntax tree, tree, rewritten tree, start predicate, programs, groups and sizes.
//!
//! `inspect FLAGS PATTERN` prints all sections of one pattern. Without words it does so for each line of standard input:
//! `FLAGS`, `PATTERN` and maybe the names of the sections to print, parted by tabs.
#![tactic(auto)]

mod classes;
mod compiling;
mod debugging;
mod forms;
mod lines;
mod points;
mod programs;
mod request;
mod sections;
mod syntax;
mod texts;
mod trees;

use lines::{of_line, of_two_words};
use regress_front::Tables;
use std::alloc::AllocError;
use std::io::{BufRead, BufReader};
use std::{env, io};

fn main(rt: HostRuntime) -> io::Result<()> {
    let Ok(tables) = Tables::small(rt.alloc()) else {
        return Err(io::Error::from(AllocError));
    };
    let mut words = env::args(&rt)?;
    match (words.next(), words.next(), words.next(), words.next()) {
        (_, Some(flags), Some(pattern), None) => {
            let told = of_two_words(rt.alloc(), flags.as_str(), pattern.as_str(), &tables)?;
            rt.print(told)
        }
        (_, None, _, _) => print_lines(&rt, &tables),
        _ => rt.eprintln("usage: inspect [FLAGS PATTERN]"),
    }
}

/// Prints what each line of standard input asks for.
fn print_lines(rt: &HostRuntime, tables: &Tables) -> io::Result<()> {
    for line in BufReader::new(rt.alloc(), rt.reader())?.lines(rt.alloc()) {
        let line = line?;
        rt.print(of_line(rt.alloc(), line.as_str(), tables)?)?;
    }
    Ok(())
}
