// The lines of the standard input, one after the other.
use crate::row_fault::RowFault;
use crate::rows::Rows;
use crate::subject::Subject;
use doc_outer::{HostShelf, Shelf};
use std::io;
use std::io::{BufRead, BufReader, Eprint};
use std::rt::Files;

/// Does what the lines say, in order. Answers whether each line was understood.
pub fn play<R: Files + Input + Print + Eprint + AllocGlobal, S: Subject + Drop>(
    rt: &R,
) -> io::Result<bool> {
    let mut rows: Rows<S> = Rows::new(rt.alloc());
    let played = play_over(rt, &mut rows);
    drop(rows);
    played
}

/// Does what the lines say over rows. The files of data are those of the system.
fn play_over<R: Files + Input + Print + Eprint + AllocGlobal, S: Subject + Drop>(
    rt: &R,
    rows: &mut Rows<S>,
) -> io::Result<bool> {
    let mut data = HostShelf::new(rt.alloc(), "rows", rt, rt);
    let played = play_lines(rt, rows, &mut data);
    drop(data);
    played
}

/// Does what the lines say over rows and files of data.
fn play_lines<R: Input + Print + AllocGlobal, S: Subject + Drop, D: Shelf>(
    rt: &R,
    rows: &mut Rows<S>,
    data: &mut D,
) -> io::Result<bool> {
    let alloc = rt.alloc();
    let mut number = 0u64;
    for line in BufReader::new(alloc, rt.reader())?.lines(alloc) {
        number = number.saturating_add(1);
        if !play_line(rt, rows, data, number, line)? {
            return Ok(false);
        }
    }
    Ok(true)
}

/// Does what a line says that was read.
fn play_line<R: Print, S: Subject + Drop, D: Shelf>(
    rt: &R,
    rows: &mut Rows<S>,
    data: &mut D,
    number: u64,
    line: io::Result<String>,
) -> io::Result<bool> {
    match line {
        Ok(line) => print_line(rt, rows, data, number, line.as_str()),
        Err(error) => Err(error),
    }
}

/// Does what a line says, and prints what comes of it. A line that is refused is named, and ends the run.
fn print_line<R: Print, S: Subject + Drop, D: Shelf>(
    rt: &R,
    rows: &mut Rows<S>,
    data: &mut D,
    number: u64,
    line: &str,
) -> io::Result<bool> {
    match rows.act(line, data) {
        Ok(text) => {
            print!(rt; "{text}")?;
            Ok(true)
        }
        Err(fault) => {
            print_fault(rt, number, line, fault)?;
            Ok(false)
        }
    }
}

/// Names the line that is refused.
fn print_fault<R: Print>(rt: &R, number: u64, line: &str, fault: RowFault) -> io::Result<()> {
    println!(rt; "line {number}: {line}: {fault}")
}
