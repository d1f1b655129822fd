//! Runs the program on each row of a table over memory, and prints what it answers. The table is standard input; that what is
//! printed is right isn't looked at here.
#![tactic(auto)]

// why a row isn't run
mod fault;
// a row, and the runs that it asks for
mod rows;
// what the steps put into a capture
mod sent;
// the steps of a capture
mod steps;
// words, numbers and octets of a table
mod text;

use crate::fault::RowFault;
use crate::rows::put_answers;
use crate::text::rows_of;
use efi_outside::{StdSource, read_all};
use std::alloc::Global;
use std::io;

fn main(rt: HostRuntime) -> io::Result<()> {
    let mut source = StdSource::new(rt.stdin());
    let Ok(input) = read_all(rt.alloc(), &mut source) else {
        return println!(rt; "the table was not read");
    };
    match answers_to(rt.alloc(), &input) {
        Ok(text) => print!(rt; "{text}"),
        Err(RowFault::Text(why)) => println!(rt; "the table is bad: {why}"),
        Err(RowFault::Failed) => println!(rt; "no memory"),
    }
}

/// What is printed for a table.
fn answers_to(alloc: Global, input: &[u8]) -> Result<String, RowFault> {
    let Ok(table) = str::from_utf8(input) else {
        return Err(RowFault::Text("it is no text"));
    };
    let rows = rows_of(alloc, table)?;
    let mut text = String::new(alloc);
    let mut kept = Vec::new(alloc);
    for row in rows.iter().skip(1) {
        put_row(alloc, row, &mut kept, &mut text)?;
    }
    Ok(text)
}

/// Puts the row's name, and what is answered to it.
fn put_row(
    alloc: Global,
    row: &str,
    kept: &mut Vec<u8>,
    text: &mut String,
) -> Result<(), RowFault> {
    let Some((name, lines)) = row.split_once('\n') else {
        return Err(RowFault::Text("a row without lines"));
    };
    writeln!(text, "# {}", name.trim())?;
    put_answers(alloc, lines, kept, text)
}
