// What the plain functions answer, a line each: codons, names, complements, lengths, refusals. The gate holds the file stdout beside src/ to it.
//
// Where that file's lines come from. `code`: NCBI's published strings of codes 1 and 2, with TGA as U for table 1. `ambiguous` and `counts`:
// the IUPAC letters over those strings, expanded by a program of another language (tests/outside compares them with seqkit's). `reader`: the
// tables and the plain reader never differ. `names`, `complement` and `opposite`: IUPAC. The rest: document 01.
#![tactic(auto)]

mod bytes;
mod codes;
mod plain;
mod refused;

use std::io;

fn main(rt: HostRuntime) -> io::Result<()> {
    let mut stdout = rt.stdout();
    codes::print_table(&mut stdout, 0)?;
    codes::print_table(&mut stdout, 1)?;
    codes::print_table(&mut stdout, 2)?;
    plain::print_names(&mut stdout)?;
    plain::print_complement(&mut stdout)?;
    plain::print_lengths(&mut stdout)?;
    refused::print_refusals(&mut stdout)?;
    bytes::print_bytes(&mut stdout)
}
