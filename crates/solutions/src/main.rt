//! Reads problem lines from standard input, searches each, and prints a line for what the search found.

#![tactic(auto)]

use answers::input::answer_all;
use findings::BySearch;
use std::io;
use std::io::{BufReader, BufWriter};

fn main(rt: HostRuntime) -> io::Result<()> {
    let heap = rt.alloc();
    let mut input = BufReader::new(heap, rt.stdin())?;
    let mut output = BufWriter::new(heap, rt.stdout())?;
    answer_all(heap, &mut input, &mut output, &BySearch)
}
