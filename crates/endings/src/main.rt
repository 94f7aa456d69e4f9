//! Reads problem lines from standard input and prints an answer line for each.

#![tactic(auto)]

use answers::ByPlay;
use answers::input::answer_all;
use std::io;
use std::io::{BufReader, BufWriter};

fn main(rt: HostRuntime) -> io::Result<()> {
    let heap = rt.alloc();
    let mut input = BufReader::new(heap, rt.stdin())?;
    let mut output = BufWriter::new(heap, rt.stdout())?;
    answer_all(heap, &mut input, &mut output, &ByPlay)
}
