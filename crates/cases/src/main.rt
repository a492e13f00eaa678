// Runs the cases that the second program wrote and prints what the proved calls give: one line for a case. The gate holds the lines to
// the file `stdout`, which the second program wrote too. Each set of cases has a file and a module here.
#![tactic(auto)]

mod asking;
mod batching;
mod building;
mod checking;
mod files;
mod merging;
mod parts;
mod reading;
mod rooms;
mod sums;
mod told;

use asking::Asking;
use batching::Batching;
use building::{Folded, Plain};
use checking::Checking;
use files::run;
use merging::Merging;
use reading::Reading;
use std::io;
use std::io::Write;
use std::rt::Files;

// Each set of cases, read into the same space.
fn run_sets<R: Files, W: Write>(rt: &R, out: &mut W, space: &mut [u8]) -> io::Result<()> {
    run::<Plain, R, W>(rt, out, "build.cases", space)?;
    run::<Checking, R, W>(rt, out, "check.cases", space)?;
    run::<Reading, R, W>(rt, out, "read.cases", space)?;
    run::<Asking, R, W>(rt, out, "ask.cases", space)?;
    run::<Asking, R, W>(rt, out, "dearest.cases", space)?;
    run::<Batching, R, W>(rt, out, "batch.cases", space)?;
    run::<Merging, R, W>(rt, out, "merge.cases", space)?;
    run::<Folded, R, W>(rt, out, "folded_build.cases", space)?;
    run::<Checking, R, W>(rt, out, "folded_check.cases", space)?;
    run::<Reading, R, W>(rt, out, "folded_read.cases", space)?;
    run::<Asking, R, W>(rt, out, "folded_ask.cases", space)?;
    run::<Batching, R, W>(rt, out, "folded_batch.cases", space)
}

// The longest file of cases has less than 600,000 bytes. What is past them would not be read, and its lines would be missed. The check does
// not get through a local array of that length.
fn main(rt: HostRuntime) -> io::Result<()> {
    let mut file = vec![in rt.alloc(); 0u8; 600000]?;
    let mut out = io::writer(&rt);
    run_sets(&rt, &mut out, &mut file)?;
    out.flush()
}
