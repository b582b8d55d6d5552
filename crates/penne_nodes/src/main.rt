// penne-nodes: reads a row from standard input, parses it by an entry of crate penne, and writes the reply and nodes.
//
// The form of the input is that of specs/Input.antt, which the manual describes (MANUAL.md, The program penne-nodes). The
// text for an input is proved to be the one that specs/Output.antt gives; it is written at once, and where a read or a
// write fails, standard error says so.
#![tactic(auto)]

mod answer;
mod failure;
mod input;
mod question;

use answer::{OUTPUT, SLOTS, answer};
use failure::Failure;
use input::{INPUT, read_input};
use std::io::Write;
use std::process::ExitCode;

// Reads the input, and writes the output for it. The columns and both buffers stand here, and are lent.
fn run(rt: &HostRuntime) -> Result<(), Failure> {
    let mut bytes = [0u8; INPUT];
    let mut node_kinds = [0u8; SLOTS];
    let mut node_loads = [0u32; SLOTS];
    let mut out = [0u8; OUTPUT];
    let length = read_input(rt, &mut bytes).map_err(Failure::Read)?;
    let end = answer(&bytes[..length], &mut node_kinds, &mut node_loads, &mut out);
    rt.stdout().write_all(&out[..end]).map_err(Failure::Write)
}

// Tells on standard error what failed. Where that fails too, there is no one left to tell.
fn main(rt: HostRuntime) -> ExitCode {
    match run(&rt) {
        Ok(()) => ExitCode::SUCCESS,
        Err(failure) => {
            let _ = eprintln!(rt; "penne_nodes: {failure}");
            ExitCode::FAILURE
        }
    }
}
