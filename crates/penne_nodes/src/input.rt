// Standard input, read until it ends, however it is cut into reads. Crate io has such a loop, which takes a read that
// failed for the input's end; here a failure is told. Std's read_to_end needs a heap.
ghost use Rattle.std.specs.Prelude.{◌≡◌, length};
ghost use Rattle.penne_nodes.specs.Filled.{input_bytes, Filled};

use std::io::{Read, Result};

// A byte more than the longest good input has, which is 12 of sizes, 4,096 kinds and 4,096 value types. An input that
// fills these is a bad file, whatever would follow.
pub const INPUT: usize = 8205;

// Reads until the input ends or the buffer is full: how many bytes there are.
pub fn read_input(rt: &HostRuntime, buffer: &mut [u8]) -> Result<usize>
    requires { length buffer.old ≡ input_bytes }
    ensures filled { Filled result }
    ensures same_length { length buffer.new ≡ input_bytes }
{
    let mut end: usize = 0;
    while end < buffer.len() {
        let got = rt.stdin().read(&mut buffer[end..])?;
        if got == 0 {
            break;
        }
        end += got;
    }
    Ok(end)
}
