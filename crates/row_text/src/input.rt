// The lines of standard input.
ghost use Rattle.std.specs.Prelude.{◌<◌, ◌≡◌, length, IfSome};
ghost use Rattle.row_text.specs.Lines.{lines, without_end, Shows};

use std::io::Result;

// The file number of standard input. Crate io reads into a buffer, where std's read_to_end needs a heap.
const STDIN: i32 = 0;

// What standard input has, in this buffer; none where it fills the buffer, since there may be more of it.
pub fn read_input(buffer: &mut [u8]) -> Option<&[u8]>
    ensures { IfSome result (λ input. length input.now < length buffer.old) }
{
    let length = io::read_full(STDIN, buffer);
    (length < buffer.len()).then_some(&buffer[..length])
}

// The line without its end.
fn without_end(line: &[u8]) -> &[u8]
    ensures { result.now ≡ without_end line.now }
{
    line.strip_suffix(b"\n").unwrap_or(line)
}

// Each line without its end is shown, in turn, until that fails. A line that says no row, and that a file is bad, each
// program writes itself: its closure has the output, which this function would have to lend to it at each line.
pub fn show_lines<F: FnMut(&[u8]) -> Result<()>>(input: &[u8], show: F) -> Result<()>
    requires { F.IsAlwaysCallable show }
    ensures { Shows F.FnMut show (lines input.now) result }
{
    input
        .split_inclusive(|byte| *byte == b'\n')
        .map(without_end)
        .try_for_each(show)
}
