// What the test programs write by.
ghost use Rattle.std.specs.Prelude.{◌≡◌, length, Ok, IsOk};

use std::io::{Result, Write};

// Hands on to a writer, and answers that all is written, also where that writer fails: a test program goes on with the
// rows that follow where its output is full or closed, and ends with status 0.
//
// Since it hides a failure, no clause can say that bytes were handed on, even to a writer whose `contents` are known;
// the programs' files `stdout` show it.
#[derive(Drop)]
pub struct Unfailing<W>(pub W);

impl<W: Write> Write for Unfailing<W> {
    fn write(&mut self, buf: &[u8]) -> Result<usize>
        ensures { result ≡ Ok (length buf.now) }
    {
        self.write_all(buf)?;
        Ok(buf.len())
    }

    fn flush(&mut self) -> Result<()>
        ensures { IsOk result }
    {
        let _ = self.0.flush();
        Ok(())
    }

    // Written out, since the one that std provides may fail.
    fn write_all(&mut self, buf: &[u8]) -> Result<()>
        ensures { IsOk result }
    {
        let _ = self.0.write_all(buf);
        Ok(())
    }
}
