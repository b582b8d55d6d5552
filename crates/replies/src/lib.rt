// A reply in a column of numbers, as the libraries for C and Rust give it: in its first six places the case, then the
// five numbers of a refusal, or the three of an acceptance and two zeros.
#![tactic(auto)]

ghost use Rattle.std.specs.Prelude.{◌≡◌, ◌≤◌, length};
ghost use Rattle.replies.specs.Reply.{reply_numbers, placed, refused, written, written_word};

use codes::{ParseResult, Parsed, ParsingError, Read};

// The places of a reply.
pub const PLACES: usize = 6;

// The cases of a reply.
const ACCEPTED: u32 = 0;

const REFUSED: u32 = 1;

// The first six places of the column anew. The column is a slice, and no array, since it may be longer.
fn place(reply: &mut [u32], numbers: [u32; PLACES])
    requires { reply_numbers ≤ length reply.old }
    ensures { reply.new ≡ placed reply.old numbers }
{
    reply[..PLACES].copy_from_slice(&numbers);
}

// The numbers of a refusal.
fn refused(refusal: ParsingError) -> [u32; PLACES]
    ensures { result ≡ refused refusal }
{
    let ParsingError {
        number,
        cursor,
        count,
        start,
        end,
    } = refusal;
    [REFUSED, number, start.0, end.0, cursor.0, count]
}

// A reply as numbers in the column. It is no From of a reply for an array, since neither type is of this crate.
pub fn write(reply: &mut [u32], parsed: Parsed)
    requires { reply_numbers ≤ length reply.old }
    ensures { reply.new ≡ written reply.old parsed }
{
    let numbers = match parsed {
        Ok(
            Read {
                value: root,
                cursor,
                count,
            },
        ) => { [ACCEPTED, root.0, cursor.0, count, 0, 0] }
        Err(refusal) => refused(refusal),
    };
    place(reply, numbers);
}

// A word, or its refusal, as numbers in the column. A trait for what is accepted would be longer than both functions.
pub fn write_word(reply: &mut [u32], packed: ParseResult<u32>)
    requires { reply_numbers ≤ length reply.old }
    ensures { reply.new ≡ written_word reply.old packed }
{
    let numbers = match packed {
        Ok(word) => [ACCEPTED, word, 0, 0, 0, 0],
        Err(refusal) => refused(refusal),
    };
    place(reply, numbers);
}
