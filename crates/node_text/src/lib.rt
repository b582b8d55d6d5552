// The text that penne-nodes writes, put into a buffer after what stands there. What stands before it and after it is kept.
// The functions ask for room and cannot fail. By `write!` they could: the contract of fmt::Write says what a write that
// succeeds has written, and not when it succeeds.
#![tactic(auto)]

ghost use Rattle.std.specs.Prelude.{◌≡◌, ◌≤◌, ◌*◌, [], ◌∷◌, ◌++◌, length};
ghost use Rattle.codes.specs.Answer.{nodes};
ghost use Rattle.node_text.specs.Puts.{Adds, HasRoom};
ghost use Rattle.node_text.specs.Text.{decimal, byte_number, two, state_text, line, lines, bad_file};
ghost use Rattle.node_text.specs.Text.{reply as reply_text};

use codes::{Node, Parsed, TokenId};
use itoa::Buffer;

// A buffer, and the place after the text in it. It is no String, since that needs a heap.
#[derive(Drop)]
pub struct TextBuffer<'a> {
    pub bytes: &'a mut [u8],
    pub end: usize,
}

impl<'a> TextBuffer<'a> {
    // A buffer with no text yet.
    pub fn new(bytes: &'a mut [u8]) -> TextBuffer<'a>
        ensures same_reference { result.bytes.ghost_name ≡ bytes.entry.ghost_name }
        ensures no_text { (result.bytes.now ≡ bytes.old) × (result.end ≡ 0) }
    {
        TextBuffer { bytes, end: 0 }
    }
}

impl TextBuffer<'_> {
    // A byte.
    fn put(&mut self, byte: u8)
        requires { HasRoom self.old 1 }
        ensures { Adds self.old (byte ∷ []) self.new }
    {
        self.bytes[self.end] = byte;
        self.end += 1;
    }

    // Some bytes.
    fn put_bytes(&mut self, bytes: &[u8])
        requires { HasRoom self.old (length bytes.now) }
        ensures { Adds self.old bytes.now self.new }
    {
        let next = self.end + bytes.len();
        let room = &mut self.bytes[self.end..next];
        room.copy_from_slice(bytes);
        self.end = next;
    }

    // A number in decimal.
    fn put_number(&mut self, number: u32)
        requires { HasRoom self.old (length (decimal number)) }
        ensures { Adds self.old (decimal number) self.new }
    {
        let mut digits = Buffer::new();
        self.put_bytes(digits.format(number).as_bytes());
    }

    // A byte and a number.
    fn put_after(&mut self, byte: u8, number: u32)
        requires { HasRoom self.old (length (byte_number byte number)) }
        ensures { Adds self.old (byte_number byte number) self.new }
    {
        self.put(byte);
        self.put_number(number);
    }

    // Two numbers more.
    fn put_two(&mut self, first: u32, second: u32)
        requires { HasRoom self.old (length (two first second)) }
        ensures { Adds self.old (two first second) self.new }
    {
        self.put_after(b' ', first);
        self.put_after(b' ', second);
    }

    // A node's number, kind and load.
    fn put_node(&mut self, number: u32, node: Node)
        requires { HasRoom self.old (length (line number node.0 node.1)) }
        ensures { Adds self.old (line number node.0 node.1) self.new }
    {
        self.put_number(number);
        self.put_two(u32::from(node.0), node.1);
        self.put(b'\n');
    }

    // A word and a number.
    fn put_word(&mut self, word: &[u8], number: u32)
        requires { HasRoom self.old (length (word.now ++ byte_number 32 number)) }
        ensures { Adds self.old (word.now ++ byte_number 32 number) self.new }
    {
        self.put_bytes(word);
        self.put_after(b' ', number);
    }

    // The cursor and the node count, and the line's end.
    fn put_state(&mut self, cursor: TokenId, count: u32)
        requires { HasRoom self.old (length (state_text cursor.0 count)) }
        ensures { Adds self.old (state_text cursor.0 count) self.new }
    {
        self.put_two(cursor.0, count);
        self.put(b'\n');
    }

    // That the input is bad.
    pub fn put_bad_file(&mut self)
        requires { HasRoom self.old 9 }
        ensures { Adds self.old bad_file self.new }
    {
        self.put_bytes(b"bad file\n");
    }

    // The first line: the reply's numbers.
    pub fn put_reply(&mut self, reply: Parsed)
        requires { HasRoom self.old 64 }
        ensures { Adds self.old (reply_text reply) self.new }
    {
        match reply {
            Ok(read) => {
                self.put_word(b"ok", read.value.0);
                self.put_state(read.cursor, read.count);
            }
            Err(error) => {
                self.put_word(b"no", error.number);
                self.put_two(error.start.0, error.end.0);
                self.put_state(error.cursor, error.count);
            }
        }
    }

    // A line for each node below the count. The loop counts the numbers, since they are put, too.
    pub fn put_nodes(&mut self, node_kinds: &[u8], node_loads: &[u32], count: u32)
        requires count_in_bounds { (count ≤ length node_kinds.now)
            × (count ≤ length node_loads.now) }
        requires room { HasRoom self.old (33 * count) }
        ensures { Adds self.old (lines (nodes node_kinds.now node_loads.now count) count) self.new }
    {
        for number in 0..count {
            let place = number as usize;
            self.put_node(number, Node(node_kinds[place], node_loads[place]));
        }
    }
}
