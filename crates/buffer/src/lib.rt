// The node count and the open list in one record, which is lent to append and append_item, after the Rust's &mut
// ParseBuffer. Each calls one function of crate nodes, and a refusal leaves the record as it was. A caller that has the
// record by value uses the functions at the end.
#![tactic(auto)]

ghost use Rattle.std.specs.Prelude.{◌≡◌, ◌≤◌};
ghost use Rattle.rules.specs.Codes.Limit as Limits;
ghost use Rattle.nodes.specs.Answer.{WithinSlots, past};
ghost use Rattle.buffer.specs.Answer.{Appends, AppendsItem};

use codes::{Node, NodeId, ParseResult, Parsed, Read, TokenId};
use nodes::ActiveList;

// How many nodes there are, and the list whose end is yet to come. No invariant says that the list's nodes are among
// these: append asks nothing of the list.
#[derive(Clone, Copy)]
pub struct ParseBuffer {
    pub count: u32,
    pub list: ActiveList,
}

// What is answered, and the record then.
#[derive(Clone, Copy)]
pub struct Appended<T> {
    pub reply: ParseResult<Read<T>>,
    pub buffer: ParseBuffer,
}

impl ParseBuffer {
    // A node is appended.
    pub fn append(&mut self, node_words: &mut [u32], cursor: TokenId, node: Node) -> Parsed
        requires { WithinSlots node_words.old self.old.count × (node.1 ≤ Limits.Load) }
        ensures { Appends cursor.0 self.old node_words.old node.0 node.1 result
            self.new node_words.new }
    {
        let reply = nodes::push(node_words, cursor, self.count, node);
        if let Ok(read) = reply {
            self.count = read.count;
        }
        reply
    }

    // An item is appended after its content, unfinished, and the one before it is patched.
    pub fn append_item(
        &mut self,
        node_words: &mut [u32],
        cursor: TokenId,
    ) -> ParseResult<Read<ActiveList>>
        requires { WithinSlots node_words.old self.old.count
            × (past self.old.list ≤ self.old.count) }
        ensures { AppendsItem cursor.0 self.old node_words.old result self.new
            node_words.new }
    {
        let reply = nodes::push_list_item(node_words, cursor, self.count, self.list);
        if let Ok(read) = reply {
            self.count = read.count;
            self.list = read.value;
        }
        reply
    }
}

// A node is appended with a record that is passed and returned by value.
pub fn append_to(
    node_words: &mut [u32],
    cursor: TokenId,
    buffer: ParseBuffer,
    node: Node,
) -> Appended<NodeId>
    requires { WithinSlots node_words.old buffer.count × (node.1 ≤ Limits.Load) }
    ensures { Appends cursor.0 buffer node_words.old
        node.0 node.1 result.reply result.buffer node_words.new }
{
    let mut lent = buffer;
    let reply = lent.append(node_words, cursor, node);
    Appended {
        reply,
        buffer: lent,
    }
}

// An item is appended and the one before it patched, likewise. The two stay apart, since a closure's contract would be
// longer than the body.
pub fn append_item_to(
    node_words: &mut [u32],
    cursor: TokenId,
    buffer: ParseBuffer,
) -> Appended<ActiveList>
    requires { WithinSlots node_words.old buffer.count × (past buffer.list ≤ buffer.count) }
    ensures { AppendsItem cursor.0 buffer node_words.old
        result.reply result.buffer node_words.new }
{
    let mut lent = buffer;
    let reply = lent.append_item(node_words, cursor);
    Appended {
        reply,
        buffer: lent,
    }
}
