// A list of integers by the lent record, and by the core.
ghost use Rattle.std.specs.Prelude.{◌≡◌, ◌+◌, ◌≤◌};
ghost use Rattle.std.proofs.Math.Option.{none};
ghost use Rattle.rules.specs.Codes.Limit as Limits;
ghost use Rattle.codes.specs.declared.Read.{Read};
ghost use Rattle.codes.specs.Words.{Gives, nodes};
ghost use Rattle.nodes.specs.declared.ActiveList.{ActiveList};
ghost use Rattle.nodes.specs.Answer.{WithinSlots, ends};
ghost use Rattle.lent_rows.specs.Lists.{items, seen, Fits, Item};

use buffer::{Appended, ParseBuffer};
use codes::{Node, ParseNode, ParseResult, Parsed, Read, TokenId};
use nodes::ActiveList;

// A list to which items are added, with the cursor and the count.
pub trait Listing: Copy {
    ghost view: { Self → Read ActiveList };

    fn list(self) -> Read<ActiveList>
        ensures { result ≡ view self };

    // An item is added: its content, an integer that is this token, and the item.
    fn with_item(self, node_words: &mut [u32], token: u32) -> ParseResult<Self>
        requires { Fits (view self) node_words.old × (token ≤ Limits.Load) }
        ensures { Item token (view self) node_words.old (seen view result) node_words.new };
}

// A list by the lent record.
#[derive(Clone, Copy)]
pub struct Recorded {
    pub cursor: TokenId,
    pub buffer: ParseBuffer,
}

impl Listing for Recorded {
    ghost view = { λ r. record {
      cursor = r.cursor;
      count = r.buffer.count;
      value = r.buffer.list;
    } };

    fn list(self) -> Read<ActiveList> {
        Read {
            cursor: self.cursor,
            count: self.buffer.count,
            value: self.buffer.list,
        }
    }

    fn with_item(self, node_words: &mut [u32], token: u32) -> ParseResult<Self> {
        let Recorded { cursor, buffer } = self;
        let integer = Node(ParseNode::UntypedIntegerLiteral, token);
        let Appended { reply, buffer } = buffer::append_to(node_words, cursor, buffer, integer);
        let Read { cursor, .. } = reply?;
        let Appended { reply, buffer } = buffer::append_item_to(node_words, cursor, buffer);
        let item = reply?;
        Ok(Recorded {
            cursor: item.cursor,
            buffer,
        })
    }
}

// A list by the core.
impl Listing for Read<ActiveList> {
    ghost view = { λ list. list };

    fn list(self) -> Read<ActiveList> {
        self
    }

    fn with_item(self, node_words: &mut [u32], token: u32) -> ParseResult<Self> {
        let integer = Node(ParseNode::UntypedIntegerLiteral, token);
        let Read { cursor, count, .. } = nodes::push(node_words, self.cursor, self.count, integer)?;
        nodes::push_list_item(node_words, cursor, count, self.value)
    }
}

// So many items from this token on and the list's end, which is the core's.
pub fn items<L: Listing>(node_words: &mut [u32], list: L, token: u32, left: u32) -> Parsed
    requires { Fits (L.view list) node_words.old × (token + left ≤ Limits.Load + 1) }
    ensures { Gives (items left token (ends (L.view list).value)) (L.view list).cursor.0
        (nodes node_words.old (L.view list).count) result node_words.new }
{
    let mut list = list;
    for item in token..token + left {
        list = list.with_item(node_words, item)?;
    }
    let Read {
        cursor,
        count,
        value,
    } = list.list();
    nodes::push_end_of_list(node_words, cursor, count, value)
}

// A list of so many items whose tokens are the first ones, by the lent record.
pub fn list_by_record(node_words: &mut [u32], cursor: TokenId, length: u32) -> Parsed
    requires { WithinSlots node_words.old 0 × (length ≤ Limits.Load + 1) }
    ensures { Gives (items length 0 none) cursor.0 (nodes node_words.old 0) result
        node_words.new }
{
    let buffer = ParseBuffer {
        count: 0,
        list: nodes::start_list(),
    };
    items(node_words, Recorded { cursor, buffer }, 0, length)
}

// The same by the core.
pub fn list_by_core(node_words: &mut [u32], cursor: TokenId, length: u32) -> Parsed
    requires { WithinSlots node_words.old 0 × (length ≤ Limits.Load + 1) }
    ensures { Gives (items length 0 none) cursor.0 (nodes node_words.old 0) result
        node_words.new }
{
    let list = Read {
        cursor,
        count: 0,
        value: nodes::start_list(),
    };
    items(node_words, list, 0, length)
}
