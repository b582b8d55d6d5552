// The node words, after ParseBuffer of the Rust's parser/parse_tree.rs. The node count and the open list are passed
// and returned by value. The count is in no struct with the words, which are lent, since each answer has the count then,
// as it has the cursor. Where the slots are used up the answer is refusal 33, and what was appended before stays.
#![tactic(auto)]

ghost use Rattle.std.proofs.Math.Option.{none};
ghost use Rattle.std.specs.Prelude.{◌≡◌, ◌≤◌, ◌<◌, length, set};
ghost use Rattle.rules.specs.Codes.Limit as Limits;
ghost use Rattle.rules.specs.Codes.ParseNode as Kind;
ghost use Rattle.rules.specs.Words.{packed, append, push_list_item, push_end_of_list};
ghost use Rattle.codes.specs.Words.{As, Gives, nodes};
ghost use Rattle.nodes.specs.Answer.{listed, ends, past, WithinSlots, append_two};

use codes::{Node, NodeId, ParseNode, ParseResult, Parsed, ParsingError, Read, Refusal, TokenId};

// A list whose end is yet to come: its first and its last item. It is no Option of a struct, since that is moved as one
// number of 64 bits, which takes 10 in 100 instructions more on a struct of many members. Its nodes are bounded by the
// node count, which is a parameter, so that the bound is in the contracts.
#[derive(Clone, Copy)]
pub enum ActiveList {
    Empty,
    Open {
        first_node: NodeId,
        last_node: NodeId,
    },
}

// A turn of a loop over a list: one with which it goes on, or the last one.
#[derive(Clone, Copy)]
pub enum Turn<T> {
    More(T),
    Last(T),
}

// A node is appended.
pub fn push(node_words: &mut [u32], cursor: TokenId, count: u32, node: Node) -> Parsed
    requires { WithinSlots node_words.old count × (node.1 ≤ Limits.Load) }
    ensures { Gives (append node.0 node.1) cursor.0 (nodes node_words.old count) result node_words.new }
{
    let at = count as usize;
    if at < node_words.len() {
        node_words[at] = codes::word(node.0, node.1);
        Ok(Read {
            value: NodeId(count),
            cursor,
            count: count + 1,
        })
    } else {
        Err(ParsingError {
            number: Refusal::NoSlot,
            start: cursor,
            end: cursor,
            cursor,
            count,
        })
    }
}

// Two nodes are appended.
pub fn push_two(
    node_words: &mut [u32],
    cursor: TokenId,
    count: u32,
    first: Node,
    second: Node,
) -> Parsed
    requires { WithinSlots node_words.old count × (first.1 ≤ Limits.Load) × (second.1 ≤ Limits.Load) }
    ensures { Gives (append_two first.0 first.1 second.0 second.1) cursor.0 (nodes node_words.old count) result node_words.new }
{
    let Read { cursor, count, .. } = push(node_words, cursor, count, first)?;
    push(node_words, cursor, count, second)
}

// A node that links to one before it. This function and the next one are a call of push each: one for both, with the kind
// as a parameter, would be that call.
pub fn push_older_node(node_words: &mut [u32], cursor: TokenId, count: u32, node: NodeId) -> Parsed
    requires { WithinSlots node_words.old count × (node.0 ≤ Limits.Load) }
    ensures { Gives (append Kind.Item node.0) cursor.0 (nodes node_words.old count) result node_words.new }
{
    push(node_words, cursor, count, Node(ParseNode::Item, node.0))
}

// A node that links to a list's first item, or to its end where it has none.
pub fn push_list(node_words: &mut [u32], cursor: TokenId, count: u32, first: NodeId) -> Parsed
    requires { WithinSlots node_words.old count × (first.0 ≤ Limits.Load) }
    ensures { Gives (append Kind.List first.0) cursor.0 (nodes node_words.old count) result node_words.new }
{
    push(node_words, cursor, count, Node(ParseNode::List, first.0))
}

// The item links to the node that follows it.
fn patch_list_item(node_words: &mut [u32], item: NodeId, next: NodeId)
    requires { (item.0 < length node_words.old) × (next.0 ≤ Limits.Load) }
    ensures { node_words.new ≡ set node_words.old item.0 (packed Kind.ListItem next.0) }
{
    let at = item.0 as usize;
    node_words[at] = codes::word(ParseNode::ListItem, next.0);
}

// A list with no item yet.
pub fn start_list() -> ActiveList
    ensures { ends result ≡ none }
{
    ActiveList::Empty
}

// An item is appended after its content, unfinished; the one before it is patched.
pub fn push_list_item(
    node_words: &mut [u32],
    cursor: TokenId,
    count: u32,
    list: ActiveList,
) -> ParseResult<Read<ActiveList>>
    requires { WithinSlots node_words.old count × (past list ≤ count) }
    ensures { As listed (push_list_item (ends list)) cursor.0 (nodes node_words.old count) result
        node_words.new }
{
    let Read {
        value: new_node,
        cursor,
        count,
    } = push(
        node_words,
        cursor,
        count,
        Node(ParseNode::UnpatchedListItem, 0),
    )?;
    match list {
        ActiveList::Open {
            first_node,
            last_node,
        } => {
            patch_list_item(node_words, last_node, new_node);
            Ok(Read {
                value: ActiveList::Open {
                    first_node,
                    last_node: new_node,
                },
                cursor,
                count,
            })
        }
        ActiveList::Empty => Ok(Read {
            value: ActiveList::Open {
                first_node: new_node,
                last_node: new_node,
            },
            cursor,
            count,
        }),
    }
}

// The list's end is appended, and its last item patched. The root is its first item, or the end where it has none.
pub fn push_end_of_list(
    node_words: &mut [u32],
    cursor: TokenId,
    count: u32,
    list: ActiveList,
) -> Parsed
    requires { WithinSlots node_words.old count × (past list ≤ count) }
    ensures { Gives (push_end_of_list (ends list)) cursor.0 (nodes node_words.old count) result
        node_words.new }
{
    let end = push(node_words, cursor, count, Node(ParseNode::NoMoreItems, 0))?;
    match list {
        ActiveList::Open {
            first_node,
            last_node,
        } => {
            patch_list_item(node_words, last_node, end.value);
            Ok(Read {
                value: first_node,
                cursor: end.cursor,
                count: end.count,
            })
        }
        ActiveList::Empty => Ok(end),
    }
}
