// Types, after parse_type and parse_inner_type of the Rust's parser.rs.
#![tactic(auto)]

ghost use Rattle.std.specs.Prelude.{◌+◌, ◌≤◌, length};
ghost use Rattle.rules.specs.Codes.Limit as Limits;
ghost use Rattle.rules.specs.Types.{inner_type, type, array_size};
ghost use Rattle.rules.specs.Words.{words};
ghost use Rattle.codes.specs.Answer.{row as row_of};
ghost use Rattle.codes.specs.Words.{Gives, Quiet, Sized, nodes};
ghost use Rattle.nodes.specs.Answer.{WithinSlots};
ghost use Rattle.types.specs.Answer.{sized, closing, Starts, Shorts, finishing, enclosing, spanning};

use codes::{
    BaseToken, Node, ParseNode, ParseResult, Parsed, ParsingError, Read, Refusal, TokenId,
};
use nodes::{push, push_two};
use tokens::Row;

// How an inner type starts: with the only node that it has, or with an element type. The node of the latter follows
// that of the element type, which begins at the cursor.
#[derive(Clone, Copy)]
enum Start {
    Leaf(Node),
    Around(Node),
}

// The bracket that closes a size: the array type's node.
fn close_array(row: &Row<'_>, cursor: TokenId, count: u32, node: Node) -> ParseResult<Read<Node>>
    requires { cursor.0 ≤ Limits.Tokens + 1 }
    ensures { Quiet sized (closing node.0 node.1) row.now.kinds.now cursor.0 count result }
{
    let cursor = row.consume(cursor, count, BaseToken::BracketRight)?;
    Ok(Read {
        value: node,
        cursor,
        count,
    })
}

// An array's size, with its closing bracket: the array type's node.
fn parse_array_size(row: &Row<'_>, cursor: TokenId, count: u32) -> ParseResult<Read<Node>>
    requires { cursor.0 ≤ Limits.Tokens }
    ensures { Quiet sized (array_size words) row.now.kinds.now cursor.0 count result }
{
    let at = cursor.0;
    let next = TokenId(at + 1);
    match row.peek(cursor) {
        BaseToken::BracketRight => Ok(Read {
            value: Node(ParseNode::ArraylikeVT, 0),
            cursor: next,
            count,
        }),
        BaseToken::Colon => close_array(row, next, count, Node(ParseNode::SliceVT, 0)),
        BaseToken::Dots => close_array(row, next, count, Node(ParseNode::EndlessArrayVT, 0)),
        BaseToken::NakedDecimal => close_array(row, next, count, Node(ParseNode::ArrayVT, at)),
        BaseToken::Identifier => close_array(
            row,
            next,
            count,
            Node(ParseNode::ArrayWithNamedLengthVT, at),
        ),
        _ => Err(ParsingError {
            number: Refusal::ExpectedArraySize,
            start: cursor,
            end: cursor,
            cursor: next,
            count,
        }),
    }
}

// The node of a type of a single token, if there is one.
pub fn short_type(row: &Row<'_>, cursor: TokenId) -> Option<Node>
    ensures { Shorts row.now.kinds.now row.now.types.now cursor.0 result }
{
    match row.peek(cursor) {
        BaseToken::ValueTypeKeyword => {
            Some(Node(ParseNode::SimpleValueType, u32::from(row.peek_type(cursor))))
        }
        BaseToken::Identifier => Some(Node(ParseNode::UnresolvedStructOrWordVT, cursor.0)),
        _ => None,
    }
}

// An inner type up to its element type.
fn start_inner_type(row: &Row<'_>, cursor: TokenId, count: u32) -> ParseResult<Read<Start>>
    requires { (cursor.0 ≤ length row.now.kinds.now) × (length row.now.kinds.now ≤ Limits.Tokens) }
    ensures { Starts row.now.kinds.now row.now.types.now cursor.0 count result }
{
    let next = TokenId(cursor.0 + 1);
    if let Some(node) = short_type(row, cursor) {
        return Ok(Read {
            value: Start::Leaf(node),
            cursor: next,
            count,
        });
    }
    match row.peek(cursor) {
        BaseToken::Ampersand => Ok(Read {
            value: Start::Around(Node(ParseNode::PointerVT, 0)),
            cursor: next,
            count,
        }),
        BaseToken::ParenLeft => Ok(Read {
            value: Start::Around(Node(ParseNode::ViewVT, 0)),
            cursor: next,
            count,
        }),
        BaseToken::BracketLeft => {
            let Read {
                value: node,
                cursor,
                count,
            } = parse_array_size(row, next, count)?;
            Ok(Read {
                value: Start::Around(node),
                cursor,
                count,
            })
        }
        _ => Err(ParsingError {
            number: Refusal::ExpectedType,
            start: cursor,
            end: cursor,
            cursor: next,
            count,
        }),
    }
}

// An inner type after its element type: a view's closing parenthesis, and the node.
fn finish_inner_type(
    row: &Row<'_>,
    node_words: &mut [u32],
    cursor: TokenId,
    count: u32,
    node: Node,
) -> Parsed
    requires { WithinSlots node_words.old count × (cursor.0 ≤ Limits.Tokens + 1) ×
        (node.1 ≤ Limits.Load) }
    ensures { Gives (finishing row.now.kinds.now node.0 node.1) cursor.0
        (nodes node_words.old count) result node_words.new }
{
    let Node(kind, _) = node;
    if kind == ParseNode::ViewVT {
        let cursor = row.consume(cursor, count, BaseToken::ParenRight)?;
        push(node_words, cursor, count, node)
    } else {
        push(node_words, cursor, count, node)
    }
}

// The element type of a single token that stands here, and the rest of the inner type around it.
fn enclose(
    row: &Row<'_>,
    node_words: &mut [u32],
    cursor: TokenId,
    count: u32,
    element: Node,
    node: Node,
) -> Parsed
    requires { WithinSlots node_words.old count × (cursor.0 ≤ Limits.Tokens) ×
        (element.1 ≤ Limits.Load) × (node.1 ≤ Limits.Load) }
    ensures { Gives (enclosing row.now.kinds.now element.0 element.1 node.0 node.1) (cursor.0 + 1)
        (nodes node_words.old count) result node_words.new }
{
    let end = TokenId(cursor.0 + 1);
    let Read { cursor, count, .. } = push(node_words, end, count, element)?;
    finish_inner_type(row, node_words, cursor, count, node)
}

// An inner type. `unused` is the nesting that is left. An element type of a single token is read without a call of this
// reader, which takes longer.
fn parse_inner_type(
    row: &Row<'_>,
    node_words: &mut [u32],
    cursor: TokenId,
    count: u32,
    unused: u32,
) -> Parsed
    requires { Sized row.now.kinds.now row.now.types.now node_words.old cursor.0 count }
    ensures { Gives (inner_type words (row_of row.now.kinds.now row.now.types.now) unused) cursor.0
        (nodes node_words.old count) result node_words.new }
{
    if unused == 0 {
        return Err(ParsingError {
            number: Refusal::NestingExceeded,
            start: cursor,
            end: cursor,
            cursor,
            count,
        });
    }
    let Read {
        value: start,
        cursor,
        count,
    } = start_inner_type(row, cursor, count)?;
    match start {
        Start::Leaf(node) => push(node_words, cursor, count, node),
        Start::Around(node) => {
            let left = unused - 1;
            if let Some(element) = short_type(row, cursor)
                && left > 0
            {
                return enclose(row, node_words, cursor, count, element, node);
            }
            let inner = parse_inner_type(row, node_words, cursor, count, left)?;
            finish_inner_type(row, node_words, inner.cursor, inner.count, node)
        }
    }
}

// The span of a type that begins at the token `start` and ends before the cursor.
fn push_span(node_words: &mut [u32], cursor: TokenId, count: u32, start: TokenId) -> Parsed
    requires { WithinSlots node_words.old count × (cursor.0 ≤ Limits.Load) ×
        (start.0 ≤ Limits.Load) }
    ensures { Gives (spanning start.0 cursor.0) cursor.0 (nodes node_words.old count)
        result node_words.new }
{
    let end = Node(ParseNode::EndOfSpan, cursor.0);
    push_two(
        node_words,
        cursor,
        count,
        end,
        Node(ParseNode::CompositeValueType, start.0),
    )
}

// A type by its inner type; one of several tokens gets its span.
fn parse_any_type(
    row: &Row<'_>,
    node_words: &mut [u32],
    cursor: TokenId,
    count: u32,
    unused: u32,
) -> Parsed
    requires { Sized row.now.kinds.now row.now.types.now node_words.old cursor.0 count }
    ensures { Gives (type words (row_of row.now.kinds.now row.now.types.now) unused) cursor.0
        (nodes node_words.old count) result node_words.new }
{
    let start = cursor.0;
    let inner = parse_inner_type(row, node_words, cursor, count, unused)?;
    let end = inner.cursor.0;
    if start + 1 < end {
        push_span(node_words, inner.cursor, inner.count, TokenId(start))
    } else {
        Ok(inner)
    }
}

// A type. One of a single token is read here: the reader that calls itself costs more to call than this takes.
pub fn parse_type(
    row: &Row<'_>,
    node_words: &mut [u32],
    cursor: TokenId,
    count: u32,
    unused: u32,
) -> Parsed
    requires { Sized row.now.kinds.now row.now.types.now node_words.old cursor.0 count }
    ensures { Gives (type words (row_of row.now.kinds.now row.now.types.now) unused) cursor.0
        (nodes node_words.old count) result node_words.new }
{
    if let Some(node) = short_type(row, cursor)
        && unused > 0
    {
        return push(node_words, TokenId(cursor.0 + 1), count, node);
    }
    parse_any_type(row, node_words, cursor, count, unused)
}
