// What holds a type and no expression, after parse_singular_expression and parse_unary_expression of the Rust's
// parser.rs: `cast`, `as` and `|:`.
#![tactic(auto)]

ghost use Rattle.std.specs.Prelude.{◌+◌, ◌≤◌, ◌<◌, length, is_some};
ghost use Rattle.rules.specs.Codes.Limit as Limits;
ghost use Rattle.rules.specs.Reading.{loop};
ghost use Rattle.rules.specs.Words.{words};
ghost use Rattle.rules.specs.Types.{type};
ghost use Rattle.rules.specs.Expressions.{size_of, type_cast, coerced, singular_end};
ghost use Rattle.codes.specs.Answer.{row as row_of};
ghost use Rattle.codes.specs.Words.{Gives, Sized, nodes};
ghost use Rattle.nodes.specs.Answer.{WithinSlots};
ghost use Rattle.casts.specs.Answer.{Casting, bit_cast, cast_at};

use codes::{BaseToken, Node, NodeId, ParseNode, Parsed, Read, TokenId};
use nodes::{push, push_two};
use references::push_closed;
use tokens::Row;
use types::parse_type;

// The cursor after a `cast` before a unary, if one stands here. A unary that is `bare`, an operand of a bitwise operator
// or of a shift, has none.
pub fn optional_cast(row: &Row<'_>, cursor: TokenId, bare: bool) -> Option<TokenId>
    requires { cursor.0 ≤ Limits.Tokens + 1 }
    ensures { Casting row.now.kinds.now bare cursor.0 result }
{
    if bare {
        None
    } else {
        row.consume_optional(cursor, BaseToken::Cast)
    }
}

// The type after an `as`, and the node of the cast of what stands before it.
fn coerce(
    row: &Row<'_>,
    node_words: &mut [u32],
    cursor: TokenId,
    count: u32,
    unused: u32,
    expression: NodeId,
) -> Parsed
    requires { Sized row.now.kinds.now row.now.types.now node_words.old cursor.0 count
        × (expression.0 ≤ Limits.Load) }
    ensures { let tokens = row_of row.now.kinds.now row.now.types.now in
        Gives (type_cast words tokens (type words tokens unused) expression.0)
        cursor.0 (nodes node_words.old count) result node_words.new }
{
    let start = cursor.0;
    let Read { cursor, count, .. } = parse_type(row, node_words, cursor, count, unused)?;
    push_two(
        node_words,
        cursor,
        count,
        Node(ParseNode::Item, expression.0),
        Node(ParseNode::TypeCast, start),
    )
}

// Any number of `as`, each with a type.
fn parse_casts(
    row: &Row<'_>,
    node_words: &mut [u32],
    cursor: TokenId,
    count: u32,
    unused: u32,
    expression: NodeId,
) -> Parsed
    requires { Sized row.now.kinds.now row.now.types.now node_words.old cursor.0 count
        × (expression.0 ≤ Limits.Load) }
    ensures { let tokens = row_of row.now.kinds.now row.now.types.now in
        Gives (loop tokens (coerced words tokens (type words tokens unused)) expression.0)
        cursor.0 (nodes node_words.old count) result node_words.new }
{
    let mut whole = Read {
        value: expression,
        cursor,
        count,
    };
    while let Some(cursor) = row.consume_optional(whole.cursor, BaseToken::As) {
        whole = coerce(row, node_words, cursor, whole.count, unused, whole.value)?;
    }
    Ok(whole)
}

// The node of a `cast`, if one stands there.
fn push_bit_cast(
    node_words: &mut [u32],
    cursor: TokenId,
    count: u32,
    root: NodeId,
    cast: Option<TokenId>,
) -> Parsed
    requires { WithinSlots node_words.old count × (cast_at cast ≤ Limits.Load) }
    ensures { Gives (bit_cast (is_some cast) (cast_at cast) root.0) cursor.0
        (nodes node_words.old count) result node_words.new }
{
    match cast {
        Some(at) => push(node_words, cursor, count, Node(ParseNode::BitCast, at.0)),
        None => Ok(Read {
            value: root,
            cursor,
            count,
        }),
    }
}

// After the unary of a singular: the node of its `cast`, by the token of it, and each `as`. Most have no `as`, which is
// told before the loop is called.
pub fn finish_singular(
    row: &Row<'_>,
    node_words: &mut [u32],
    cursor: TokenId,
    count: u32,
    unused: u32,
    expression: NodeId,
    cast: Option<TokenId>,
) -> Parsed
    requires { Sized row.now.kinds.now row.now.types.now node_words.old cursor.0 count
        × (expression.0 ≤ Limits.Load) × (cast_at cast ≤ Limits.Load) }
    ensures { let tokens = row_of row.now.kinds.now row.now.types.now in
        Gives (singular_end words tokens (type words tokens unused) (is_some cast) (cast_at cast)
        expression.0) cursor.0 (nodes node_words.old count) result node_words.new }
{
    let node = push_bit_cast(node_words, cursor, count, expression, cast)?;
    if row.peek(node.cursor) != BaseToken::As {
        return Ok(node);
    }
    parse_casts(row, node_words, node.cursor, node.count, unused, node.value)
}

// `|:`, which stands here, a type and `|`.
pub fn parse_size_of(
    row: &Row<'_>,
    node_words: &mut [u32],
    cursor: TokenId,
    count: u32,
    unused: u32,
) -> Parsed
    requires { Sized row.now.kinds.now row.now.types.now node_words.old cursor.0 count
        × (cursor.0 < length row.now.kinds.now) }
    ensures { let tokens = row_of row.now.kinds.now row.now.types.now in
        Gives (size_of words tokens (type words tokens unused))
        cursor.0 (nodes node_words.old count) result node_words.new }
{
    let inside = TokenId(cursor.0 + 1);
    let queried = parse_type(row, node_words, inside, count, unused)?;
    push_closed(
        row,
        node_words,
        queried.cursor,
        queried.count,
        BaseToken::Pipe,
        ParseNode::SizeOf,
        queried.value,
    )
}
