// Literals, after parse_primary_expression of the Rust's parser.rs.
#![tactic(auto)]

ghost use Rattle.std.specs.Prelude.{◌≡◌, ◌+◌, ◌≤◌, length};
ghost use Rattle.rules.specs.Codes.Limit as Limits;
ghost use Rattle.codes.specs.Answer.{parsed};
ghost use Rattle.codes.specs.Words.{Untyped, Sized, nodes, Unkinded};
ghost use Rattle.nodes.specs.Answer.{WithinSlots};
ghost use Rattle.literals.specs.Answer.{Ending, Literal, Lone, ends, joining, suffixed};

use codes::{BaseToken, Node, ParseNode, Parsed, ParsingError, Refusal, TokenId};
use nodes::{push, push_two};
use tokens::Row;

// The place after further strings. The loop looks at each token, and does not ask for the cursor after it: an answer
// that may be missing takes 73 in 100 instructions more on a long row of strings.
fn end_of_strings(row: &Row<'_>, mut cursor: TokenId) -> TokenId
    requires { (cursor.0 ≤ Limits.Tokens + 1) × (length row.now.kinds.now ≤ Limits.Tokens) }
    ensures { Ending row.now.kinds.now cursor.0 result × (result.0 ≤ Limits.Load) }
{
    while row.peek(cursor) == BaseToken::StringLiteral {
        cursor = TokenId(cursor.0 + 1);
    }
    cursor
}

// A string, which is taken and starts at `start`, and those next to it.
fn parse_strings(
    row: &Row<'_>,
    node_words: &mut [u32],
    cursor: TokenId,
    count: u32,
    start: TokenId,
) -> Parsed
    requires { (cursor.0 ≤ Limits.Tokens + 1)
        × (length row.now.kinds.now ≤ Limits.Tokens)
        × WithinSlots node_words.old count
        × (start.0 ≤ Limits.Load) }
    ensures { Untyped parsed (joining start.0) row.now.kinds.now cursor.0
        (nodes node_words.old count) result node_words.new }
{
    let Some(second) = row.consume_optional(cursor, BaseToken::StringLiteral) else {
        return push(
            node_words,
            cursor,
            count,
            Node(ParseNode::SimpleStringLiteral, start.0),
        );
    };
    let end = end_of_strings(row, second);
    push_two(
        node_words,
        end,
        count,
        Node(ParseNode::EndOfSpan, end.0),
        Node(ParseNode::CompositeStringLiteral, start.0),
    )
}

// An integer with its type, at `at`.
fn push_typed_integer(
    row: &Row<'_>,
    node_words: &mut [u32],
    cursor: TokenId,
    count: u32,
    at: TokenId,
) -> Parsed
    requires { WithinSlots node_words.old count × (at.0 ≤ Limits.Load) }
    ensures { Unkinded parsed (suffixed at.0) row.now.types.now cursor.0
        (nodes node_words.old count) result node_words.new }
{
    let value_type = row.peek_type(at);
    push_two(
        node_words,
        cursor,
        count,
        Node(ParseNode::SimpleValueType, u32::from(value_type)),
        Node(ParseNode::TypedIntegerLiteral, at.0),
    )
}

// A literal whose first token, of the kind `token`, stands here. Any other is refused.
pub fn parse_literal(
    row: &Row<'_>,
    node_words: &mut [u32],
    cursor: TokenId,
    count: u32,
    token: u8,
) -> Parsed
    requires { Sized row.now.kinds.now row.now.types.now node_words.old cursor.0 count }
    ensures { Literal row.now.kinds.now row.now.types.now token cursor.0
        (nodes node_words.old count) result node_words.new }
{
    let at = cursor.0;
    let after = TokenId(at + 1);
    match token {
        BaseToken::NakedDecimal | BaseToken::BitInteger => {
            let node = Node(ParseNode::UntypedIntegerLiteral, at);
            push(node_words, after, count, node)
        }
        BaseToken::SuffixedInteger => push_typed_integer(row, node_words, after, count, cursor),
        BaseToken::CharLiteral => {
            let node = Node(ParseNode::CharLiteral, at);
            push(node_words, after, count, node)
        }
        BaseToken::BoolLiteral => {
            let node = Node(ParseNode::BooleanLiteral, at);
            push(node_words, after, count, node)
        }
        BaseToken::StringLiteral => parse_strings(row, node_words, after, count, cursor),
        _ => Err(ParsingError {
            number: Refusal::ExpectedPrimary,
            start: cursor,
            end: cursor,
            cursor: after,
            count,
        }),
    }
}

// Whether this is a closing token, a comma or a semicolon: no expression goes on with such a token.
fn ends_expression(token: u8) -> bool
    ensures { result ≡ ends token }
{
    matches!(
        token,
        BaseToken::ParenRight
            | BaseToken::BraceRight
            | BaseToken::BracketRight
            | BaseToken::Semicolon
            | BaseToken::Comma,
    )
}

// Whether an integer without a type stands here and such a token after it: then it is the whole expression.
pub fn lone_integer(row: &Row<'_>, cursor: TokenId) -> bool
    requires { cursor.0 ≤ Limits.Tokens }
    ensures { Lone row.now.kinds.now cursor.0 result }
{
    let next = TokenId(cursor.0 + 1);
    match row.peek(cursor) {
        BaseToken::NakedDecimal | BaseToken::BitInteger => ends_expression(row.peek(next)),
        _ => false,
    }
}
