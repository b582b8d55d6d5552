// Names with ampersands before and steps after them, after parse_reference and parse_deref_steps_list of the Rust's
// parser.rs; and the end of what stands between two tokens.
#![tactic(auto)]

ghost use Rattle.std.specs.Prelude.{◌≡◌, ◌+◌, ◌≤◌, length};
ghost use Rattle.rules.specs.Codes.Limit as Limits;
ghost use Rattle.rules.specs.Codes.Refusal as Number;
ghost use Rattle.rules.specs.Words.{words};
ghost use Rattle.rules.specs.Expressions.{deref, name_alone};
ghost use Rattle.codes.specs.Answer.{parsed, refusal};
ghost use Rattle.codes.specs.Words.{Gives, Untyped, Quiet, nodes};
ghost use Rattle.nodes.specs.Answer.{WithinSlots, ends, past};
ghost use Rattle.references.specs.Answer.{Shallow, Near, depths, addressed, stepped, one_more, closing, counting, addressing, elementing, membering, deref_end};

use codes::{
    BaseToken, Limit, Node, NodeId, ParseNode, ParseResult, Parsed, ParsingError, Read, Refusal,
    TokenId,
};
use nodes::{ActiveList, push, push_end_of_list, push_list_item, push_two, start_list};
use tokens::Row;

// How many ampersands there are, and the name after them. It has no ghost field: that the two fit a load stands in the
// contract of parse_address alone, and `address_of` in specs/ makes an Address of any two numbers.
#[derive(Clone, Copy)]
pub struct Address {
    pub depth: u32,
    pub name: TokenId,
}

// A reference but for its steps: where it starts, and its name with the number of ampersands that is stored. Each of the
// three is a node's load.
#[derive(Clone, Copy)]
pub struct Reference {
    pub start: TokenId,
    pub address: Address,
    pub ghost start_in: { start.0 ≤ Limits.Load },
    pub ghost depth_in: { address.depth ≤ Limits.Load },
    pub ghost name_in: { address.name.0 ≤ Limits.Load },
}

// The closing token, and the node of what it closes: a parenthesized expression, a length, a size or an element step.
// What is `inside` was appended last, so that only the contract names it.
pub fn push_closed(
    row: &Row<'_>,
    node_words: &mut [u32],
    cursor: TokenId,
    count: u32,
    expected: u8,
    kind: u8,
    inside: NodeId,
) -> Parsed
    requires { (cursor.0 ≤ Limits.Tokens + 1) × WithinSlots node_words.old count }
    ensures { Untyped parsed (closing expected kind inside.0) row.now.kinds.now cursor.0
        (nodes node_words.old count) result node_words.new }
{
    let cursor = row.consume(cursor, count, expected)?;
    push(node_words, cursor, count, Node(kind, 0))
}

// Too many ampersands or steps, from `start` up to here.
pub fn exceeded(cursor: TokenId, count: u32, start: TokenId) -> ParsingError
    ensures { result ≡
        refusal Number.MaximumParseDepthExceeded start.0 cursor.0 cursor.0 count }
{
    ParsingError {
        number: Refusal::MaximumParseDepthExceeded,
        start,
        end: cursor,
        cursor,
        count,
    }
}

// Further ampersands. The depth is 1 where there are none.
fn parse_ampersands(
    row: &Row<'_>,
    mut cursor: TokenId,
    count: u32,
    start: TokenId,
) -> ParseResult<Read<u32>>
    requires { (length row.now.kinds.now ≤ Limits.Tokens) ×
        (cursor.0 ≤ length row.now.kinds.now) }
    ensures { Quiet depths (counting start.0) row.now.kinds.now cursor.0 count result ×
        Shallow result }
{
    for depth in 1..=Limit::AddressDepth {
        let Some(after) = row.consume_optional(cursor, BaseToken::Ampersand) else {
            return Ok(Read {
                value: depth,
                cursor,
                count,
            });
        };
        cursor = after;
    }
    Err(exceeded(cursor, count, start))
}

// Further ampersands and the name after them.
pub fn parse_address(
    row: &Row<'_>,
    cursor: TokenId,
    count: u32,
    start: TokenId,
) -> ParseResult<Read<Address>>
    requires { (length row.now.kinds.now ≤ Limits.Tokens) ×
        (cursor.0 ≤ length row.now.kinds.now) }
    ensures { Quiet addressed (addressing start.0) row.now.kinds.now cursor.0 count
        result × Near result }
{
    let Read {
        value: depth,
        cursor,
        count,
    } = parse_ampersands(row, cursor, count, start)?;
    let name = cursor;
    let cursor = row.consume(cursor, count, BaseToken::Identifier)?;
    Ok(Read {
        value: Address { depth, name },
        cursor,
        count,
    })
}

// The nodes of a reference, after the end of its steps.
fn push_reference(
    node_words: &mut [u32],
    cursor: TokenId,
    count: u32,
    reference: Reference,
    steps: NodeId,
) -> Parsed
    requires { WithinSlots node_words.old count × (steps.0 ≤ Limits.Load) }
    ensures { Gives
        (deref words reference.start.0 reference.address.depth reference.address.name.0 steps.0)
        cursor.0 (nodes node_words.old count) result node_words.new }
{
    let Reference { start, address } = reference;
    let Read { cursor, count, .. } = push_two(
        node_words,
        cursor,
        count,
        Node(ParseNode::List, steps.0),
        Node(ParseNode::Identifier, address.name.0),
    )?;
    push_two(
        node_words,
        cursor,
        count,
        Node(ParseNode::DerefAddressDepth, address.depth),
        Node(ParseNode::Deref, start.0),
    )
}

// The end of a reference's steps, and its nodes.
pub fn push_deref(
    node_words: &mut [u32],
    cursor: TokenId,
    count: u32,
    list: ActiveList,
    reference: Reference,
) -> Parsed
    requires { WithinSlots node_words.old count × (past list ≤ count) }
    ensures { Gives
        (deref_end (ends list) reference.start.0 reference.address.depth reference.address.name.0)
        cursor.0 (nodes node_words.old count) result node_words.new }
{
    let Read {
        value: steps,
        cursor,
        count,
    } = push_end_of_list(node_words, cursor, count, list)?;
    push_reference(node_words, cursor, count, reference, steps)
}

// A name with no step.
pub fn push_name(node_words: &mut [u32], cursor: TokenId, count: u32, name: TokenId) -> Parsed
    requires { WithinSlots node_words.old count × (name.0 ≤ Limits.Load) }
    ensures { Gives (name_alone words name.0) cursor.0 (nodes node_words.old count)
        result node_words.new }
{
    let reference = Reference {
        start: name,
        address: Address { depth: 0, name },
    };
    push_deref(node_words, cursor, count, start_list(), reference)
}

// After the expression of a step in brackets: the list with this step.
pub fn finish_element(
    row: &Row<'_>,
    node_words: &mut [u32],
    cursor: TokenId,
    count: u32,
    list: ActiveList,
    index: NodeId,
) -> ParseResult<Read<ActiveList>>
    requires { (cursor.0 ≤ Limits.Tokens + 1) × WithinSlots node_words.old count ×
        (past list ≤ count) }
    ensures { Untyped stepped (elementing (ends list) index.0) row.now.kinds.now cursor.0
        (nodes node_words.old count) (one_more result) node_words.new }
{
    let Read { cursor, count, .. } = push_closed(
        row,
        node_words,
        cursor,
        count,
        BaseToken::BracketRight,
        ParseNode::DerefStepElement,
        index,
    )?;
    push_list_item(node_words, cursor, count, list)
}

// A step `.name`, whose dot is taken: the list with this step.
pub fn parse_member(
    row: &Row<'_>,
    node_words: &mut [u32],
    cursor: TokenId,
    count: u32,
    list: ActiveList,
) -> ParseResult<Read<ActiveList>>
    requires { (cursor.0 ≤ Limits.Tokens + 1) × WithinSlots node_words.old count ×
        (past list ≤ count) }
    ensures { Untyped stepped (membering (ends list)) row.now.kinds.now cursor.0
        (nodes node_words.old count) (one_more result) node_words.new }
{
    let name = cursor;
    let cursor = row.consume(cursor, count, BaseToken::Identifier)?;
    let step = Node(ParseNode::DerefStepMember, name.0);
    let Read { cursor, count, .. } = push(node_words, cursor, count, step)?;
    push_list_item(node_words, cursor, count, list)
}
