// Lists with commas: arguments, fields and elements, after parse_rest_of_arguments, parse_rest_of_structural and the
// brackets of parse_primary_expression in the Rust's parser.rs.
#![tactic(auto)]

ghost use Rattle.std.specs.Prelude.{◌≡◌, ◌+◌, ◌≤◌};
ghost use Rattle.rules.specs.Codes.Limit as Limits;
ghost use Rattle.rules.specs.Words.{words};
ghost use Rattle.rules.specs.Expressions.{structural, closing_of, owned, list_end};
ghost use Rattle.codes.specs.Words.{Gives, Untyped, Quiet, nodes};
ghost use Rattle.nodes.specs.Answer.{WithinSlots, ends, past};
ghost use Rattle.lists.specs.Answer.{Small, owner_of, counted, turned, closing_with, separating, ending, field_end, shorthand_end, linking};

use codes::{BaseToken, Node, NodeId, ParseNode, ParseResult, Parsed, Read, TokenId};
use nodes::{ActiveList, Turn, push, push_end_of_list, push_list, push_list_item, push_two};
use references::push_name;
use tokens::Row;

// What a list of expressions belongs to: a call of a name or of a Builtin, or an array. `builtin` is the load of the
// call's node: 0 for a name, 1 for a Builtin. It is a number, and no flag, since finish_list takes any that fits a
// load. That it fits is in the contracts, since closing_of takes any.
#[derive(Clone, Copy)]
pub enum Owner {
    Call { name: TokenId, builtin: u32 },
    Elements,
}

// A list whose end is yet to come, and the number of its items. Both are bounded by the node count, which is a
// parameter, so that the bounds are in the contracts.
#[derive(Clone, Copy)]
pub struct CountedList {
    pub list: ActiveList,
    pub items: u32,
}

// The token that closes a list of expressions.
pub fn closing_of(owner: Owner) -> u8
    ensures { result ≡ closing_of (owner_of owner) }
{
    match owner {
        Owner::Call { .. } => BaseToken::ParenRight,
        Owner::Elements => BaseToken::BracketRight,
    }
}

// The token that closes the list.
fn close_list(
    row: &Row<'_>,
    cursor: TokenId,
    count: u32,
    list: CountedList,
    closing: u8,
) -> ParseResult<Read<Turn<CountedList>>>
    requires { cursor.0 ≤ Limits.Tokens + 1 }
    ensures { Quiet turned (closing_with closing (counted list)) row.now.kinds.now cursor.0
        count result }
{
    let cursor = row.consume(cursor, count, closing)?;
    Ok(Read {
        value: Turn::Last(list),
        cursor,
        count,
    })
}

// After an item: a comma, or the closing token. Two kinds of that are written out, so that the refusal of each is known
// when this is compiled, and not looked up: a call of many arguments takes 4 in 100 instructions less.
fn parse_separator(
    row: &Row<'_>,
    cursor: TokenId,
    count: u32,
    list: CountedList,
    closing: u8,
) -> ParseResult<Read<Turn<CountedList>>>
    requires { cursor.0 ≤ Limits.Tokens + 1 }
    ensures { Quiet turned (separating closing (counted list)) row.now.kinds.now cursor.0
        count result }
{
    if let Some(cursor) = row.consume_optional(cursor, BaseToken::Comma) {
        return Ok(Read {
            value: Turn::More(list),
            cursor,
            count,
        });
    }
    match closing {
        BaseToken::ParenRight => close_list(row, cursor, count, list, BaseToken::ParenRight),
        BaseToken::BracketRight => close_list(row, cursor, count, list, BaseToken::BracketRight),
        _ => close_list(row, cursor, count, list, closing),
    }
}

// What was appended last becomes the list's item; a comma or the closing token follows.
pub fn finish_item(
    row: &Row<'_>,
    node_words: &mut [u32],
    cursor: TokenId,
    count: u32,
    list: CountedList,
    closing: u8,
    content: NodeId,
) -> ParseResult<Read<Turn<CountedList>>>
    requires { (cursor.0 ≤ Limits.Tokens + 1) × WithinSlots node_words.old count ×
        (past list.list ≤ count) × (list.items ≤ count) }
    ensures { Untyped turned (ending closing (counted list) content.0) row.now.kinds.now cursor.0
        (nodes node_words.old count) result node_words.new }
{
    let Read {
        value: grown,
        cursor,
        count,
    } = push_list_item(node_words, cursor, count, list.list)?;
    let list = CountedList {
        list: grown,
        items: list.items + 1,
    };
    parse_separator(row, cursor, count, list, closing)
}

// After the expression of the field at `name`.
pub fn finish_field(
    row: &Row<'_>,
    node_words: &mut [u32],
    cursor: TokenId,
    count: u32,
    list: CountedList,
    name: TokenId,
    expression: NodeId,
) -> ParseResult<Read<Turn<CountedList>>>
    requires { (cursor.0 ≤ Limits.Tokens + 1) × WithinSlots node_words.old count ×
        (past list.list ≤ count) × (list.items ≤ count) × (name.0 ≤ Limits.Load) }
    ensures { Untyped turned (field_end (counted list) name.0 expression.0) row.now.kinds.now
        cursor.0 (nodes node_words.old count) result node_words.new }
{
    let field = Node(ParseNode::IdentifierAndExpression, name.0);
    let Read {
        value: content,
        cursor,
        count,
    } = push(node_words, cursor, count, field)?;
    finish_item(
        row,
        node_words,
        cursor,
        count,
        list,
        BaseToken::BraceRight,
        content,
    )
}

// The field at `name` without a colon, which stands for `name: name`.
pub fn finish_shorthand(
    row: &Row<'_>,
    node_words: &mut [u32],
    cursor: TokenId,
    count: u32,
    list: CountedList,
    name: TokenId,
) -> ParseResult<Read<Turn<CountedList>>>
    requires { (cursor.0 ≤ Limits.Tokens + 1) × WithinSlots node_words.old count ×
        (past list.list ≤ count) × (list.items ≤ count) × (name.0 ≤ Limits.Load) }
    ensures { Untyped turned (shorthand_end (counted list) name.0) row.now.kinds.now cursor.0
        (nodes node_words.old count) result node_words.new }
{
    let Read {
        value: expression,
        cursor,
        count,
    } = push_name(node_words, cursor, count, name)?;
    finish_field(row, node_words, cursor, count, list, name, expression)
}

// The nodes of what a list of expressions belongs to, after the link to it.
fn push_owner(
    node_words: &mut [u32],
    cursor: TokenId,
    count: u32,
    owner: Owner,
    items: u32,
    list: NodeId,
) -> Parsed
    requires { WithinSlots node_words.old count × Small owner × (items ≤ Limits.Load) }
    ensures { Gives (owned words (owner_of owner) items list.0) cursor.0
        (nodes node_words.old count) result node_words.new }
{
    match owner {
        Owner::Call { name, builtin } => push_two(
            node_words,
            cursor,
            count,
            Node(ParseNode::Identifier, name.0),
            Node(ParseNode::FunctionCall, builtin),
        ),
        Owner::Elements => push(
            node_words,
            cursor,
            count,
            Node(ParseNode::ArrayLiteral, items),
        ),
    }
}

// The end of a list, and the link to it.
fn link_list(node_words: &mut [u32], cursor: TokenId, count: u32, list: ActiveList) -> Parsed
    requires { WithinSlots node_words.old count × (past list ≤ count) }
    ensures { Gives (linking (ends list)) cursor.0 (nodes node_words.old count) result
        node_words.new }
{
    let Read {
        value: first,
        cursor,
        count,
    } = push_end_of_list(node_words, cursor, count, list)?;
    push_list(node_words, cursor, count, first)
}

// The end of a list of expressions, and the nodes of what it belongs to.
pub fn finish_list(
    node_words: &mut [u32],
    cursor: TokenId,
    count: u32,
    list: CountedList,
    owner: Owner,
) -> Parsed
    requires { WithinSlots node_words.old count × (past list.list ≤ count) ×
        Small owner × (list.items ≤ Limits.Load) }
    ensures { Gives (list_end words (owner_of owner) (counted list)) cursor.0
        (nodes node_words.old count) result node_words.new }
{
    let Read {
        value: link,
        cursor,
        count,
    } = link_list(node_words, cursor, count, list.list)?;
    push_owner(node_words, cursor, count, owner, list.items, link)
}

// The end of the fields of the struct or word at `name`, and its node, which does not hold their number.
pub fn finish_fields(
    node_words: &mut [u32],
    cursor: TokenId,
    count: u32,
    list: CountedList,
    name: TokenId,
) -> Parsed
    requires { WithinSlots node_words.old count × (past list.list ≤ count) ×
        (name.0 ≤ Limits.Load) }
    ensures { Gives (list_end words (structural name.0) (counted list)) cursor.0
        (nodes node_words.old count) result node_words.new }
{
    let Read { cursor, count, .. } = link_list(node_words, cursor, count, list.list)?;
    push(
        node_words,
        cursor,
        count,
        Node(ParseNode::Structural, name.0),
    )
}
