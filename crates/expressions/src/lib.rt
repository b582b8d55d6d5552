// Expressions and references, after parse_expression to parse_deref_steps_list of the Rust's parser.rs: the readers that
// call each other. Most have short forms of the Rust's names, since a reader's name begins the name of each of its goals.
// In each, `unused` is the nesting (document 01's term) that is left for what is inside.
#![tactic(auto)]

ghost use Rattle.std.specs.Prelude.{◌≡◌, ◌+◌, ◌≤◌, length, eqb, false};
ghost use Rattle.rules.specs.Codes.Limit as Limits;
ghost use Rattle.rules.specs.Codes.BaseToken as Token;
ghost use Rattle.rules.specs.Words.{words};
ghost use Rattle.rules.specs.Expressions.{structural, expression};
ghost use Rattle.codes.specs.Answer.{parsed, row as row_of};
ghost use Rattle.codes.specs.Words.{As, Gives, Untyped, Sized, nodes};
ghost use Rattle.nodes.specs.Answer.{WithinSlots, ends, past};
ghost use Rattle.references.specs.Answer.{stepped};
ghost use Rattle.lists.specs.Answer.{owner_of, counted, turned, Small};
ghost use Rattle.openings.specs.Answer.{primary_or, listed, referred, grouped};
ghost use Rattle.expressions.specs.Answer.{prefix_end, unary_end, sums, operand, factors, unaries, within, advancing, dereferring, list_items, fields, stepping};

use casts::{finish_singular, optional_cast, parse_size_of};
use codes::{
    BaseToken, BinaryOp, Limit, Node, NodeId, ParseNode, ParseResult, Parsed, ParsingError, Read,
    Refusal, TokenId, UnaryOp,
};
use lists::{
    CountedList, Owner, closing_of, finish_field, finish_fields, finish_item, finish_list,
    finish_shorthand,
};
use literals::{lone_integer, parse_literal};
use nodes::{ActiveList, Turn, push, start_list};
use openings::{Opening, parse_opening};
use operators::{
    Joint, Pending, join_factor, join_term, no_pending, push_binary, push_prefix, takes_unary,
};
use references::{
    Address, Reference, exceeded, finish_element, parse_member, push_closed, push_deref, push_name,
};
use tokens::Row;

// The place of the operand after a `!`, `-` or `|`, if the token here is one. The three arms stay apart: joined they are
// a table of jumps, and a sum takes 4 in 100 instructions more.
fn after_prefix(cursor: TokenId, token: u8) -> TokenId
    requires { cursor.0 ≤ Limits.Tokens }
    ensures { result.0 ≡ prefix_end token cursor.0 }
{
    let next = TokenId(cursor.0 + 1);
    match token {
        BaseToken::Pipe => next,
        BaseToken::Exclamation => next,
        BaseToken::Minus => next,
        _ => cursor,
    }
}

// After the operand of a unary: the nodes of the `!` or `-` at `at`, or the closing `|` and its node, by the token there.
fn finish_unary(
    row: &Row<'_>,
    node_words: &mut [u32],
    cursor: TokenId,
    count: u32,
    operand: NodeId,
    token: u8,
    at: TokenId,
) -> Parsed
    requires { (cursor.0 ≤ Limits.Tokens + 1) × WithinSlots node_words.old count ×
        (at.0 ≤ Limits.Load) }
    ensures { Untyped parsed (unary_end token at.0 operand.0) row.now.kinds.now cursor.0
        (nodes node_words.old count) result node_words.new }
{
    match token {
        BaseToken::Pipe => push_closed(
            row,
            node_words,
            cursor,
            count,
            BaseToken::Pipe,
            ParseNode::LengthOf,
            operand,
        ),
        BaseToken::Exclamation => {
            push_prefix(
                node_words,
                cursor,
                count,
                UnaryOp::BitwiseComplement,
                at,
                operand,
            )
        }
        BaseToken::Minus => push_prefix(node_words, cursor, count, UnaryOp::Negative, at, operand),
        _ => Ok(Read {
            value: operand,
            cursor,
            count,
        }),
    }
}

// An expression, one level further in. A number with nothing after it is read here: it is the usual argument, and needs
// none of the readers below.
#[cycle(expression)]
pub fn parse_expression(
    row: &Row<'_>,
    node_words: &mut [u32],
    cursor: TokenId,
    count: u32,
    unused: u32,
) -> Parsed
    requires { Sized row.now.kinds.now row.now.types.now node_words.old cursor.0 count }
    ensures { Gives (expression words (row_of row.now.kinds.now row.now.types.now) unused) cursor.0
        (nodes node_words.old count) result node_words.new }
{
    if unused == 0 {
        return Err(ParsingError {
            number: Refusal::NestingExceeded,
            start: cursor,
            end: cursor,
            cursor,
            count,
        });
    }
    if lone_integer(row, cursor) {
        let after = TokenId(cursor.0 + 1);
        return push(
            node_words,
            after,
            count,
            Node(ParseNode::UntypedIntegerLiteral, cursor.0),
        );
    }
    addition(row, node_words, cursor, count, unused - 1)
}

// Rust: parse_addition. Products joined by `+` or `-`, and what may follow them. The Rust reads on after a bitwise
// operator or a shift in parse_rest_of_bitwise_expression and parse_rest_of_bitshift_operation; here the pending operator
// says so. This loop and that of multiplication are two, since they differ in what reads an operand and in which
// operators go on: one function would take both as closures, within a cycle.
#[cycle(expression)]
fn addition(
    row: &Row<'_>,
    node_words: &mut [u32],
    mut cursor: TokenId,
    mut count: u32,
    unused: u32,
) -> Parsed
    requires { Sized row.now.kinds.now row.now.types.now node_words.old cursor.0 count }
    ensures { Gives (sums unused (row_of row.now.kinds.now row.now.types.now)) cursor.0
        (nodes node_words.old count) result node_words.new }
{
    let mut pending = no_pending();
    loop {
        let bare = takes_unary(pending);
        let right = multiplication(row, node_words, cursor, count, unused, bare)?;
        match join_term(
            row,
            node_words,
            right.cursor,
            right.count,
            right.value,
            pending,
        ) {
            Joint::More(more) => {
                pending = more.value;
                cursor = more.cursor;
                count = more.count;
            }
            Joint::Last(sum) => return Ok(sum),
            Joint::Refused(error) => return Err(error),
        }
    }
}

// Rust: parse_multiplication. Singulars joined by `*`, `/` or `%`; or, if bare, a unary only.
#[cycle(expression)]
fn multiplication(
    row: &Row<'_>,
    node_words: &mut [u32],
    mut cursor: TokenId,
    mut count: u32,
    unused: u32,
    bare: bool,
) -> Parsed
    requires { Sized row.now.kinds.now row.now.types.now node_words.old cursor.0 count }
    ensures { Gives (operand bare unused (row_of row.now.kinds.now row.now.types.now)) cursor.0
        (nodes node_words.old count) result node_words.new }
{
    let mut pending = no_pending();
    loop {
        let right = singular(row, node_words, cursor, count, unused, bare)?;
        if bare {
            return Ok(right);
        }
        match join_factor(
            row,
            node_words,
            right.cursor,
            right.count,
            right.value,
            pending,
        ) {
            Joint::More(more) => {
                pending = more.value;
                cursor = more.cursor;
                count = more.count;
            }
            Joint::Last(product) => return Ok(product),
            Joint::Refused(error) => return Err(error),
        }
    }
}

// Rust: parse_singular_expression. A unary, with `cast` before and `as` after it; or, if bare, a unary only.
#[cycle(expression)]
fn singular(
    row: &Row<'_>,
    node_words: &mut [u32],
    cursor: TokenId,
    count: u32,
    unused: u32,
    bare: bool,
) -> Parsed
    requires { Sized row.now.kinds.now row.now.types.now node_words.old cursor.0 count }
    ensures { Gives (factors bare unused (row_of row.now.kinds.now row.now.types.now)) cursor.0
        (nodes node_words.old count) result node_words.new }
{
    let start = cursor;
    let after_cast = optional_cast(row, start, bare);
    let inside = after_cast.unwrap_or(start);
    let operand = unary(row, node_words, inside, count, unused);
    if bare {
        return operand;
    }
    let Read {
        value,
        cursor,
        count,
    } = operand?;
    let cast = after_cast.and(Some(start));
    finish_singular(row, node_words, cursor, count, unused, value, cast)
}

// Rust: parse_unary_expression. A size, a length, or a primary with `!` or `-` before it. A decimal number is the usual
// operand, and is read without the search for what opens a primary.
#[cycle(expression)]
fn unary(row: &Row<'_>, node_words: &mut [u32], cursor: TokenId, count: u32, unused: u32) -> Parsed
    requires { Sized row.now.kinds.now row.now.types.now node_words.old cursor.0 count }
    ensures { Gives (unaries unused (row_of row.now.kinds.now row.now.types.now)) cursor.0
        (nodes node_words.old count) result node_words.new }
{
    let start = cursor;
    let token = row.peek(start);
    if token == BaseToken::PipeForType {
        return parse_size_of(row, node_words, cursor, count, unused);
    }
    let from = after_prefix(start, token);
    if token == BaseToken::NakedDecimal {
        return parse_literal(row, node_words, cursor, count, token);
    }
    let piped = token == BaseToken::Pipe;
    let operand = primary(row, node_words, from, count, unused, piped);
    if from.0 == start.0 {
        return operand;
    }
    let Read {
        value,
        cursor,
        count,
    } = operand?;
    finish_unary(row, node_words, cursor, count, value, token, start)
}

// Rust: parse_primary_expression. A primary; or, after a pipe, a reference.
#[cycle(expression)]
fn primary(
    row: &Row<'_>,
    node_words: &mut [u32],
    cursor: TokenId,
    count: u32,
    unused: u32,
    piped: bool,
) -> Parsed
    requires { Sized row.now.kinds.now row.now.types.now node_words.old cursor.0 count }
    ensures { Gives (within (primary_or piped) unused (row_of row.now.kinds.now row.now.types.now))
        cursor.0 (nodes node_words.old count) result node_words.new }
{
    let start = cursor;
    match parse_opening(row, cursor, count, piped) {
        Opening::List(cursor, count, owner) => rest_of_list(
            row, node_words, cursor, count, unused, owner,
        ),
        Opening::Fields(cursor, count, name) => rest_of_fields(
            row, node_words, cursor, count, unused, name,
        ),
        Opening::Reference(cursor, count, pointer, depth, name) => {
            let named = Reference {
                start,
                address: Address { depth, name },
            };
            reference(row, node_words, cursor, count, unused, named, pointer)
        }
        Opening::Name(cursor, count) => push_name(node_words, cursor, count, start),
        Opening::Group(cursor, count) => group(row, node_words, cursor, count, unused),
        Opening::Literal(token) => parse_literal(row, node_words, cursor, count, token),
        Opening::Refused(error) => Err(error),
    }
}

// An expression in parentheses, of which the left one is taken.
#[cycle(expression)]
fn group(row: &Row<'_>, node_words: &mut [u32], cursor: TokenId, count: u32, unused: u32) -> Parsed
    requires { Sized row.now.kinds.now row.now.types.now node_words.old cursor.0 count }
    ensures { Gives (within grouped unused (row_of row.now.kinds.now row.now.types.now)) cursor.0
        (nodes node_words.old count) result node_words.new }
{
    let Read {
        value: inner,
        cursor,
        count,
    } = parse_expression(row, node_words, cursor, count, unused)?;
    push_closed(
        row,
        node_words,
        cursor,
        count,
        BaseToken::ParenRight,
        ParseNode::Parenthesized,
        inner,
    )
}

// Rust: parse_reference. A name, which is taken, and its steps; after a pointer, `..` and an expression may follow.
#[cycle(expression)]
fn reference(
    row: &Row<'_>,
    node_words: &mut [u32],
    cursor: TokenId,
    count: u32,
    unused: u32,
    reference: Reference,
    pointer: bool,
) -> Parsed
    requires { Sized row.now.kinds.now row.now.types.now node_words.old cursor.0 count }
    ensures { Gives (within
        (referred reference.start.0 reference.address.depth reference.address.name.0 pointer)
        unused (row_of row.now.kinds.now row.now.types.now)) cursor.0
        (nodes node_words.old count) result node_words.new }
{
    let named = deref_steps(row, node_words, cursor, count, unused, reference)?;
    if pointer {
        advance(
            row,
            node_words,
            named.cursor,
            named.count,
            unused,
            named.value,
        )
    } else {
        Ok(named)
    }
}

// `..` and an expression, if they follow. The Rust has this at the end of parse_primary_expression.
#[cycle(expression)]
fn advance(
    row: &Row<'_>,
    node_words: &mut [u32],
    cursor: TokenId,
    count: u32,
    unused: u32,
    left: NodeId,
) -> Parsed
    requires { Sized row.now.kinds.now row.now.types.now node_words.old cursor.0 count ×
        (left.0 ≤ Limits.Load) }
    ensures { Gives (within (advancing left.0) unused (row_of row.now.kinds.now row.now.types.now))
        cursor.0 (nodes node_words.old count) result node_words.new }
{
    let at = cursor;
    let Some(cursor) = row.consume_optional(cursor, BaseToken::Dots) else {
        return Ok(Read {
            value: left,
            cursor,
            count,
        });
    };
    let offset = parse_expression(row, node_words, cursor, count, unused)?;
    let pending = Pending {
        op: BinaryOp::AdvancePointer,
        left,
        at,
    };
    push_binary(
        node_words,
        offset.cursor,
        offset.count,
        pending,
        offset.value,
    )
}

// Arguments or elements, whose opening token is taken. The Rust has a loop for each, in parse_rest_of_arguments and
// parse_primary_expression. Fields have a loop of their own, below: one loop for all three would ask at each turn
// whether its item is a field.
#[cycle(expression)]
fn rest_of_list(
    row: &Row<'_>,
    node_words: &mut [u32],
    mut cursor: TokenId,
    mut count: u32,
    unused: u32,
    owner: Owner,
) -> Parsed
    requires { Sized row.now.kinds.now row.now.types.now node_words.old cursor.0 count ×
        Small owner }
    ensures { Gives (within (listed (owner_of owner)) unused (row_of row.now.kinds.now row.now.types.now))
        cursor.0 (nodes node_words.old count) result node_words.new }
{
    let closing = closing_of(owner);
    let mut list = CountedList {
        list: start_list(),
        items: 0,
    };
    loop {
        let turn = item(row, node_words, cursor, count, unused, list, closing)?;
        cursor = turn.cursor;
        count = turn.count;
        match turn.value {
            Turn::More(longer) => list = longer,
            Turn::Last(whole) => return finish_list(node_words, cursor, count, whole, owner),
        }
    }
}

// An expression with a comma or the closing token after it, or the closing token.
#[cycle(expression)]
fn item(
    row: &Row<'_>,
    node_words: &mut [u32],
    cursor: TokenId,
    count: u32,
    unused: u32,
    list: CountedList,
    closing: u8,
) -> ParseResult<Read<Turn<CountedList>>>
    requires { Sized row.now.kinds.now row.now.types.now node_words.old cursor.0 count ×
        (past list.list ≤ count) × (list.items ≤ count) ×
        (eqb closing Token.BraceRight ≡ false) }
    ensures { As turned
        (list_items closing (counted list) unused
        (row_of row.now.kinds.now row.now.types.now))
        cursor.0 (nodes node_words.old count) result node_words.new }
{
    if let Some(cursor) = row.consume_optional(cursor, closing) {
        return Ok(Read {
            value: Turn::Last(list),
            cursor,
            count,
        });
    }
    let item = parse_expression(row, node_words, cursor, count, unused)?;
    finish_item(
        row,
        node_words,
        item.cursor,
        item.count,
        list,
        closing,
        item.value,
    )
}

// The fields of the struct or word at `name`, whose opening brace is taken. Rust: parse_rest_of_structural.
#[cycle(expression)]
fn rest_of_fields(
    row: &Row<'_>,
    node_words: &mut [u32],
    mut cursor: TokenId,
    mut count: u32,
    unused: u32,
    name: TokenId,
) -> Parsed
    requires { Sized row.now.kinds.now row.now.types.now node_words.old cursor.0 count ×
        (name.0 ≤ Limits.Load) }
    ensures { Gives (within (listed (structural name.0)) unused
        (row_of row.now.kinds.now row.now.types.now))
        cursor.0 (nodes node_words.old count) result node_words.new }
{
    let mut list = CountedList {
        list: start_list(),
        items: 0,
    };
    loop {
        let turn = next_field(row, node_words, cursor, count, unused, list)?;
        cursor = turn.cursor;
        count = turn.count;
        match turn.value {
            Turn::More(longer) => list = longer,
            Turn::Last(whole) => return finish_fields(node_words, cursor, count, whole, name),
        }
    }
}

// A field with a comma or the closing brace after it, or the closing brace.
#[cycle(expression)]
fn next_field(
    row: &Row<'_>,
    node_words: &mut [u32],
    cursor: TokenId,
    count: u32,
    unused: u32,
    list: CountedList,
) -> ParseResult<Read<Turn<CountedList>>>
    requires { Sized row.now.kinds.now row.now.types.now node_words.old cursor.0 count ×
        (past list.list ≤ count) × (list.items ≤ count) }
    ensures { As turned
        (list_items Token.BraceRight (counted list) unused
        (row_of row.now.kinds.now row.now.types.now))
        cursor.0 (nodes node_words.old count) result node_words.new }
{
    if let Some(cursor) = row.consume_optional(cursor, BaseToken::BraceRight) {
        return Ok(Read {
            value: Turn::Last(list),
            cursor,
            count,
        });
    }
    field(row, node_words, cursor, count, unused, list)
}

// A field: a name, and a colon with an expression or nothing; and what stands after it.
#[cycle(expression)]
fn field(
    row: &Row<'_>,
    node_words: &mut [u32],
    cursor: TokenId,
    count: u32,
    unused: u32,
    list: CountedList,
) -> ParseResult<Read<Turn<CountedList>>>
    requires { Sized row.now.kinds.now row.now.types.now node_words.old cursor.0 count ×
        (past list.list ≤ count) × (list.items ≤ count) }
    ensures { As turned
        (fields (counted list) unused (row_of row.now.kinds.now row.now.types.now))
        cursor.0 (nodes node_words.old count) result node_words.new }
{
    let name = cursor;
    let cursor = row.consume(cursor, count, BaseToken::Identifier)?;
    let Some(cursor) = row.consume_optional(cursor, BaseToken::Colon) else {
        return finish_shorthand(row, node_words, cursor, count, list, name);
    };
    let value = parse_expression(row, node_words, cursor, count, unused)?;
    finish_field(
        row,
        node_words,
        value.cursor,
        value.count,
        list,
        name,
        value.value,
    )
}

// Rust: parse_deref_steps_list. A reference whose name is taken: its steps and its nodes.
#[cycle(expression)]
fn deref_steps(
    row: &Row<'_>,
    node_words: &mut [u32],
    mut cursor: TokenId,
    mut count: u32,
    unused: u32,
    reference: Reference,
) -> Parsed
    requires { Sized row.now.kinds.now row.now.types.now node_words.old cursor.0 count }
    ensures { Gives (within
        (dereferring reference.start.0 reference.address.depth reference.address.name.0)
        unused (row_of row.now.kinds.now row.now.types.now)) cursor.0
        (nodes node_words.old count) result node_words.new }
{
    let start = cursor;
    let mut list = start_list();
    for _ in 0..Limit::ReferenceDepth {
        let turn = step(row, node_words, cursor, count, unused, list)?;
        cursor = turn.cursor;
        count = turn.count;
        match turn.value {
            Turn::More(longer) => list = longer,
            Turn::Last(whole) => return push_deref(node_words, cursor, count, whole, reference),
        }
    }
    Err(exceeded(cursor, count, start))
}

// A step `[expression]` or `.name`, if one follows.
#[cycle(expression)]
fn step(
    row: &Row<'_>,
    node_words: &mut [u32],
    cursor: TokenId,
    count: u32,
    unused: u32,
    list: ActiveList,
) -> ParseResult<Read<Turn<ActiveList>>>
    requires { Sized row.now.kinds.now row.now.types.now node_words.old cursor.0 count ×
        (past list ≤ count) }
    ensures { As stepped (stepping (ends list) unused (row_of row.now.kinds.now row.now.types.now))
        cursor.0 (nodes node_words.old count) result node_words.new }
{
    let after = TokenId(cursor.0 + 1);
    let longer = match row.peek(cursor) {
        BaseToken::BracketLeft => {
            let index = parse_expression(row, node_words, after, count, unused)?;
            finish_element(
                row,
                node_words,
                index.cursor,
                index.count,
                list,
                index.value,
            )?
        }
        BaseToken::Dot => parse_member(row, node_words, after, count, list)?,
        _ => {
            return Ok(Read {
                value: Turn::Last(list),
                cursor,
                count,
            });
        }
    };
    Ok(Read {
        value: Turn::More(longer.value),
        cursor: longer.cursor,
        count: longer.count,
    })
}
