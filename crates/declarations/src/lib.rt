// Constants, structs and words, after parse_constant_declaration to parse_struct_members and parse_member of the Rust's
// parser.rs. The caller has taken the declaring token. In each, `unused` is the nesting (document 01's term) that is
// left for the types and expressions inside.
#![tactic(auto)]

ghost use Rattle.std.specs.Prelude.{◌≡◌, ◌+◌, ◌≤◌};
ghost use Rattle.rules.specs.Codes.Limit as Limits;
ghost use Rattle.rules.specs.Words.{words};
ghost use Rattle.rules.specs.Declarations.{opaque, size_of_word, structure, constant_end, typed, value, member, member_item, member_list, members, constant, struct, word};
ghost use Rattle.codes.specs.Answer.{row as row_of};
ghost use Rattle.codes.specs.Words.{As, Gives, Quiet, Untyped, Sized, nodes};
ghost use Rattle.nodes.specs.Answer.{WithinSlots, ends, past};
ghost use Rattle.tokens.specs.Answer.{consumed};
ghost use Rattle.references.specs.Answer.{stepped};
ghost use Rattle.declarations.specs.Answer.{coloned, named, member_typed, declaring, structured, opaque_struct, valued, member_ending};

use codes::{
    BaseToken, DeclarationFlag, Node, NodeId, ParseNode, ParseResult, Parsed, ParsingError, Read,
    Refusal, TokenId,
};
use expressions::parse_expression;
use nodes::{
    ActiveList, Turn, push, push_end_of_list, push_list_item, push_older_node, push_two, start_list,
};
use tokens::Row;
use types::{parse_type, short_type};

// Where a declaration starts, and its flags. Each is a node's load.
#[derive(Clone, Copy)]
pub struct Declaration {
    pub start: TokenId,
    pub flags: u32,
    pub ghost start_in: { start.0 ≤ Limits.Load },
    pub ghost flags_in: { flags ≤ Limits.Load },
}

// A declaration and its name, which is a node's load, too.
#[derive(Clone, Copy)]
struct Heading {
    declaration: Declaration,
    name: TokenId,
    ghost name_in: { name.0 ≤ Limits.Load },
}

// A colon; or the refusal of this number at the token in its place, which is not taken.
// It is no ok_or, by which a struct of many members takes 3 in 100 instructions more.
fn parse_colon(row: &Row<'_>, cursor: TokenId, count: u32, number: u32) -> ParseResult<TokenId>
    requires { cursor.0 ≤ Limits.Tokens + 1 }
    ensures { Quiet consumed (coloned number) row.now.kinds.now cursor.0 count result }
{
    let Some(cursor) = row.consume_optional(cursor, BaseToken::Colon) else {
        return Err(ParsingError {
            number,
            start: cursor,
            end: cursor,
            cursor,
            count,
        });
    };
    Ok(cursor)
}

// A name and a colon. Where the colon is missing, the refusal has this number.
fn parse_name(row: &Row<'_>, cursor: TokenId, count: u32, number: u32) -> ParseResult<TokenId>
    requires { cursor.0 ≤ Limits.Tokens }
    ensures { Quiet consumed (named number) row.now.kinds.now cursor.0 count result }
{
    let cursor = row.consume(cursor, count, BaseToken::Identifier)?;
    parse_colon(row, cursor, count, number)
}

// A name, a colon and a type: the type's node. Where the colon is missing, the refusal has this number.
fn parse_typed_name(
    row: &Row<'_>,
    node_words: &mut [u32],
    cursor: TokenId,
    count: u32,
    unused: u32,
    number: u32,
) -> Parsed
    requires { Sized row.now.kinds.now row.now.types.now node_words.old cursor.0 count
        × (1 ≤ number) }
    ensures { Gives (typed words (row_of row.now.kinds.now row.now.types.now) number unused)
        cursor.0 (nodes node_words.old count) result node_words.new }
{
    let cursor = parse_name(row, cursor, count, number)?;
    parse_type(row, node_words, cursor, count, unused)
}

// The type of the member at `name`, and the member's node. A type of a single token is read here: parse_type is not
// compiled into its callers, and a call for each member costs as much as all else of it.
fn parse_member_type(
    row: &Row<'_>,
    node_words: &mut [u32],
    cursor: TokenId,
    count: u32,
    unused: u32,
    name: TokenId,
) -> Parsed
    requires { Sized row.now.kinds.now row.now.types.now node_words.old cursor.0 count
        × (name.0 ≤ Limits.Load) }
    ensures { Gives (member_typed unused name.0 (row_of row.now.kinds.now row.now.types.now))
        cursor.0 (nodes node_words.old count) result node_words.new }
{
    let member = Node(ParseNode::IdentifierAndType, name.0);
    if let Some(value_type) = short_type(row, cursor)
        && unused > 0
    {
        let next = TokenId(cursor.0 + 1);
        return push_two(node_words, next, count, value_type, member);
    }
    let Read { cursor, count, .. } = parse_type(row, node_words, cursor, count, unused)?;
    push(node_words, cursor, count, member)
}

// A member: a name, a colon and a type.
fn parse_member(
    row: &Row<'_>,
    node_words: &mut [u32],
    cursor: TokenId,
    count: u32,
    unused: u32,
) -> Parsed
    requires { Sized row.now.kinds.now row.now.types.now node_words.old cursor.0 count }
    ensures { Gives (member words (row_of row.now.kinds.now row.now.types.now) unused)
        cursor.0 (nodes node_words.old count) result node_words.new }
{
    let name = cursor;
    let cursor = parse_name(row, cursor, count, Refusal::MissingMemberType)?;
    parse_member_type(row, node_words, cursor, count, unused, name)
}

// After a member: a comma, or the brace that closes the list; and then the member becomes an item of the list. It was
// appended last, so that only the contract names it.
fn finish_member(
    row: &Row<'_>,
    node_words: &mut [u32],
    cursor: TokenId,
    count: u32,
    list: ActiveList,
    member: NodeId,
) -> ParseResult<Read<Turn<ActiveList>>>
    requires { (cursor.0 ≤ Limits.Tokens + 1) × WithinSlots node_words.old count ×
        (past list ≤ count) }
    ensures { Untyped stepped (member_ending (ends list) member.0) row.now.kinds.now
        cursor.0 (nodes node_words.old count) result node_words.new }
{
    let next = TokenId(cursor.0 + 1);
    let token = row.peek(cursor);
    match token {
        BaseToken::Comma | BaseToken::BraceRight => {
            let Read {
                value: grown,
                cursor,
                count,
            } = push_list_item(node_words, next, count, list)?;
            if token == BaseToken::Comma {
                Ok(Read {
                    value: Turn::More(grown),
                    cursor,
                    count,
                })
            } else {
                Ok(Read {
                    value: Turn::Last(grown),
                    cursor,
                    count,
                })
            }
        }
        _ => Err(ParsingError {
            number: Refusal::ExpectedComma,
            start: cursor,
            end: cursor,
            cursor: next,
            count,
        }),
    }
}

// A member and what follows it, or the closing brace.
fn parse_member_item(
    row: &Row<'_>,
    node_words: &mut [u32],
    cursor: TokenId,
    count: u32,
    unused: u32,
    list: ActiveList,
) -> ParseResult<Read<Turn<ActiveList>>>
    requires { Sized row.now.kinds.now row.now.types.now node_words.old cursor.0 count
        × (past list ≤ count) }
    ensures { As stepped
        (member_item words (row_of row.now.kinds.now row.now.types.now) unused (ends list))
        cursor.0 (nodes node_words.old count) result node_words.new }
{
    if let Some(cursor) = row.consume_optional(cursor, BaseToken::BraceRight) {
        return Ok(Read {
            value: Turn::Last(list),
            cursor,
            count,
        });
    }
    let Read {
        value: member,
        cursor,
        count,
    } = parse_member(row, node_words, cursor, count, unused)?;
    finish_member(row, node_words, cursor, count, list, member)
}

// The members after the opening brace: their list.
fn parse_rest_of_members(
    row: &Row<'_>,
    node_words: &mut [u32],
    mut cursor: TokenId,
    mut count: u32,
    unused: u32,
) -> Parsed
    requires { Sized row.now.kinds.now row.now.types.now node_words.old cursor.0 count }
    ensures { Gives (member_list words (row_of row.now.kinds.now row.now.types.now) unused)
        cursor.0 (nodes node_words.old count) result node_words.new }
{
    let mut list = start_list();
    loop {
        let turn = parse_member_item(row, node_words, cursor, count, unused, list)?;
        cursor = turn.cursor;
        count = turn.count;
        match turn.value {
            Turn::More(longer) => list = longer,
            Turn::Last(whole) => return push_end_of_list(node_words, cursor, count, whole),
        }
    }
}

// Members in braces, with commas between them and perhaps after the last: their list.
fn parse_struct_members(
    row: &Row<'_>,
    node_words: &mut [u32],
    cursor: TokenId,
    count: u32,
    unused: u32,
) -> Parsed
    requires { Sized row.now.kinds.now row.now.types.now node_words.old cursor.0 count }
    ensures { Gives (members words (row_of row.now.kinds.now row.now.types.now) unused)
        cursor.0 (nodes node_words.old count) result node_words.new }
{
    let cursor = row.consume(cursor, count, BaseToken::BraceLeft)?;
    parse_rest_of_members(row, node_words, cursor, count, unused)
}

// The last nodes of each declaration: its name, its flags and itself.
fn push_declaration(
    node_words: &mut [u32],
    cursor: TokenId,
    count: u32,
    kind: u8,
    heading: Heading,
) -> Parsed
    requires { WithinSlots node_words.old count }
    ensures { Gives
        (declaring kind heading.declaration.start.0 heading.declaration.flags heading.name.0)
        cursor.0 (nodes node_words.old count) result node_words.new }
{
    let Heading { declaration, name } = heading;
    let Read { cursor, count, .. } = push_two(
        node_words,
        cursor,
        count,
        Node(ParseNode::Identifier, name.0),
        Node(ParseNode::DeclarationFlags, declaration.flags),
    )?;
    push(node_words, cursor, count, Node(kind, declaration.start.0))
}

// The nodes of a struct or word, after its members' list.
fn push_structure(
    node_words: &mut [u32],
    cursor: TokenId,
    count: u32,
    heading: Heading,
    size: u32,
    list: NodeId,
) -> Parsed
    requires { WithinSlots node_words.old count × (size ≤ Limits.Load) × (list.0 ≤ Limits.Load) }
    ensures { Gives (structure words heading.declaration.start.0 heading.declaration.flags size
        heading.name.0 list.0) cursor.0 (nodes node_words.old count) result
        node_words.new }
{
    let Read { cursor, count, .. } = push_two(
        node_words,
        cursor,
        count,
        Node(ParseNode::List, list.0),
        Node(ParseNode::StructuralType, size),
    )?;
    push_declaration(
        node_words,
        cursor,
        count,
        ParseNode::StructureDeclaration,
        heading,
    )
}

// Members in braces, and the nodes of what has them.
fn parse_structure(
    row: &Row<'_>,
    node_words: &mut [u32],
    cursor: TokenId,
    count: u32,
    unused: u32,
    heading: Heading,
    size: u32,
) -> Parsed
    requires { Sized row.now.kinds.now row.now.types.now node_words.old cursor.0 count
        × (size ≤ Limits.Load) }
    ensures { Gives (structured unused heading.declaration.start.0 heading.declaration.flags size
        heading.name.0 (row_of row.now.kinds.now row.now.types.now)) cursor.0
        (nodes node_words.old count) result node_words.new }
{
    let Read {
        value: list,
        cursor,
        count,
    } = parse_struct_members(row, node_words, cursor, count, unused)?;
    push_structure(node_words, cursor, count, heading, size, list)
}

// The flags with OpaqueStruct among them. Flags that are larger than all together stay as they are, as those that have
// it: so it is told by order, and not set as a bit.
fn opaque_flags(flags: u32) -> u32
    ensures { result ≡ opaque flags }
{
    if flags < DeclarationFlag::OpaqueStruct {
        flags + DeclarationFlag::OpaqueStruct
    } else {
        flags
    }
}

// A struct without members, after its semicolon.
fn push_opaque_struct(
    node_words: &mut [u32],
    cursor: TokenId,
    count: u32,
    heading: Heading,
) -> Parsed
    requires { WithinSlots node_words.old count }
    ensures { Gives (opaque_struct heading.declaration.start.0 heading.declaration.flags heading.name.0)
        cursor.0 (nodes node_words.old count) result node_words.new }
{
    let Heading { declaration, name } = heading;
    let Read {
        value: list,
        cursor,
        count,
    } = push_end_of_list(node_words, cursor, count, start_list())?;
    let declaration = Declaration {
        start: declaration.start,
        flags: opaque_flags(declaration.flags),
    };
    push_structure(
        node_words,
        cursor,
        count,
        Heading { declaration, name },
        0,
        list,
    )
}

// A struct: a name with a semicolon, or with members in braces.
pub fn parse_struct_declaration(
    row: &Row<'_>,
    node_words: &mut [u32],
    cursor: TokenId,
    count: u32,
    unused: u32,
    declaration: Declaration,
) -> Parsed
    requires { Sized row.now.kinds.now row.now.types.now node_words.old cursor.0 count }
    ensures { Gives (struct words (row_of row.now.kinds.now row.now.types.now) unused
        declaration.start.0 declaration.flags) cursor.0 (nodes node_words.old count)
        result node_words.new }
{
    let heading = Heading {
        declaration,
        name: cursor,
    };
    let cursor = row.consume(cursor, count, BaseToken::Identifier)?;
    match row.consume_optional(cursor, BaseToken::Semicolon) {
        Some(cursor) => push_opaque_struct(node_words, cursor, count, heading),
        None => parse_structure(row, node_words, cursor, count, unused, heading, 0),
    }
}

// A word's size by its declaring token. What is none is told first: where an entry has refused it, this test is
// compiled away.
fn size_of_word(kind: u8) -> u32
    ensures { result ≡ size_of_word kind }
{
    if kind < BaseToken::Word8 || kind > BaseToken::Word128 {
        return 0;
    }
    match kind {
        BaseToken::Word8 => 1,
        BaseToken::Word16 => 2,
        BaseToken::Word32 => 4,
        BaseToken::Word64 => 8,
        _ => 16,
    }
}

// A word: a name with members in braces.
pub fn parse_word_declaration(
    row: &Row<'_>,
    node_words: &mut [u32],
    cursor: TokenId,
    count: u32,
    unused: u32,
    declaration: Declaration,
    declaring_token: u8,
) -> Parsed
    requires { Sized row.now.kinds.now row.now.types.now node_words.old cursor.0 count }
    ensures { Gives (word words (row_of row.now.kinds.now row.now.types.now) unused
        declaration.start.0 declaration.flags declaring_token) cursor.0
        (nodes node_words.old count) result node_words.new }
{
    let heading = Heading {
        declaration,
        name: cursor,
    };
    let cursor = row.consume(cursor, count, BaseToken::Identifier)?;
    let size = size_of_word(declaring_token);
    parse_structure(row, node_words, cursor, count, unused, heading, size)
}

// A constant's value: `=`, an expression and a semicolon.
fn parse_value(
    row: &Row<'_>,
    node_words: &mut [u32],
    cursor: TokenId,
    count: u32,
    unused: u32,
) -> Parsed
    requires { Sized row.now.kinds.now row.now.types.now node_words.old cursor.0 count }
    ensures { Gives (value words (row_of row.now.kinds.now row.now.types.now) unused)
        cursor.0 (nodes node_words.old count) result node_words.new }
{
    let inside = row.consume(cursor, count, BaseToken::Assignment)?;
    let Read {
        value,
        cursor,
        count,
    } = parse_expression(row, node_words, inside, count, unused)?;
    let cursor = row.consume(cursor, count, BaseToken::Semicolon)?;
    Ok(Read {
        value,
        cursor,
        count,
    })
}

// The nodes of a constant, after its value, which was appended last, so that only the contract names it.
fn push_constant(
    node_words: &mut [u32],
    cursor: TokenId,
    count: u32,
    heading: Heading,
    value_type: NodeId,
    value: NodeId,
) -> Parsed
    requires { WithinSlots node_words.old count × (value_type.0 ≤ Limits.Load) }
    ensures { Gives (constant_end words heading.declaration.start.0 heading.declaration.flags
        heading.name.0 value_type.0 value.0) cursor.0 (nodes node_words.old count)
        result node_words.new }
{
    let Read { cursor, count, .. } = push_older_node(node_words, cursor, count, value_type)?;
    push_declaration(
        node_words,
        cursor,
        count,
        ParseNode::ConstantDeclaration,
        heading,
    )
}

// After the name and the type of a constant: its value, and its nodes.
fn parse_rest_of_constant(
    row: &Row<'_>,
    node_words: &mut [u32],
    cursor: TokenId,
    count: u32,
    unused: u32,
    heading: Heading,
    value_type: NodeId,
) -> Parsed
    requires { Sized row.now.kinds.now row.now.types.now node_words.old cursor.0 count
        × (value_type.0 ≤ Limits.Load) }
    ensures { Gives (valued unused heading.declaration.start.0 heading.declaration.flags heading.name.0
        value_type.0 (row_of row.now.kinds.now row.now.types.now)) cursor.0
        (nodes node_words.old count) result node_words.new }
{
    let Read {
        value,
        cursor,
        count,
    } = parse_value(row, node_words, cursor, count, unused)?;
    push_constant(node_words, cursor, count, heading, value_type, value)
}

// A constant: a name, a colon, a type and a value.
pub fn parse_constant_declaration(
    row: &Row<'_>,
    node_words: &mut [u32],
    cursor: TokenId,
    count: u32,
    unused: u32,
    declaration: Declaration,
) -> Parsed
    requires { Sized row.now.kinds.now row.now.types.now node_words.old cursor.0 count }
    ensures { Gives (constant words (row_of row.now.kinds.now row.now.types.now) unused
        declaration.start.0 declaration.flags) cursor.0 (nodes node_words.old count)
        result node_words.new }
{
    let heading = Heading {
        declaration,
        name: cursor,
    };
    let number = Refusal::MissingConstantType;
    let Read {
        value: value_type,
        cursor,
        count,
    } = parse_typed_name(row, node_words, cursor, count, unused, number)?;
    parse_rest_of_constant(row, node_words, cursor, count, unused, heading, value_type)
}
