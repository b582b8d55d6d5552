// The public entries, under the Rust's names: each checks its input in document 01's order, and then parses. They ask
// nothing of their input: any rows, cursors and columns get a reply. What they promise stands in specs/Promise.antt.
#![tactic(auto)]

ghost use Rattle.std.specs.Prelude.{◌≡◌};
ghost use Rattle.codes.specs.Answer.{row, nodes};
ghost use Rattle.penne.specs.Answer.{Splits, Split, passed};
ghost use Rattle.penne.specs.Promise.{Expression, Type', Constant, Struct, Word};
ghost use Rattle.penne.specs.Words.{ExpressionWords, TypeWords, ConstantWords, StructWords, WordWords};

use checks::{Checked, check_declaration, check_input, check_word_declaration};
use codes::{Limit, ParseResult, Parsed, ParsingError, TokenId, node_count};
use declarations::Declaration;
use tokens::Row;

// A check's answer as a reader's. The refusal of a check that failed has the given cursor and count.
fn passed(checked: Checked, cursor: TokenId, count: u32) -> ParseResult<()>
    ensures { result ≡ passed checked cursor.0 count }
{
    checked.map_err(|failed| ParsingError {
        number: failed.number,
        start: failed.start,
        end: failed.start,
        cursor,
        count,
    })
}

// The words from one node up to another are split into kinds and loads, the loads in place. The loop counts places and
// does not zip the columns, since of what is written through a zipped iterator a proof knows no value.
fn split(node_kinds: &mut [u8], node_loads: &mut [u32], first: u32, end: u32)
    requires { Splits first end node_kinds.old node_loads.old }
    ensures { Split first end node_kinds.old node_loads.old node_kinds.new node_loads.new }
{
    for place in first as usize..end as usize {
        let word = node_loads[place];
        node_kinds[place] = codes::word_kind(word);
        node_loads[place] = codes::word_load(word);
    }
}

// An entry with columns and its twin with words share the check and the reader, a call each. One function for both
// would take the reader as a closure, and its contract would have to speak of that closure's calls. The entries of a
// constant and of a struct stay apart for the same reason. The columns are parameters, two of the row and two of nodes,
// since the libraries for C have them so, and since of a struct of two lent columns a proof lends one field at a time.

// An expression from the cursor on.
pub fn parse_expression(
    kinds: &[u8],
    types: &[u8],
    cursor: TokenId,
    node_kinds: &mut [u8],
    node_loads: &mut [u32],
    count: u32,
) -> Parsed
    ensures { Expression (row kinds.now types.now) cursor.0
        (nodes node_kinds.old node_loads.old count) result node_kinds.new node_loads.new }
{
    let row = Row { kinds, types };
    let slots = node_kinds.len();
    let loads = node_loads.len();
    let checked = check_input(&row, cursor, slots, loads, count);
    passed(checked, cursor, count)?;
    let parsed = expressions::parse_expression(&row, node_loads, cursor, count, Limit::Nesting);
    split(node_kinds, node_loads, count, node_count(parsed));
    parsed
}

// A type from the cursor on.
pub fn parse_type(
    kinds: &[u8],
    types: &[u8],
    cursor: TokenId,
    node_kinds: &mut [u8],
    node_loads: &mut [u32],
    count: u32,
) -> Parsed
    ensures { Type' (row kinds.now types.now) cursor.0
        (nodes node_kinds.old node_loads.old count) result node_kinds.new node_loads.new }
{
    let row = Row { kinds, types };
    let slots = node_kinds.len();
    let loads = node_loads.len();
    let checked = check_input(&row, cursor, slots, loads, count);
    passed(checked, cursor, count)?;
    let parsed = types::parse_type(&row, node_loads, cursor, count, Limit::Nesting);
    split(node_kinds, node_loads, count, node_count(parsed));
    parsed
}

// A constant, from its name on. Its declaration, with these flags, begins at the token `start`.
pub fn parse_constant_declaration(
    kinds: &[u8],
    types: &[u8],
    cursor: TokenId,
    node_kinds: &mut [u8],
    node_loads: &mut [u32],
    count: u32,
    start: TokenId,
    flags: u32,
) -> Parsed
    ensures { Constant (row kinds.now types.now) cursor.0
        (nodes node_kinds.old node_loads.old count) start.0 flags
        result node_kinds.new node_loads.new }
{
    let row = Row { kinds, types };
    let slots = node_kinds.len();
    let loads = node_loads.len();
    let checked = check_declaration(&row, cursor, slots, loads, count, start, flags);
    passed(checked, cursor, count)?;
    let declaration = Declaration { start, flags };
    let parsed = declarations::parse_constant_declaration(
        &row,
        node_loads,
        cursor,
        count,
        Limit::Nesting,
        declaration,
    );
    split(node_kinds, node_loads, count, node_count(parsed));
    parsed
}

// A struct, from its name on. Its declaration, with these flags, begins at the token `start`.
pub fn parse_struct_declaration(
    kinds: &[u8],
    types: &[u8],
    cursor: TokenId,
    node_kinds: &mut [u8],
    node_loads: &mut [u32],
    count: u32,
    start: TokenId,
    flags: u32,
) -> Parsed
    ensures { Struct (row kinds.now types.now) cursor.0
        (nodes node_kinds.old node_loads.old count) start.0 flags
        result node_kinds.new node_loads.new }
{
    let row = Row { kinds, types };
    let slots = node_kinds.len();
    let loads = node_loads.len();
    let checked = check_declaration(&row, cursor, slots, loads, count, start, flags);
    passed(checked, cursor, count)?;
    let declaration = Declaration { start, flags };
    let parsed = declarations::parse_struct_declaration(
        &row,
        node_loads,
        cursor,
        count,
        Limit::Nesting,
        declaration,
    );
    split(node_kinds, node_loads, count, node_count(parsed));
    parsed
}

// A word, from its name on, by its declaring token. Its declaration, with these flags, begins at the token `start`.
pub fn parse_word_declaration(
    kinds: &[u8],
    types: &[u8],
    cursor: TokenId,
    node_kinds: &mut [u8],
    node_loads: &mut [u32],
    count: u32,
    start: TokenId,
    flags: u32,
    declaring_token: u8,
) -> Parsed
    ensures { Word (row kinds.now types.now) cursor.0
        (nodes node_kinds.old node_loads.old count) start.0 flags declaring_token
        result node_kinds.new node_loads.new }
{
    let row = Row { kinds, types };
    let slots = node_kinds.len();
    let loads = node_loads.len();
    let checked = check_word_declaration(
        &row,
        cursor,
        slots,
        loads,
        count,
        start,
        flags,
        declaring_token,
    );
    passed(checked, cursor, count)?;
    let declaration = Declaration { start, flags };
    let parsed = declarations::parse_word_declaration(
        &row,
        node_loads,
        cursor,
        count,
        Limit::Nesting,
        declaration,
        declaring_token,
    );
    split(node_kinds, node_loads, count, node_count(parsed));
    parsed
}

// The same as parse_expression with a word a node.
pub fn parse_expression_words(
    kinds: &[u8],
    types: &[u8],
    cursor: TokenId,
    node_words: &mut [u32],
    count: u32,
) -> Parsed
    ensures { ExpressionWords (row kinds.now types.now) cursor.0
        node_words.old count result node_words.new }
{
    let row = Row { kinds, types };
    let slots = node_words.len();
    let checked = check_input(&row, cursor, slots, slots, count);
    passed(checked, cursor, count)?;
    expressions::parse_expression(&row, node_words, cursor, count, Limit::Nesting)
}

// The same as parse_type with a word a node.
pub fn parse_type_words(
    kinds: &[u8],
    types: &[u8],
    cursor: TokenId,
    node_words: &mut [u32],
    count: u32,
) -> Parsed
    ensures { TypeWords (row kinds.now types.now) cursor.0
        node_words.old count result node_words.new }
{
    let row = Row { kinds, types };
    let slots = node_words.len();
    let checked = check_input(&row, cursor, slots, slots, count);
    passed(checked, cursor, count)?;
    types::parse_type(&row, node_words, cursor, count, Limit::Nesting)
}

// The same as parse_constant_declaration with a word a node.
pub fn parse_constant_declaration_words(
    kinds: &[u8],
    types: &[u8],
    cursor: TokenId,
    node_words: &mut [u32],
    count: u32,
    start: TokenId,
    flags: u32,
) -> Parsed
    ensures { ConstantWords (row kinds.now types.now) cursor.0 start.0 flags
        node_words.old count result node_words.new }
{
    let row = Row { kinds, types };
    let slots = node_words.len();
    let checked = check_declaration(&row, cursor, slots, slots, count, start, flags);
    passed(checked, cursor, count)?;
    let declaration = Declaration { start, flags };
    declarations::parse_constant_declaration(
        &row,
        node_words,
        cursor,
        count,
        Limit::Nesting,
        declaration,
    )
}

// The same as parse_struct_declaration with a word a node.
pub fn parse_struct_declaration_words(
    kinds: &[u8],
    types: &[u8],
    cursor: TokenId,
    node_words: &mut [u32],
    count: u32,
    start: TokenId,
    flags: u32,
) -> Parsed
    ensures { StructWords (row kinds.now types.now) cursor.0 start.0 flags
        node_words.old count result node_words.new }
{
    let row = Row { kinds, types };
    let slots = node_words.len();
    let checked = check_declaration(&row, cursor, slots, slots, count, start, flags);
    passed(checked, cursor, count)?;
    let declaration = Declaration { start, flags };
    declarations::parse_struct_declaration(
        &row,
        node_words,
        cursor,
        count,
        Limit::Nesting,
        declaration,
    )
}

// The same as parse_word_declaration with a word a node.
pub fn parse_word_declaration_words(
    kinds: &[u8],
    types: &[u8],
    cursor: TokenId,
    node_words: &mut [u32],
    count: u32,
    start: TokenId,
    flags: u32,
    declaring_token: u8,
) -> Parsed
    ensures { WordWords (row kinds.now types.now) cursor.0 start.0 flags declaring_token
        node_words.old count result node_words.new }
{
    let row = Row { kinds, types };
    let slots = node_words.len();
    let checked = check_word_declaration(
        &row,
        cursor,
        slots,
        slots,
        count,
        start,
        flags,
        declaring_token,
    );
    passed(checked, cursor, count)?;
    let declaration = Declaration { start, flags };
    declarations::parse_word_declaration(
        &row,
        node_words,
        cursor,
        count,
        Limit::Nesting,
        declaration,
        declaring_token,
    )
}
