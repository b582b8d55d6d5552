// What an entry is checked for before it parses, in document 01's order. Any input may be asked about.
#![tactic(auto)]

ghost use Rattle.std.specs.Prelude.{◌≡◌, ◌≤◌, length, position, zip};
ghost use Rattle.rules.specs.Codes.Limit as Limits;
ghost use Rattle.rules.specs.Codes.Refusal as Refusals;
ghost use Rattle.codes.specs.Answer.{row as row_of};
ghost use Rattle.checks.specs.Answer.{check_of, Good};
ghost use Rattle.checks.specs.Checks.{or_else, check, bad, bad_token, last_check, size_check};
ghost use Rattle.checks.specs.Checks.{row_check, place_check, columns_check, slots_check};
ghost use Rattle.checks.specs.Checks.{flags_check, word_check, input_check, declaration_check};
ghost use Rattle.checks.specs.Checks.{word_declaration_check};

use codes::{BaseToken, Limit, Refusal, TokenId, ValueTypeKeyword};
use kinds::tokens_pass;
use tokens::Row;

// The number and start of the first check that refuses.
#[derive(Clone, Copy)]
pub struct Failed {
    pub number: u32,
    pub start: TokenId,
}

// The answer of every check.
pub type Checked = Result<(), Failed>;

// The start of a refusal that tells of no token, for which document 01 gives 0.
const NOWHERE: TokenId = TokenId(0);

// Refuses what is wrong, with this number and start.
fn check(wrong: bool, number: u32, start: TokenId) -> Checked
    ensures { check_of result ≡ check wrong number start.0 }
{
    if wrong {
        Err(Failed { number, start })
    } else {
        Ok(())
    }
}

// The two lengths of a row.
fn check_size(row: &Row<'_>) -> Checked
    ensures { check_of result ≡ size_check (row_of row.now.kinds.now row.now.types.now) }
{
    let size = row.kinds.len();
    let bad_size = row.types.len() != size || size == 0 || size > Limit::Tokens as usize;
    check(bad_size, Refusal::BadRow, NOWHERE)
}

// The place of the first token whose kind or value type is above the last one.
fn first_bad_token(row: &Row<'_>) -> Option<usize>
    ensures { result
        ≡ position (λ token. bad token.0 token.1) (zip row.now.kinds.now row.now.types.now) }
{
    row.kinds.iter().zip(row.types).position(|(kind, value_type)| {
        *kind > BaseToken::Error || *value_type > ValueTypeKeyword::Bool
    })
}

// What a bad token is refused with. Not inlined: else the search for the token counts the refusal up beside the place,
// which takes 27 in 100 instructions more on a row of 65,534 tokens whose last one is bad.
#[inline(never)]
fn bad_at(start: TokenId) -> Failed
    ensures number { result.number ≡ Refusals.BadToken }
    ensures start { result.start.0 ≡ start.0 }
{
    Failed {
        number: Refusal::BadToken,
        start,
    }
}

// Each token.
fn check_each_token(row: &Row<'_>) -> Checked
    requires { (length row.now.types.now ≡ length row.now.kinds.now)
        × (length row.now.kinds.now ≤ Limits.Tokens) }
    ensures { check_of result
        ≡ bad_token (row_of row.now.kinds.now row.now.types.now) 0 (length row.now.kinds.now) }
{
    match first_bad_token(row) {
        Some(place) => Err(bad_at(TokenId(place as u32))),
        None => Ok(()),
    }
}

// The last token of a row.
fn check_last(row: &Row<'_>) -> Checked
    requires { (1 ≤ length row.now.kinds.now) × (length row.now.kinds.now ≤ Limits.Tokens) }
    ensures { check_of result ≡ last_check (row_of row.now.kinds.now row.now.types.now) }
{
    let last = row.kinds.len() - 1;
    check(
        row.kinds[last] != BaseToken::EndOfSource,
        Refusal::NoEndOfSource,
        TokenId(last as u32),
    )
}

// Whether a row has a right size and no bad token.
fn is_good(row: &Row<'_>) -> bool
    ensures { Good result (row_of row.now.kinds.now row.now.types.now) }
{
    let tokens = row.kinds.len();
    row.types.len() == tokens
        && tokens != 0
        && tokens <= Limit::Tokens as usize
        && tokens_pass(
            row.kinds,
            row.types,
            BaseToken::Error,
            ValueTypeKeyword::Bool,
        )
}

// The row's size, its tokens, and its last token. Most rows are good: then only the last one is looked at.
fn check_row(row: &Row<'_>) -> Checked
    ensures { check_of result ≡ row_check (row_of row.now.kinds.now row.now.types.now) }
{
    if is_good(row) {
        return check_last(row);
    }
    check_size(row)?;
    check_each_token(row)?;
    check_last(row)
}

// A cursor or a declaration's start, in a row of so many tokens.
fn check_place(row: &Row<'_>, place: TokenId) -> Checked
    ensures { check_of result ≡ place_check (row_of row.now.kinds.now row.now.types.now) place.0 }
{
    check(
        place.0 as usize >= row.kinds.len(),
        Refusal::BadCursor,
        NOWHERE,
    )
}

// The row, and the cursor in it.
fn check_cursor(row: &Row<'_>, cursor: TokenId) -> Checked
    ensures { let tokens = row_of row.now.kinds.now row.now.types.now in
        check_of result ≡ or_else (row_check tokens) (place_check tokens cursor.0) }
{
    check_row(row).and(check_place(row, cursor))
}

// The slots of the node columns.
fn check_columns(slots: usize, loads: usize) -> Checked
    ensures { check_of result ≡ columns_check slots loads }
{
    let bad_columns = loads != slots || slots > Limit::Slots as usize;
    check(bad_columns, Refusal::BadColumns, NOWHERE)
}

// These, and the node count.
fn check_slots(slots: usize, loads: usize, count: u32) -> Checked
    ensures { check_of result ≡ slots_check slots loads count }
{
    check_columns(slots, loads)?;
    check(count as usize > slots, Refusal::BadCount, NOWHERE)
}

// The flags of a declaration.
fn check_flags(flags: u32) -> Checked
    ensures { check_of result ≡ flags_check flags }
{
    check(flags > Limit::Flags, Refusal::BadFlags, NOWHERE)
}

// The declaring token of a word.
fn check_word(kind: u8) -> Checked
    ensures { check_of result ≡ word_check kind }
{
    let bad_kind = kind < BaseToken::Word8 || kind > BaseToken::Word128;
    check(bad_kind, Refusal::BadWordKind, NOWHERE)
}

// The parameters of the three checks below are those of the entries, in their order, which C gives one by one: a struct
// of them would be made for one call, and taken apart again by the promise, which names each.

// What an expression and a type are checked for.
pub fn check_input(
    row: &Row<'_>,
    cursor: TokenId,
    slots: usize,
    loads: usize,
    count: u32,
) -> Checked
    ensures { check_of result
        ≡ input_check (row_of row.now.kinds.now row.now.types.now) cursor.0 slots loads count }
{
    check_cursor(row, cursor)?;
    check_slots(slots, loads, count)
}

// What a constant and a struct are checked for.
pub fn check_declaration(
    row: &Row<'_>,
    cursor: TokenId,
    slots: usize,
    loads: usize,
    count: u32,
    start: TokenId,
    flags: u32,
) -> Checked
    ensures { check_of result
        ≡ declaration_check (row_of row.now.kinds.now row.now.types.now) cursor.0 slots loads count
        start.0 flags }
{
    check_cursor(row, cursor)?;
    check_place(row, start)?;
    check_slots(slots, loads, count)?;
    check_flags(flags)
}

// What a word is checked for.
pub fn check_word_declaration(
    row: &Row<'_>,
    cursor: TokenId,
    slots: usize,
    loads: usize,
    count: u32,
    start: TokenId,
    flags: u32,
    kind: u8,
) -> Checked
    ensures { check_of result
        ≡ word_declaration_check (row_of row.now.kinds.now row.now.types.now) cursor.0 slots loads count
        start.0 flags kind }
{
    check_declaration(row, cursor, slots, loads, count, start, flags)?;
    check_word(kind)
}
