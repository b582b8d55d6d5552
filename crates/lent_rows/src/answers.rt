// The answers as numbers, which can be compared.
ghost use Rattle.std.specs.Prelude.{true, ◌≡◌, ◌≤◌, Some};
ghost use Rattle.rules.specs.Codes.Limit as Limits;
ghost use Rattle.codes.specs.Words.{Quiet};
ghost use Rattle.tokens.specs.Answer.{consumed};
ghost use Rattle.reader.specs.Answer.{ending};
ghost use Rattle.lent_rows.specs.Numbers.{accepted, of_taken, of_refusal, of_parsed, of_consumed, text};

use codes::{BaseToken, ParseResult, Parsed, ParsingError, TokenId};
use std::fmt;
use tokens::{Row, Taken};

// A refusal's five numbers. An acceptance has number 0, which no refusal has, and its root, or a token's kind, as start
// and end. These are compared, and not the answers, whose five types in crates codes and tokens would each derive an
// equality that no reader needs.
#[derive(Clone, Copy, PartialEq, Eq)]
pub struct Numbers {
    pub number: u32,
    pub start: u32,
    pub end: u32,
    pub cursor: u32,
    pub count: u32,
}

impl Numbers {
    // Of an acceptance.
    fn accepted(root: u32, cursor: TokenId, count: u32) -> Numbers
        ensures { result ≡ accepted root cursor count }
    {
        Numbers {
            number: 0,
            start: root,
            end: root,
            cursor: cursor.0,
            count,
        }
    }
}

impl From<Taken> for Numbers {
    ghost from_gives = { λ taken numbers. numbers ≡ of_taken taken };

    fn from(taken: Taken) -> Numbers {
        Numbers::accepted(u32::from(taken.kind), taken.cursor, 0)
    }
}

impl From<ParsingError> for Numbers {
    ghost from_gives = { λ error numbers. numbers ≡ of_refusal error };

    fn from(error: ParsingError) -> Numbers {
        Numbers {
            number: error.number,
            start: error.start.0,
            end: error.end.0,
            cursor: error.cursor.0,
            count: error.count,
        }
    }
}

impl From<Parsed> for Numbers {
    ghost from_gives = { λ reply numbers. numbers ≡ of_parsed reply };

    fn from(reply: Parsed) -> Numbers {
        match reply {
            Ok(read) => Numbers::accepted(read.value.0, read.cursor, read.count),
            Err(error) => Numbers::from(error),
        }
    }
}

// Of a token that was expected, whose acceptance has no root and no count.
impl From<ParseResult<TokenId>> for Numbers {
    ghost from_gives = { λ answer numbers. numbers ≡ of_consumed answer };

    fn from(answer: ParseResult<TokenId>) -> Numbers {
        match answer {
            Ok(cursor) => Numbers::accepted(0, cursor, 0),
            Err(error) => Numbers::from(error),
        }
    }
}

// `ok` and the cursor, or `no` and number, start, end and cursor.
impl fmt::Display for Numbers {
    ghost output = { λ numbers. Some (text numbers) };

    fn fmt<W: fmt::Write>(&self, f: &mut fmt::Formatter<W>) -> fmt::Result {
        if self.number == 0 {
            write!(f, "ok {}", self.cursor)
        } else {
            write!(
                f,
                "no {} {} {} {}",
                self.number, self.start, self.end, self.cursor
            )
        }
    }
}

// An optional comma and the token that closes a list, by the core.
pub fn end_by_core(row: &Row<'_>, cursor: TokenId, count: u32, closing: u8) -> ParseResult<TokenId>
    requires { cursor.0 ≤ Limits.Tokens }
    ensures { Quiet consumed (ending closing) row.now.kinds.now cursor.0 count result }
{
    let cursor = row
        .consume_optional(cursor, BaseToken::Comma)
        .unwrap_or(cursor);
    row.consume(cursor, count, closing)
}

// Whether two answers are the same.
pub fn same(a: Numbers, b: Numbers) -> bool
    ensures { (result ≡ true → a ≡ b) × (a ≡ b → result ≡ true) }
{
    a == b
}
