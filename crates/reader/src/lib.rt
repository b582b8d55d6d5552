// A reader: the row and the place in it in one struct, after the Rust's Tokens of parser/tokens.rs. Each of its methods
// calls one method of the row at the cursor, of crate tokens. A caller that has no reader uses the functions at the end,
// whose parameters are the row and the cursor.
#![tactic(auto)]

ghost use Rattle.std.specs.Prelude.{◌≡◌, ◌+◌, ◌≤◌};
ghost use Rattle.rules.specs.Codes.Limit as Limits;
ghost use Rattle.codes.specs.Words.{Quiet};
ghost use Rattle.tokens.specs.Answer.{kind_in, consumed, Taking};
ghost use Rattle.reader.specs.Answer.{kinds_of, place, ending, Looks, Takes, Tries, Consumes};

use codes::{BaseToken, ParseResult, TokenId};
use tokens::{Row, Taken};

// The row, and the token that is next. No invariant bounds the cursor: new and peek take any, also past the row's end.
#[derive(Drop)]
pub struct Tokens<'a> {
    pub row: Row<'a>,
    pub cursor: TokenId,
}

impl<'a> Tokens<'a> {
    // A reader of the row from the cursor on.
    pub fn new(row: Row<'a>, cursor: TokenId) -> Tokens<'a>
        ensures { (result.row ≡ row.entry) × (result.cursor ≡ cursor) }
    {
        Tokens { row, cursor }
    }
}

impl Tokens<'_> {
    // The kind of the token at the cursor, EndOfSource past the row's end.
    pub fn peek(&self) -> u8
        ensures { result ≡ kind_in (kinds_of self.now) (place self.now) }
    {
        self.row.peek(self.cursor)
    }

    // The token at the cursor is taken.
    pub fn take(&mut self) -> u8
        requires { place self.old ≤ Limits.Tokens + 1 }
        ensures { Takes self.old result self.new }
    {
        let taken = self.row.take(self.cursor);
        self.cursor = taken.cursor;
        taken.kind
    }

    // The token at the cursor is taken, and refused where it is not of the kind expected. A refusal has the node count.
    pub fn consume(&mut self, count: u32, expected: u8) -> ParseResult<()>
        requires { place self.old ≤ Limits.Tokens + 1 }
        ensures { Consumes self.old expected count result self.new }
    {
        match self.row.consume(self.cursor, count, expected) {
            Ok(next) => {
                self.cursor = next;
                Ok(())
            }
            Err(error) => {
                self.cursor = error.cursor;
                Err(error)
            }
        }
    }

    // The token at the cursor is taken where it is of the kind expected.
    pub fn consume_optional(&mut self, expected: u8) -> bool
        requires { place self.old ≤ Limits.Tokens + 1 }
        ensures { Tries self.old expected result self.new }
    {
        match self.row.consume_optional(self.cursor, expected) {
            Some(cursor) => {
                self.cursor = cursor;
                true
            }
            None => false,
        }
    }
}

// The kind of the token at the cursor, by a reader that is made of the row and the cursor; and that reader's cursor. It
// stays apart from take_at: in one function over a closure, the closure's contract would be longer than the body.
pub fn peek_at(row: Row<'_>, cursor: TokenId) -> Taken
    ensures { Looks row.entry.kinds.now cursor result }
{
    let tokens = Tokens::new(row, cursor);
    let kind = tokens.peek();
    Taken {
        kind,
        cursor: tokens.cursor,
    }
}

// The token at the cursor is taken, likewise.
pub fn take_at(row: Row<'_>, cursor: TokenId) -> Taken
    requires { cursor.0 ≤ Limits.Tokens + 1 }
    ensures { Taking row.entry.kinds.now cursor.0 result }
{
    let mut tokens = Tokens::new(row, cursor);
    let kind = tokens.take();
    Taken {
        kind,
        cursor: tokens.cursor,
    }
}

// A comma may stand at the cursor, and then the token that closes a list must, by a reader.
pub fn consume_end(row: Row<'_>, cursor: TokenId, count: u32, closing: u8) -> ParseResult<TokenId>
    requires { cursor.0 ≤ Limits.Tokens }
    ensures { Quiet consumed (ending closing) row.entry.kinds.now cursor.0 count result }
{
    let mut tokens = Tokens::new(row, cursor);
    tokens.consume_optional(BaseToken::Comma);
    tokens.consume(count, closing)?;
    Ok(tokens.cursor)
}
