// Rows of tokens as lines of text, for the test programs:
//
//     TEXT # SLOTS : WORD WORD ..
//
// TEXT is the row as Penne has it, SLOTS how many node slots are lent. A WORD is tokens with commas between them, and
// after a `*` how often they stand, if not once. A token is its kind, and after a `/` its value type, if that is not
// i32. EndOfSource is a token like any other. Words need spaces between them; else spaces are free outside of words.
// A program may have other settings in the place of SLOTS, each a name and a number.
#![tactic(auto)]

ghost use Rattle.std.specs.Prelude.{◌≤◌, ◌≡◌, IfSome, IfErr, MatchResult};
ghost use Rattle.lines.specs.Line.{Within};
ghost use Rattle.row_text.specs.LineLimits as LineLimits;
ghost use Rattle.row_text.specs.Read.{Fits, Setting, Shorter};

use codes::ValueTypeKeyword;
use lines::{after, number, skip, split_once, trim};

mod input;
mod row_tokens;

pub use input::{read_input, show_lines};
pub use row_tokens::{TOKENS, Tokens};

// The most tokens of a row with its slots, and the most slots.
const ROW_TOKENS: usize = 512;

pub const SLOTS: u32 = 512;

// Kinds and value types are bytes.
const BYTE: u32 = u8::MAX as u32;

// What a line says besides its tokens.
#[derive(Clone, Copy)]
pub struct Row<'a> {
    pub text: &'a [u8],
    pub slots: usize,
}

// The number that this text is.
fn whole_number(text: &[u8], most: u32) -> Option<u32>
    ensures { IfSome result (λ value. value ≤ most) }
{
    let (value, rest) = number(text, most).ok()?;
    rest.is_empty().then_some(value)
}

// The kind or value type that begins the text, and what stands after it.
fn byte(text: &[u8]) -> Option<(u8, &[u8])>
    ensures { IfSome result (λ read. Shorter text.now read.1.now) }
{
    let (value, rest) = number(text, BYTE).ok()?;
    Some((value as u8, rest))
}

// The token that begins the text is put after those that are there. The result is what stands after it. Words are read
// so, token by token: text that is first split at spaces, stars and commas is looked through once for each of these.
fn read_token<'a>(text: &'a [u8], tokens: &mut Tokens) -> Option<&'a [u8]>
    ensures rest { IfSome result (λ rest. Shorter text.now rest.now) }
    ensures count { tokens.old.count ≤ tokens.new.count }
{
    let (kind, rest) = byte(text)?;
    let (value_type, rest) = match after(rest, b"/") {
        Some(rest) => byte(rest)?,
        None => (ValueTypeKeyword::Int32, rest),
    };
    tokens.push(kind, value_type)?;
    Some(rest)
}

// Tokens with commas between them, and after a `*` how often they stand. The result is what stands after the word.
fn read_word<'a>(text: &'a [u8], tokens: &mut Tokens) -> Option<&'a [u8]>
    ensures rest { IfSome result (λ rest. Shorter text.now rest.now) }
    ensures count { tokens.old.count ≤ tokens.new.count }
{
    let first = tokens.len();
    let mut rest = text;
    loop {
        rest = read_token(rest, tokens)?;
        let Some(token) = after(rest, b",") else {
            break;
        };
        rest = token;
    }
    let Some(times) = after(rest, b"*") else {
        return Some(rest);
    };
    let (times, rest) = number(times, u32::MAX).ok()?;
    tokens.repeat(first, times as usize)?;
    Some(rest)
}

// The tokens of a row, in place of those that are there. Where they could not be read, what stands from the word on
// that could not.
pub fn read_tokens<'a>(words: &'a [u8], tokens: &mut Tokens) -> Result<(), &'a [u8]>
    ensures count { tokens.new.count ≤ LineLimits.room }
    ensures within { IfErr result (λ rest. Within words.now rest.now) }
{
    tokens.clear();
    let mut rest = skip(words);
    while !rest.is_empty() {
        rest = skip(read_word(rest, tokens).ok_or(rest)?);
    }
    Ok(())
}

// The number after this name, if the name stands here, and what follows; else the other number, and the line. Where the
// number could not be read, what stands after its digits. The promise does not say which of the two numbers it is, nor
// which end of the line a refusal has. That of read_tokens does not say the latter either, and like that of read_row not
// what is read.
pub fn setting<'a>(
    line: &'a [u8],
    name: &[u8],
    most: u32,
    other: u32,
) -> Result<(u32, &'a [u8]), &'a [u8]>
    requires { other ≤ most }
    ensures { MatchResult result (λ read. Setting line.now most read.0 read.1.now)
        (λ rest. Within line.now rest.now) }
{
    let Some(inside) = after(line, name) else {
        return Ok((other, line));
    };
    let (value, rest) = number(skip(inside), most)?;
    Ok((value, skip(rest)))
}

// The slots that a line says, and what stands after the colon behind them.
fn read_slots(said: &[u8]) -> Option<(usize, &[u8])>
    ensures { IfSome result (λ read. read.0 ≤ LineLimits.slots) }
{
    let (slots, words) = split_once(said, b':')?;
    let slots = whole_number(trim(skip(slots)), SLOTS)?;
    Some((slots as usize, words))
}

// The row with its slots that a line says; its tokens are put in place of those that are there. Where the line says no
// row, its text, the slots if a colon follows them, else 0, and no tokens.
pub fn read_row<'a>(line: &'a [u8], tokens: &mut Tokens) -> Result<Row<'a>, Row<'a>>
    ensures { MatchResult result (λ row. Fits line.now row tokens.new.count)
        (λ row. Fits line.now row tokens.new.count × (tokens.new.count ≡ 0)) }
{
    tokens.clear();
    let Some((text, said)) = split_once(line, b'#') else {
        return Err(Row {
            text: trim(line),
            slots: 0,
        });
    };
    let text = trim(text);
    let Some((slots, words)) = read_slots(said) else {
        return Err(Row { text, slots: 0 });
    };
    let row = Row { text, slots };
    if read_tokens(words, tokens).is_err() || tokens.len() > ROW_TOKENS {
        tokens.clear();
        return Err(row);
    }
    Ok(row)
}
