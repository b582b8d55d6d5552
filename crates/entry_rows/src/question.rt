// What a line asks of an entry, between its text and its tokens:
//
//     ENTRY cursor N count N start N flags N kind N slots N loads N types N
//
// ENTRY is `expression`, `type`, `constant`, `struct` or `word`. The settings stand in this order, and any of them may
// be left out. Cursor, node count, declaration start and flags are then 0; `kind`, the declaring token of a word, is
// 47; `slots`, those of the node kinds, are 64; `loads`, those of the node loads, are as many as slots; and `types`,
// the length of the value-type column, is the number of tokens.
ghost use Rattle.std.specs.Prelude.{◌≤◌, ◌≡◌, length, take, MatchResult};
ghost use Rattle.lines.specs.Line.{Within};
ghost use Rattle.entry_rows.specs.QuestionLimits as QuestionLimits;
ghost use Rattle.entry_rows.specs.Fits.{SizesFit, Fits};

use codes::BaseToken;
use lines::{after, skip, split_once, trim};
use node_slots::SLOTS;
use row_text::{TOKENS, Tokens, setting};

// A cursor, a count, a start and flags are any 32-bit numbers, a kind is any byte.
const ANY: u32 = u32::MAX;

const BYTE: u32 = u8::MAX as u32;

const USUAL_SLOTS: u32 = 64;

const MOST_SLOTS: u32 = SLOTS as u32;

const MOST_TOKENS: u32 = TOKENS as u32;

#[derive(Clone, Copy)]
pub enum Entry {
    Expression,
    Type,
    Constant,
    Struct,
    Word,
}

const ENTRIES: [(&str, Entry); 5] = [
    ("expression", Entry::Expression),
    ("type", Entry::Type),
    ("constant", Entry::Constant),
    ("struct", Entry::Struct),
    ("word", Entry::Word),
];

// What an entry is given besides the columns.
#[derive(Clone, Copy)]
pub struct Question {
    pub entry: Entry,
    pub cursor: u32,
    pub count: u32,
    pub start: u32,
    pub flags: u32,
    pub kind: u8,
}

// How long each column is, but for the kinds of tokens.
#[derive(Clone, Copy)]
pub struct Sizes {
    pub types: usize,
    pub slots: usize,
    pub loads: usize,
}

// What a line says besides its tokens.
#[derive(Clone, Copy)]
pub struct Row<'a> {
    pub text: &'a [u8],
    pub question: Question,
    pub sizes: Sizes,
}

// The entry that is named here, and what follows; the line where none is named. Of what follows, and of what could not be
// read, these promises say that it is an end of the line, and not which.
fn read_entry(line: &[u8]) -> Result<(Entry, &[u8]), &[u8]>
    ensures { MatchResult result (λ read. Within line.now read.1.now) (λ rest. Within line.now rest.now) }
{
    ENTRIES
        .iter()
        .find_map(|(name, entry)| Some((*entry, after(line, name.as_bytes())?)))
        .ok_or(line)
}

// The question, and what follows; what stands from a place on that could not be read.
fn read_question(line: &[u8]) -> Result<(Question, &[u8]), &[u8]>
    ensures { MatchResult result (λ read. Within line.now read.1.now) (λ rest. Within line.now rest.now) }
{
    let (entry, rest) = read_entry(line)?;
    let (cursor, rest) = setting(skip(rest), b"cursor", ANY, 0)?;
    let (count, rest) = setting(rest, b"count", ANY, 0)?;
    let (start, rest) = setting(rest, b"start", ANY, 0)?;
    let (flags, rest) = setting(rest, b"flags", ANY, 0)?;
    let (kind, rest) = setting(rest, b"kind", BYTE, u32::from(BaseToken::Word8))?;
    let question = Question {
        entry,
        cursor,
        count,
        start,
        flags,
        kind: kind as u8,
    };
    Ok((question, rest))
}

// The lengths, of a row with so many tokens, and what follows; what stands from a place on that could not be read.
fn read_sizes(line: &[u8], tokens: u32) -> Result<(Sizes, &[u8]), &[u8]>
    requires { tokens ≤ QuestionLimits.tokens }
    ensures { MatchResult result (λ read. SizesFit read.0 × Within line.now read.1.now)
        (λ rest. Within line.now rest.now) }
{
    let (slots, rest) = setting(line, b"slots", MOST_SLOTS, USUAL_SLOTS)?;
    let (loads, rest) = setting(rest, b"loads", MOST_SLOTS, slots)?;
    let (types, rest) = setting(rest, b"types", MOST_TOKENS, tokens)?;
    let sizes = Sizes {
        types: types as usize,
        slots: slots as usize,
        loads: loads as usize,
    };
    Ok((sizes, rest))
}

// The row that a line says; its tokens are put in place of those that are there. Where it says none, its text.
pub fn read_row<'a>(line: &'a [u8], tokens: &mut Tokens) -> Result<Row<'a>, &'a [u8]>
    ensures { MatchResult result (λ row. Fits line.now row)
        (λ text. text.now ≡ take (length text.now) line.now) }
{
    let Some((text, said)) = split_once(line, b'#') else {
        return Err(trim(line));
    };
    let text = trim(text);
    let (asked, words) = split_once(said, b':').ok_or(text)?;
    row_text::read_tokens(words, tokens).or(Err(text))?;
    let (question, rest) = read_question(skip(asked)).or(Err(text))?;
    let (sizes, rest) = read_sizes(rest, tokens.len() as u32).or(Err(text))?;
    let row = Row {
        text,
        question,
        sizes,
    };
    if rest.is_empty() { Ok(row) } else { Err(text) }
}
