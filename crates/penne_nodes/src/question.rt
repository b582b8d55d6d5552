// What an input asks for, in the form of specs/Input.antt.
ghost use Rattle.std.specs.Prelude.{◌+◌, ◌≤◌, ◌≡◌, true, length, MatchOption, MatchResult};
ghost use Rattle.penne_nodes.specs.Input.{size_at, bad};
ghost use Rattle.penne_nodes.specs.Question.{number_of, Asks};

use codes::TokenId;
use tokens::Row;

// The bytes of the sizes before the row, and where two of them stand.
const SIZES: usize = 12;

const CURSOR: usize = 4;

const ENTRY: usize = 8;

// The most tokens of a row.
const TOKENS: u32 = 4096;

// The entries that can be asked for.
#[derive(Clone, Copy)]
pub enum Entry {
    Expression,
    Type,
}

// There is no entry with this number.
#[derive(Clone, Copy)]
pub struct NoEntry;

impl TryFrom<u32> for Entry {
    type Error = NoEntry;

    ghost try_from_gives = { λ number entry.
        MatchResult entry (λ e. number_of e ≡ number) (λ _. 2 ≤ number) };

    fn try_from(number: u32) -> Result<Entry, NoEntry> {
        match number {
            0 => Ok(Entry::Expression),
            1 => Ok(Entry::Type),
            _ => Err(NoEntry),
        }
    }
}

// An entry, a row and a cursor in it.
#[derive(Clone, Copy)]
pub struct Question<'a> {
    pub entry: Entry,
    pub row: Row<'a>,
    pub cursor: TokenId,
}

// The little-endian number in four of the bytes of the sizes.
fn size(bytes: &[u8; SIZES], at: usize) -> u32
    requires { at + 4 ≤ length bytes.now }
    ensures { result ≡ size_at bytes.now at }
{
    u32::from_le_bytes([bytes[at], bytes[at + 1], bytes[at + 2], bytes[at + 3]])
}

impl<'a> Question<'a> {
    // The question of an input, none where it is a bad file.
    pub fn from_bytes(bytes: &'a [u8]) -> Option<Question<'a>>
        ensures { MatchOption result
            (bad bytes.now ≡ true) (λ question. Asks bytes.now question) }
    {
        let (sizes, columns) = bytes.split_first_chunk::<SIZES>()?;
        let tokens = size(sizes, 0);
        if tokens > TOKENS {
            return None;
        }
        let row = tokens as usize;
        if columns.len() != row + row {
            return None;
        }
        let entry = Entry::try_from(size(sizes, ENTRY)).ok()?;
        let (kinds, types) = columns.split_at(row);
        Some(Question {
            entry,
            row: Row { kinds, types },
            cursor: TokenId(size(sizes, CURSOR)),
        })
    }
}
