// Document 01's type rows, and a row for each refusal that a type can meet, by parse_type. For each row: its text, the
// reply, and the nodes up to the count.
#![tactic(auto)]

ghost use Rattle.std.specs.Prelude.{◌≡◌, ◌≤◌, length};
ghost use Rattle.codes.specs.declared.limit.TheConstants.Limit as Limits;

use codes::{BaseToken, Limit, TokenId, ValueTypeKeyword, node_count};
use show::{Reply, Shown, UNUSED, Unfailing};
use std::io::{Result, Write};
use tokens::Row;

// The slots, of which a row is lent some.
const SLOTS: usize = 8;

// The texts and kinds of rows of at most four tokens and EndOfSource. They are arrays, and no slices, so that the type
// gives the length, which show asks for; the places that are left hold EndOfSource too.
type ShortRow = (&'static str, [u8; 5]);

// The value types of such a row.
const I32S: [u8; 5] = [ValueTypeKeyword::Int32; 5];

const ACCEPTED: [ShortRow; 9] = [
    ("i32", [BaseToken::ValueTypeKeyword, 0, 0, 0, 0]),
    (
        "&i32",
        [BaseToken::Ampersand, BaseToken::ValueTypeKeyword, 0, 0, 0],
    ),
    ("T", [BaseToken::Identifier, 0, 0, 0, 0]),
    (
        "(i32)",
        [
            BaseToken::ParenLeft,
            BaseToken::ValueTypeKeyword,
            BaseToken::ParenRight,
            0,
            0,
        ],
    ),
    (
        "[]T",
        [
            BaseToken::BracketLeft,
            BaseToken::BracketRight,
            BaseToken::Identifier,
            0,
            0,
        ],
    ),
    (
        "[:]T",
        [
            BaseToken::BracketLeft,
            BaseToken::Colon,
            BaseToken::BracketRight,
            BaseToken::Identifier,
            0,
        ],
    ),
    (
        "[..]T",
        [
            BaseToken::BracketLeft,
            BaseToken::Dots,
            BaseToken::BracketRight,
            BaseToken::Identifier,
            0,
        ],
    ),
    (
        "[3]T",
        [
            BaseToken::BracketLeft,
            BaseToken::NakedDecimal,
            BaseToken::BracketRight,
            BaseToken::Identifier,
            0,
        ],
    ),
    (
        "[N]T",
        [
            BaseToken::BracketLeft,
            BaseToken::Identifier,
            BaseToken::BracketRight,
            BaseToken::Identifier,
            0,
        ],
    ),
];

const REFUSED: [ShortRow; 4] = [
    (
        "13 [3 T",
        [
            BaseToken::BracketLeft,
            BaseToken::NakedDecimal,
            BaseToken::Identifier,
            0,
            0,
        ],
    ),
    (
        "15 (i32",
        [BaseToken::ParenLeft, BaseToken::ValueTypeKeyword, 0, 0, 0],
    ),
    ("19 [+", [BaseToken::BracketLeft, BaseToken::Plus, 0, 0, 0]),
    ("20 &", [BaseToken::Ampersand, 0, 0, 0, 0]),
];

// The texts of a pointer's row by how many slots it is lent, which are too few.
const TOO_FEW_SLOTS: [&str; 4] = [
    "33 &i32, no slot",
    "33 &i32, 1 slot",
    "33 &i32, 2 slots",
    "33 &i32, 3 slots",
];

const POINTER: [u8; 3] = [BaseToken::Ampersand, BaseToken::ValueTypeKeyword, 0];

// The reply to a row, with so many slots. It stays apart from that of expression_rows, which has its tokens from a line
// and calls another reader.
fn show(out: &mut impl Write, text: &str, row: Row<'_>, slots: usize) -> Result<()>
    requires { (length row.types.now ≡ length row.kinds.now) × (length row.kinds.now ≤ Limits.Tokens)
        × (slots ≤ 8) }
{
    let mut all_words = [UNUSED; SLOTS];
    let node_words = &mut all_words[..slots];
    let reply = types::parse_type(&row, node_words, TokenId(0), 0, Limit::Nesting);
    let shown = Shown {
        nodes: &*node_words,
        count: node_count(reply) as usize,
    };
    writeln!(out, "{text}: {}{shown}", Reply(reply))
}

// So many ampersands before i32.
fn show_pointers(out: &mut impl Write, text: &str, ampersands: usize) -> Result<()>
    requires { ampersands ≤ 40 }
{
    let mut kinds = [BaseToken::Ampersand; 42];
    kinds[ampersands] = BaseToken::ValueTypeKeyword;
    kinds[ampersands + 1] = BaseToken::EndOfSource;
    let row = Row {
        kinds: &kinds,
        types: &[ValueTypeKeyword::Int32; 42],
    };
    show(out, text, row, SLOTS)
}

fn main(rt: HostRuntime) -> Result<()> {
    let mut out = Unfailing(rt.stdout());
    for (text, kinds) in ACCEPTED.iter().chain(&REFUSED) {
        let row = Row {
            kinds,
            types: &I32S,
        };
        show(&mut out, text, row, SLOTS)?;
    }
    for (slots, text) in TOO_FEW_SLOTS.iter().enumerate() {
        let row = Row {
            kinds: &POINTER,
            types: &[ValueTypeKeyword::Int32; 3],
        };
        show(&mut out, text, row, slots)?;
    }
    show_pointers(&mut out, "33 39 &", 39)?;
    show_pointers(&mut out, "34 40 &", 40)
}
