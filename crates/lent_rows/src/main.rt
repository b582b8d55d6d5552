// Document 01's rows of tokens by the reader, and a list of three items by the lent record, each beside the core.
//
// For each row of standard input: its text, and for every token its kind and what a list's end there answers, by the
// reader; `differs` follows where the core answers otherwise. Crate row_text says how a row is written; in the place of
// SLOTS it has the kind that closes the list. Then the list, with too few slots and with as many as it needs.
#![tactic(auto)]

ghost use Rattle.std.specs.Prelude.{◌≤◌};
ghost use Rattle.row_text.specs.LineLimits as LineLimits;

use answers::Numbers;
use codes::{BaseToken, Parsed, TokenId, node_count};
use row_text::Tokens;
use show::{Reply, Shown, UNUSED, Unfailing};
use std::io::{Result, Write};
use tokens::{Row, Taken};

mod answers;
mod lists;

// The last of the kinds of tokens.
const LAST_KIND: u8 = BaseToken::Error;

// The list's items, and the slots that it needs: an item has two nodes, and its end one.
const ITEMS: u32 = 3;

const SLOTS: usize = 7;

// Says so where an answer is not the core's.
fn compare(out: &mut impl Write, ours: Numbers, core: Numbers) -> Result<()> {
    if answers::same(ours, core) {
        Ok(())
    } else {
        out.write_all(b" differs")
    }
}

// The token at a place, looked at, taken and as a list's end, by the reader and by the core.
fn show_token(out: &mut impl Write, row: Row<'_>, place: u32, closing: u8) -> Result<()>
    requires { place ≤ LineLimits.tokens }
{
    let cursor = TokenId(place);
    let looked = reader::peek_at(row, cursor);
    let taken = reader::take_at(row, cursor);
    let ended = Numbers::from(reader::consume_end(row, cursor, 0, closing));
    let core_looked = Taken {
        kind: row.peek(cursor),
        cursor,
    };
    let core_taken = row.take(cursor);
    let core_ended = Numbers::from(answers::end_by_core(&row, cursor, 0, closing));
    let before = if place == 0 { ": " } else { ", " };
    write!(out, "{before}{} {ended}", taken.kind)?;
    compare(out, Numbers::from(looked), Numbers::from(core_looked))?;
    compare(out, Numbers::from(taken), Numbers::from(core_taken))?;
    compare(out, ended, core_ended)
}

// The tokens of a row, one after another.
fn show(out: &mut impl Write, text: &[u8], tokens: &Tokens, closing: u8) -> Result<()>
    requires { tokens.now.count ≤ LineLimits.tokens }
{
    let row = Row {
        kinds: tokens.kinds(),
        types: tokens.types(),
    };
    out.write_all(text)?;
    for place in 0..row.kinds.len() {
        show_token(out, row, place as u32, closing)?;
    }
    out.write_all(b"\n")
}

fn show_line(out: &mut impl Write, line: &[u8], tokens: &mut Tokens) -> Result<()> {
    if !lines::is_row(line) {
        out.write_all(line)?;
        return out.write_all(b"\n");
    }
    let Ok(row) = row_text::read_row(line, tokens) else {
        return out.write_all(b"bad line\n");
    };
    match u8::try_from(row.slots) {
        Ok(closing) if closing <= LAST_KIND => show(out, row.text, tokens, closing),
        _ => out.write_all(b"bad kind\n"),
    }
}

// A list's reply and its nodes.
fn show_reply(out: &mut impl Write, name: &str, reply: Parsed, node_words: &[u32]) -> Result<()> {
    let shown = Shown {
        nodes: node_words,
        count: node_count(reply) as usize,
    };
    writeln!(out, "{name}: {}{shown}", Reply(reply))
}

// The list with so many slots, by the lent record and by the core.
fn show_list(out: &mut impl Write, slots: usize) -> Result<()>
    requires { slots ≤ 7 }
{
    let mut record_words = [UNUSED; SLOTS];
    let record_words = &mut record_words[..slots];
    let record = lists::list_by_record(record_words, TokenId(ITEMS), ITEMS);
    show_reply(out, "record", record, record_words)?;
    let mut core_words = [UNUSED; SLOTS];
    let core_words = &mut core_words[..slots];
    let core = lists::list_by_core(core_words, TokenId(ITEMS), ITEMS);
    show_reply(out, "core", core, core_words)?;
    compare(out, Numbers::from(record), Numbers::from(core))
}

fn main(rt: HostRuntime) -> Result<()> {
    let mut out = Unfailing(rt.stdout());
    let mut buffer = io::large_buffer();
    let Some(input) = row_text::read_input(&mut buffer) else {
        return out.write_all(b"bad file\n");
    };
    let mut tokens = Tokens::new();
    row_text::show_lines(input, |line| show_line(&mut out, line, &mut tokens))?;
    out.write_all(b"\n# Three items, with 0 to 7 slots\n")?;
    for slots in 0..=SLOTS {
        show_list(&mut out, slots)?;
    }
    Ok(())
}
