// The rows of standard input by parse_expression. For each row: its text, the reply, and the nodes up to the count.
// Crate row_text says how a row is written. A line that is empty or begins with `#` is printed as it is.
#![tactic(auto)]

ghost use Rattle.std.specs.Prelude.{◌≤◌};
ghost use Rattle.row_text.specs.LineLimits as LineLimits;

use codes::{Limit, TokenId, node_count};
use row_text::Tokens;
use show::{Reply, Shown, UNUSED, Unfailing};
use std::io::{Result, Write};
use tokens::Row;

// The slots, of which a row says how many are lent.
const SLOTS: usize = 512;

// The reply to a row.
fn show(out: &mut impl Write, text: &[u8], tokens: &Tokens, slots: usize) -> Result<()>
    requires { (tokens.now.count ≤ LineLimits.tokens) × (slots ≤ LineLimits.slots) }
{
    let row = Row {
        kinds: tokens.kinds(),
        types: tokens.types(),
    };
    let mut all_words = [UNUSED; SLOTS];
    let node_words = &mut all_words[..slots];
    let reply = expressions::parse_expression(&row, node_words, TokenId(0), 0, Limit::Nesting);
    let shown = Shown {
        nodes: &*node_words,
        count: node_count(reply) as usize,
    };
    out.write_all(text)?;
    writeln!(out, ": {}{shown}", Reply(reply))
}

fn show_line(out: &mut impl Write, line: &[u8], tokens: &mut Tokens) -> Result<()> {
    if !lines::is_row(line) {
        out.write_all(line)?;
        return out.write_all(b"\n");
    }
    match row_text::read_row(line, tokens) {
        Ok(row) => show(out, row.text, tokens, row.slots),
        Err(_) => out.write_all(b"bad line\n"),
    }
}

fn main(rt: HostRuntime) -> Result<()> {
    let mut out = Unfailing(rt.stdout());
    let mut buffer = io::large_buffer();
    let Some(input) = row_text::read_input(&mut buffer) else {
        return out.write_all(b"bad file\n");
    };
    let mut tokens = Tokens::new();
    row_text::show_lines(input, |line| show_line(&mut out, line, &mut tokens))
}
