// The rows of standard input by the five entries. For each row: its text, the reply as penne-nodes has it, whether the
// frame was kept, and the nodes that were appended. A line that is empty or begins with `#` is printed as it is. Others
// are
//
//     TEXT # ENTRY SETTINGS : WORD WORD ..
//
// TEXT and the words are those of crate row_text, ENTRY and the settings those of question.rt. The frame is kept where
// every slot below the given node count and from the replied one on holds what it held before the call (crate
// node_slots).
#![tactic(auto)]

ghost use Rattle.std.specs.Prelude.{◌≤◌, length};
ghost use Rattle.node_slots.specs.SlotLimits as SlotLimits;
ghost use Rattle.entry_rows.specs.Fits.{SizesFit};

mod question;

use codes::{Parsed, TokenId, node_count};
use node_slots::{Appended, SLOTS, fill, kept};
use penne::{
    parse_constant_declaration, parse_expression, parse_struct_declaration, parse_type,
    parse_word_declaration,
};
use question::{Entry, Question, Row, Sizes};
use row_text::Tokens;
use show::{Columns, Reply, Unfailing};
use std::io::{Result, Write};

// The most bytes of the input, and one more.
const INPUT: usize = 524_288;

// What the entry replies to the question about a row, with these node kinds and loads lent to it. By a match, since the
// entries take different parameters.
fn ask(
    question: Question,
    tokens: &tokens::Row<'_>,
    nodes: &mut [u8],
    loads: &mut [u32],
) -> Parsed {
    let Question {
        entry,
        cursor,
        count,
        start,
        flags,
        kind,
    } = question;
    let tokens::Row { kinds, types } = *tokens;
    let cursor = TokenId(cursor);
    let start = TokenId(start);
    match entry {
        Entry::Expression => parse_expression(kinds, types, cursor, nodes, loads, count),
        Entry::Type => parse_type(kinds, types, cursor, nodes, loads, count),
        Entry::Constant => {
            parse_constant_declaration(kinds, types, cursor, nodes, loads, count, start, flags)
        }
        Entry::Struct => {
            parse_struct_declaration(kinds, types, cursor, nodes, loads, count, start, flags)
        }
        Entry::Word => {
            parse_word_declaration(
                kinds, types, cursor, nodes, loads, count, start, flags, kind,
            )
        }
    }
}

// The reply of an entry that is lent these columns, and what it did to them.
fn show(
    out: &mut impl Write,
    question: Question,
    tokens: &tokens::Row<'_>,
    node_kinds: &mut [u8],
    node_loads: &mut [u32],
) -> Result<()>
    requires { (length node_kinds.old ≤ SlotLimits.slots) × (length node_loads.old ≤ SlotLimits.slots) }
{
    fill(node_kinds);
    fill(node_loads);
    let reply = ask(question, tokens, node_kinds, node_loads);
    let given = question.count as usize;
    let replied = node_count(reply) as usize;
    let frame = if kept(node_kinds, given, replied) && kept(node_loads, given, replied) {
        "frame kept"
    } else {
        "FRAME BROKEN"
    };
    let columns = Columns {
        kinds: node_kinds,
        loads: node_loads,
    };
    let appended = Appended::new(columns, given, replied);
    writeln!(out, "{}, {frame}{appended}", Reply(reply))
}

// The text of a row, and the reply to it. The two node columns are no struct: an entry is lent both at once, and of a
// struct a proof lends one field at a time.
fn show_row(
    out: &mut impl Write,
    row: Row<'_>,
    tokens: &Tokens,
    node_kinds: &mut [u8; SLOTS],
    node_loads: &mut [u32; SLOTS],
) -> Result<()>
    requires { SizesFit row.sizes }
{
    let Sizes {
        types,
        slots,
        loads,
    } = row.sizes;
    let tokens = tokens::Row {
        kinds: tokens.kinds(),
        types: tokens.first_types(types),
    };
    out.write_all(row.text)?;
    out.write_all(b": ")?;
    show(
        out,
        row.question,
        &tokens,
        &mut node_kinds[..slots],
        &mut node_loads[..loads],
    )
}

fn show_line(
    out: &mut impl Write,
    line: &[u8],
    tokens: &mut Tokens,
    node_kinds: &mut [u8; SLOTS],
    node_loads: &mut [u32; SLOTS],
) -> Result<()> {
    if !lines::is_row(line) {
        out.write_all(line)?;
        return out.write_all(b"\n");
    }
    match question::read_row(line, tokens) {
        Ok(row) => show_row(out, row, tokens, node_kinds, node_loads),
        Err(_) => out.write_all(b"bad line\n"),
    }
}

// The columns stand here once, and are lent to each row.
fn main(rt: HostRuntime) -> Result<()> {
    let mut out = Unfailing(rt.stdout());
    let mut tokens = Tokens::new();
    let mut node_kinds = [0; SLOTS];
    let mut node_loads = [0; SLOTS];
    let mut buffer = [0; INPUT];
    let Some(input) = row_text::read_input(&mut buffer) else {
        return out.write_all(b"bad file\n");
    };
    row_text::show_lines(input, |line| {
        show_line(
            &mut out,
            line,
            &mut tokens,
            &mut node_kinds,
            &mut node_loads,
        )
    })
}
