// What is written for an input.
ghost use Rattle.std.specs.Prelude.{◌≤◌, ◌+◌, ◌*◌, ◌≡◌, length};
ghost use Rattle.codes.specs.Answer.{nodes};
ghost use Rattle.penne_nodes.specs.Input.{program_slots};
ghost use Rattle.penne_nodes.specs.Output.{Answers};
ghost use Rattle.penne_nodes.specs.Parses.{Parses};
ghost use Rattle.penne_nodes.specs.Question.{rule_of};
ghost use Rattle.node_text.specs.Puts.{Room};

use crate::question::{Entry, Question};
use codes::{Parsed, node_count};
use node_text::TextBuffer;

// The slots of the node columns.
pub const SLOTS: usize = 8197;

// The bytes of the longest output, counting ten digits for each number: a reply of at most 64, and 33 for each node.
pub const OUTPUT: usize = 270_565;

// The reply to a question. By a match, since each entry has a promise of its own. The node columns are two parameters, as
// the entries have them.
fn parse(question: &Question<'_>, node_kinds: &mut [u8], node_loads: &mut [u32]) -> Parsed
    requires { (length node_kinds.old ≡ program_slots)
        × (length node_loads.old ≡ program_slots) }
    ensures { Parses (rule_of question.now) question.now.cursor.0
        node_kinds.old node_loads.old result node_kinds.new node_loads.new }
{
    let Question { entry, row, cursor } = *question;
    match entry {
        Entry::Expression => {
            penne::parse_expression(row.kinds, row.types, cursor, node_kinds, node_loads, 0)
        }
        Entry::Type => penne::parse_type(row.kinds, row.types, cursor, node_kinds, node_loads, 0),
    }
}

// What is written for the input, at the start of a buffer; the result is its end. The rest of the buffer is kept, and the
// node columns are those of the parse.
pub fn answer(bytes: &[u8], node_kinds: &mut [u8], node_loads: &mut [u32], out: &mut [u8]) -> usize
    requires columns { (length node_kinds.old ≡ program_slots)
        × (length node_loads.old ≡ program_slots) }
    requires room { Room out.old 0 (64 + 33 * program_slots) }
    ensures answers { Answers bytes.now (nodes node_kinds.old node_loads.old 0)
        out.old out.new result node_kinds.new node_loads.new }
    ensures within { result ≤ length out.new }
{
    let mut text = TextBuffer::new(out);
    let Some(question) = Question::from_bytes(bytes) else {
        text.put_bad_file();
        return text.end;
    };
    let reply = parse(&question, node_kinds, node_loads);
    text.put_reply(reply);
    text.put_nodes(node_kinds, node_loads, node_count(reply));
    text.end
}
