// What the test programs print of a parse, as texts: the reply, and the nodes; and the writer that they print by.
#![tactic(auto)]

ghost use Rattle.std.specs.Prelude.{◌<◌, ◌≡◌, List, length, take, slice_get, map, Some};
ghost use Rattle.codes.specs.declared.Node.{Node};
ghost use Rattle.show.specs.Shown.{reply_text, nodes_text, node_of, nodes_in};

use codes::{Node, Parsed};
use std::fmt;

mod writer;

pub use writer::Unfailing;

// What a test's slot holds before a node is appended there: a kind that no node has, and load 0.
pub const UNUSED: u32 = 255;

// `ok` or `no` and the reply's numbers, as penne-nodes has them.
#[derive(Clone, Copy)]
pub struct Reply(pub Parsed);

impl fmt::Display for Reply {
    ghost output = { λ reply. Some (reply_text reply.0) };

    fn fmt<W: fmt::Write>(&self, f: &mut fmt::Formatter<W>) -> fmt::Result {
        match self.0 {
            Ok(read) => { write!(f, "ok {} {} {}", read.value.0, read.cursor.0, read.count) }
            Err(error) => {
                write!(f, "no {} {} {}", error.number, error.start.0, error.end.0)?;
                write!(f, " {} {}", error.cursor.0, error.count)
            }
        }
    }
}

// Nodes in a row, by their places, and not as an iterator: a text is written through a shared reference, by which no
// iterator moves on.
pub trait Nodes {
    ghost listed: { Self → List Node };

    fn count(&self) -> usize
        ensures { result ≡ length (listed self.now) };

    fn node(&self, place: usize) -> Node
        requires { place < length (listed self.now) }
        ensures { slice_get (listed self.now) place ≡ Some result };
}

// Nodes in a column, each a word.
impl Nodes for &[u32] {
    ghost listed = { λ words. map node_of words.now };

    fn count(&self) -> usize {
        self.len()
    }

    fn node(&self, place: usize) -> Node {
        // As packing::unpack has it; a call of that would take crate packing for this line alone.
        let word = self[place];
        Node(codes::word_kind(word), codes::word_load(word))
    }
}

// Nodes in two columns, as far as both have slots.
#[derive(Clone, Copy)]
pub struct Columns<'a> {
    pub kinds: &'a [u8],
    pub loads: &'a [u32],
}

#[tactic(auto, using(crate::proofs::Laws::nodes_counted, crate::proofs::Laws::node_found))]
impl Nodes for Columns<'_> {
    ghost listed = { λ columns. nodes_in columns.kinds.now columns.loads.now };

    fn count(&self) -> usize {
        self.kinds.len().min(self.loads.len())
    }

    fn node(&self, place: usize) -> Node {
        Node(self.kinds[place], self.loads[place])
    }
}

// The nodes below the count, as far as there are any: the kind and the load of each, after a comma.
#[derive(Clone, Copy)]
pub struct Shown<N> {
    pub nodes: N,
    pub count: usize,
}

impl<N: Nodes> fmt::Display for Shown<N> {
    ghost output = { λ shown. Some (nodes_text (take shown.count (N.listed shown.nodes))) };

    fn fmt<W: fmt::Write>(&self, f: &mut fmt::Formatter<W>) -> fmt::Result {
        let nodes = &self.nodes;
        for place in 0..self.count.min(nodes.count()) {
            let Node(kind, load) = nodes.node(place);
            write!(f, ", {kind} {load}")?;
        }
        Ok(())
    }
}
