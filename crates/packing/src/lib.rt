// A node as one word, and back, for whoever moves nodes between columns and words.
#![tactic(auto)]

ghost use Rattle.std.specs.Prelude.{◌≡◌};
ghost use Rattle.packing.specs.Answer.{packing, unpacking};

use codes::{Limit, Node, ParseResult, ParsingError, Refusal, TokenId};

// The word of a node, or the refusal of a load that does not fit it. Neither this nor the way back is a From: Node is of
// crate codes, and u32 of the language. In codes it would be a third function beside word_kind and word_load, which stay,
// since an entry with columns takes a word's kind and load apart.
pub fn pack(node: Node) -> ParseResult<u32>
    ensures { result ≡ packing node.0 node.1 }
{
    let Node(kind, load) = node;
    if load > Limit::Load {
        return Err(ParsingError {
            number: Refusal::LoadTooLarge,
            cursor: TokenId(0),
            count: 0,
            start: TokenId(0),
            end: TokenId(0),
        });
    }
    Ok(codes::word(kind, load))
}

// The node of a word.
pub fn unpack(word: u32) -> Node
    ensures { result ≡ unpacking word }
{
    Node(codes::word_kind(word), codes::word_load(word))
}
