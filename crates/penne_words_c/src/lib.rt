// The five entries of crate penne with a word a node, and packing, for programs in C and in Rust, which pass numbers and
// slices only. Each function is lent a column `reply` and writes its reply into the first six places: see crate replies.
// Where the column has fewer places nothing is read or written, and the result is false. Nothing is asked of the input,
// and nothing is allocated. C calls each function by its name, so each is written out.
#![tactic(auto)]

ghost use Rattle.std.specs.Prelude.{◌≡◌};
ghost use Rattle.codes.specs.Answer.{row};
ghost use Rattle.penne.specs.Words.{ExpressionWords, TypeWords, ConstantWords, StructWords, WordWords};
ghost use Rattle.replies.specs.Reply.{written, written_word, Replied};
ghost use Rattle.rules.specs.Words.{word_kind, word_load};
ghost use Rattle.packing.specs.Answer.{packing};

use codes::{Node, TokenId};
use replies::{PLACES, write, write_word};

// An expression from the cursor on.
#[unsafe(no_mangle)]
pub extern "C" fn penne_words_parse_expression(
    kinds: &[u8],
    types: &[u8],
    cursor: u32,
    node_words: &mut [u32],
    count: u32,
    reply: &mut [u32],
) -> bool
    ensures { Replied written
        (λ p. ExpressionWords (row kinds.now types.now) cursor
        node_words.old count p node_words.new)
        (node_words.new ≡ node_words.old) reply.old result reply.new }
{
    if reply.len() < PLACES {
        return false;
    }
    let parsed = penne::parse_expression_words(kinds, types, TokenId(cursor), node_words, count);
    write(reply, parsed);
    true
}

// A type from the cursor on.
#[unsafe(no_mangle)]
pub extern "C" fn penne_words_parse_type(
    kinds: &[u8],
    types: &[u8],
    cursor: u32,
    node_words: &mut [u32],
    count: u32,
    reply: &mut [u32],
) -> bool
    ensures { Replied written
        (λ p. TypeWords (row kinds.now types.now) cursor
        node_words.old count p node_words.new)
        (node_words.new ≡ node_words.old) reply.old result reply.new }
{
    if reply.len() < PLACES {
        return false;
    }
    let parsed = penne::parse_type_words(kinds, types, TokenId(cursor), node_words, count);
    write(reply, parsed);
    true
}

// A constant, from its name on. Its declaration, with these flags, begins at the token `start`.
#[unsafe(no_mangle)]
pub extern "C" fn penne_words_parse_constant_declaration(
    kinds: &[u8],
    types: &[u8],
    cursor: u32,
    node_words: &mut [u32],
    count: u32,
    start: u32,
    flags: u32,
    reply: &mut [u32],
) -> bool
    ensures { Replied written
        (λ p. ConstantWords (row kinds.now types.now) cursor start flags
        node_words.old count p node_words.new)
        (node_words.new ≡ node_words.old) reply.old result reply.new }
{
    if reply.len() < PLACES {
        return false;
    }
    let parsed = penne::parse_constant_declaration_words(
        kinds,
        types,
        TokenId(cursor),
        node_words,
        count,
        TokenId(start),
        flags,
    );
    write(reply, parsed);
    true
}

// A struct, from its name on. Its declaration, with these flags, begins at the token `start`.
#[unsafe(no_mangle)]
pub extern "C" fn penne_words_parse_struct_declaration(
    kinds: &[u8],
    types: &[u8],
    cursor: u32,
    node_words: &mut [u32],
    count: u32,
    start: u32,
    flags: u32,
    reply: &mut [u32],
) -> bool
    ensures { Replied written
        (λ p. StructWords (row kinds.now types.now) cursor start flags
        node_words.old count p node_words.new)
        (node_words.new ≡ node_words.old) reply.old result reply.new }
{
    if reply.len() < PLACES {
        return false;
    }
    let parsed = penne::parse_struct_declaration_words(
        kinds,
        types,
        TokenId(cursor),
        node_words,
        count,
        TokenId(start),
        flags,
    );
    write(reply, parsed);
    true
}

// A word, from its name on, by its declaring token. Its declaration, with these flags, begins at the token `start`.
#[unsafe(no_mangle)]
pub extern "C" fn penne_words_parse_word_declaration(
    kinds: &[u8],
    types: &[u8],
    cursor: u32,
    node_words: &mut [u32],
    count: u32,
    start: u32,
    flags: u32,
    declaring_token: u8,
    reply: &mut [u32],
) -> bool
    ensures { Replied written
        (λ p. WordWords (row kinds.now types.now) cursor start flags declaring_token
        node_words.old count p node_words.new)
        (node_words.new ≡ node_words.old) reply.old result reply.new }
{
    if reply.len() < PLACES {
        return false;
    }
    let parsed = penne::parse_word_declaration_words(
        kinds,
        types,
        TokenId(cursor),
        node_words,
        count,
        TokenId(start),
        flags,
        declaring_token,
    );
    write(reply, parsed);
    true
}

// The word of a node of this kind and load, or the refusal of a load that does not fit it. The word stands where an
// acceptance has its root.
#[unsafe(no_mangle)]
pub extern "C" fn penne_pack(kind: u8, load: u32, reply: &mut [u32]) -> bool
    ensures { Replied written_word (λ p. p ≡ packing kind load) (Unit {0})
        reply.old result reply.new }
{
    if reply.len() < PLACES {
        return false;
    }
    write_word(reply, packing::pack(Node(kind, load)));
    true
}

// The kind of a word.
#[unsafe(no_mangle)]
pub extern "C" fn penne_unpack_kind(word: u32) -> u8
    ensures { result ≡ word_kind word }
{
    codes::word_kind(word)
}

// The load of a word.
#[unsafe(no_mangle)]
pub extern "C" fn penne_unpack_load(word: u32) -> u32
    ensures { result ≡ word_load word }
{
    codes::word_load(word)
}
