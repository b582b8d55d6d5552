// The five entries of crate penne for programs in C and in Rust, which pass numbers and slices only, and the table of
// parts. Each entry is lent a column `reply` and writes its reply into the first six places: see crate replies. Where the
// column has fewer places nothing is read or written, and the result is false. Nothing is asked of the input, and nothing
// is allocated. C calls each entry by its name, so each is written out.
#![tactic(auto)]

ghost use Rattle.std.specs.Prelude.{◌≡◌};
ghost use Rattle.codes.specs.Answer.{row, nodes};
ghost use Rattle.codes.specs.Parts.{part_number};
ghost use Rattle.penne.specs.Promise.{Expression, Type', Constant, Struct, Word};
ghost use Rattle.replies.specs.Reply.{written, Replied};

use codes::TokenId;
use replies::{PLACES, write};

// An expression from the cursor on.
#[unsafe(no_mangle)]
pub extern "C" fn penne_parse_expression(
    kinds: &[u8],
    types: &[u8],
    cursor: u32,
    node_kinds: &mut [u8],
    node_loads: &mut [u32],
    count: u32,
    reply: &mut [u32],
) -> bool
    ensures { Replied written
        (λ p. Expression (row kinds.now types.now) cursor
        (nodes node_kinds.old node_loads.old count) p node_kinds.new node_loads.new)
        ((node_kinds.new ≡ node_kinds.old) × (node_loads.new ≡ node_loads.old))
        reply.old result reply.new }
{
    if reply.len() < PLACES {
        return false;
    }
    let parsed = penne::parse_expression(
        kinds,
        types,
        TokenId(cursor),
        node_kinds,
        node_loads,
        count,
    );
    write(reply, parsed);
    true
}

// A type from the cursor on.
#[unsafe(no_mangle)]
pub extern "C" fn penne_parse_type(
    kinds: &[u8],
    types: &[u8],
    cursor: u32,
    node_kinds: &mut [u8],
    node_loads: &mut [u32],
    count: u32,
    reply: &mut [u32],
) -> bool
    ensures { Replied written
        (λ p. Type' (row kinds.now types.now) cursor
        (nodes node_kinds.old node_loads.old count) p node_kinds.new node_loads.new)
        ((node_kinds.new ≡ node_kinds.old) × (node_loads.new ≡ node_loads.old))
        reply.old result reply.new }
{
    if reply.len() < PLACES {
        return false;
    }
    let parsed = penne::parse_type(kinds, types, TokenId(cursor), node_kinds, node_loads, count);
    write(reply, parsed);
    true
}

// A constant, from its name on. Its declaration, with these flags, begins at the token `start`.
#[unsafe(no_mangle)]
pub extern "C" fn penne_parse_constant_declaration(
    kinds: &[u8],
    types: &[u8],
    cursor: u32,
    node_kinds: &mut [u8],
    node_loads: &mut [u32],
    count: u32,
    start: u32,
    flags: u32,
    reply: &mut [u32],
) -> bool
    ensures { Replied written
        (λ p. Constant (row kinds.now types.now) cursor
        (nodes node_kinds.old node_loads.old count) start flags
        p node_kinds.new node_loads.new)
        ((node_kinds.new ≡ node_kinds.old) × (node_loads.new ≡ node_loads.old))
        reply.old result reply.new }
{
    if reply.len() < PLACES {
        return false;
    }
    let parsed = penne::parse_constant_declaration(
        kinds,
        types,
        TokenId(cursor),
        node_kinds,
        node_loads,
        count,
        TokenId(start),
        flags,
    );
    write(reply, parsed);
    true
}

// A struct, from its name on. Its declaration, with these flags, begins at the token `start`.
#[unsafe(no_mangle)]
pub extern "C" fn penne_parse_struct_declaration(
    kinds: &[u8],
    types: &[u8],
    cursor: u32,
    node_kinds: &mut [u8],
    node_loads: &mut [u32],
    count: u32,
    start: u32,
    flags: u32,
    reply: &mut [u32],
) -> bool
    ensures { Replied written
        (λ p. Struct (row kinds.now types.now) cursor
        (nodes node_kinds.old node_loads.old count) start flags
        p node_kinds.new node_loads.new)
        ((node_kinds.new ≡ node_kinds.old) × (node_loads.new ≡ node_loads.old))
        reply.old result reply.new }
{
    if reply.len() < PLACES {
        return false;
    }
    let parsed = penne::parse_struct_declaration(
        kinds,
        types,
        TokenId(cursor),
        node_kinds,
        node_loads,
        count,
        TokenId(start),
        flags,
    );
    write(reply, parsed);
    true
}

// A word, from its name on, by its declaring token. Its declaration, with these flags, begins at the token `start`.
#[unsafe(no_mangle)]
pub extern "C" fn penne_parse_word_declaration(
    kinds: &[u8],
    types: &[u8],
    cursor: u32,
    node_kinds: &mut [u8],
    node_loads: &mut [u32],
    count: u32,
    start: u32,
    flags: u32,
    declaring_token: u8,
    reply: &mut [u32],
) -> bool
    ensures { Replied written
        (λ p. Word (row kinds.now types.now) cursor
        (nodes node_kinds.old node_loads.old count) start flags declaring_token
        p node_kinds.new node_loads.new)
        ((node_kinds.new ≡ node_kinds.old) × (node_loads.new ≡ node_loads.old))
        reply.old result reply.new }
{
    if reply.len() < PLACES {
        return false;
    }
    let parsed = penne::parse_word_declaration(
        kinds,
        types,
        TokenId(cursor),
        node_kinds,
        node_loads,
        count,
        TokenId(start),
        flags,
        declaring_token,
    );
    write(reply, parsed);
    true
}

// The code of a node's part by the node's kind and the part's place, counted from 0: k for the node k back, 9 for the one
// that the load names, 0 where there is none.
#[unsafe(no_mangle)]
pub extern "C" fn penne_part(kind: u8, which: u8) -> u8
    ensures { result ≡ part_number kind which }
{
    codes::part(kind, which)
}
