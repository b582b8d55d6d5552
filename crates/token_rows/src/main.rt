// Rows of every length from 1 to 40 whose tokens are good but for two, at every pair of places: one has a kind that is
// tried, the other one a value type. It is asked of crate kinds whether all tokens pass, and of
// parse_expression for the first bad token. A line for each length: the tokens, and how many rows were answered right.
// With n tokens there are 14 n n rows: 7 kinds, of which 6 are bad, and 2 value types, of which one is bad, at n places
// each.
#![tactic(auto)]

ghost use Rattle.std.specs.Prelude.{◌≤◌, ◌<◌};

use codes::{BaseToken, Refusal, TokenId, ValueTypeKeyword};
use kinds::tokens_pass;
use show::Unfailing;
use std::io::{Result, Write};

// The longest row.
const TOKENS: usize = 40;

// The last kind, which is good, and bad ones.
const KINDS: [u8; 7] = [BaseToken::Error, 62, 63, 127, 128, 190, 255];

// The last value type, which is good, and the one after it.
const TYPES: [u8; 2] = [ValueTypeKeyword::Bool, 15];

// The row's first bad token by refusal 2, none where another reply is given.
fn found(kinds: &[u8], types: &[u8]) -> Option<usize> {
    let mut node_kinds = [0u8; 4];
    let mut node_loads = [0u32; 4];
    let reply = penne::parse_expression(
        kinds,
        types,
        TokenId(0),
        &mut node_kinds,
        &mut node_loads,
        0,
    );
    match reply {
        Err(error) if error.number == Refusal::BadToken => Some(error.start.0 as usize),
        _ => None,
    }
}

// Whether the row is answered right that has this kind and this value type at these places, and the last ones
// elsewhere. The length and the places are numbers of loops, so that clauses say their bounds, and no struct.
fn is_right(length: usize, kind_place: usize, type_place: usize, kind: u8, value_type: u8) -> bool
    requires { (length ≤ 40) × (kind_place < length) × (type_place < length) }
{
    let mut kinds = [BaseToken::Error; TOKENS];
    let mut types = [ValueTypeKeyword::Bool; TOKENS];
    kinds[kind_place] = kind;
    types[type_place] = value_type;
    let kinds = &kinds[..length];
    let types = &types[..length];
    let bad_kind = (kind > BaseToken::Error).then_some(kind_place);
    let bad_type = (value_type > ValueTypeKeyword::Bool).then_some(type_place);
    let first = bad_kind.into_iter().chain(bad_type).min();
    let passed = tokens_pass(kinds, types, BaseToken::Error, ValueTypeKeyword::Bool);
    passed == first.is_none() && found(kinds, types) == first
}

// How many rows with tokens at these places are answered right, over each kind with each value type. These are numbered,
// since a proof knows how many numbers a range has, and not how many pairs two tables give.
fn by_choice(length: usize, kind_place: usize, type_place: usize) -> usize
    requires { (length ≤ 40) × (kind_place < length) × (type_place < length) }
    ensures { result ≤ 14 }
{
    (0..KINDS.len() * TYPES.len())
        .filter(|choice| {
            let kind = KINDS[*choice % KINDS.len()];
            let value_type = TYPES[*choice / KINDS.len()];
            is_right(length, kind_place, type_place, kind, value_type)
        })
        .count()
}

// The same over all places of the value type. Not the sum of a map: a proof knows no bound of what its closure returns.
fn by_type_place(length: usize, kind_place: usize) -> usize
    requires { (length ≤ 40) × (kind_place < length) }
    ensures { result ≤ 560 }
{
    let mut right = 0;
    for type_place in 0..length {
        right += by_choice(length, kind_place, type_place);
    }
    right
}

// The same over all places of both. It stays apart from the one above, which needs a bound of its result, and this none.
fn by_kind_place(length: usize) -> usize
    requires { length ≤ 40 }
{
    let mut right = 0;
    for kind_place in 0..length {
        right += by_type_place(length, kind_place);
    }
    right
}

fn main(rt: HostRuntime) -> Result<()> {
    let mut out = Unfailing(rt.stdout());
    for length in 1..=TOKENS {
        writeln!(out, "{length} {}", by_kind_place(length))?;
    }
    Ok(())
}
