// Whether a kind of a row is above a limit, or a value type above another. Eight kinds are taken as one 64-bit word, the
// rest of the row by bytes; what a word is, and its test, stands in specs/Words.antt. Of a long row the value types are
// known by their largest, of a short one as kinds are.
#![tactic(auto)]

ghost use Rattle.std.specs.Prelude.{◌≡◌, ◌<◌, ◌&&◌, List, [], ◌∷◌, ◌++◌, ℕ, length, max, zip, nat_le, bit_or};
ghost use Rattle.std.specs.List.{concat, fold, list_all};
ghost use Rattle.kinds.specs.Above.{most_without_top, none_above, Alike};
ghost use Rattle.kinds.specs.Words as Test;
ghost use Rattle.kinds.specs.Words.{Holds, kinds_a_word, Joined};

// How many kinds a word has, or value types.
const KINDS: usize = 8;

// How many words are taken in a turn.
const WORDS: usize = 4;

// How many tokens that are.
const TOKENS: usize = 32;

// A word whose eight bytes are 1.
const ONES: u64 = 0x0101_0101_0101_0101;

// The top bits of a word's eight bytes.
const TOPS: u64 = 0x8080_8080_8080_8080;

// The largest byte without its top bit.
const MOST: u64 = 127;

// The largest byte of a column, 0 where it has none.
fn largest(column: &[u8]) -> u8
    ensures { result ≡ fold max 0 column.now }
{
    column.iter().fold(0, |most: u8, byte| most.max(*byte))
}

// Eight kinds as a word, the first in the lowest byte. It is compiled to one load.
fn word(kinds: &[u8; KINDS]) -> u64
    ensures holds { Holds kinds.now result }
    ensures size { length kinds.now ≡ kinds_a_word }
{
    u64::from_le_bytes(*kinds)
}

// A word with so much added to each byte that one above the limit gets its top bit set. The limit is a number with a
// clause, and no type, since rest_passes takes any.
fn sum(word: u64, limit: u8) -> u64
    requires { limit < most_without_top }
    ensures { result ≡ Test.sum limit word }
{
    word.wrapping_add((MOST - u64::from(limit)) * ONES)
}

// Whether some words pass their tests: no top bit is set, neither in a word nor in its sum. All words are put together
// first, and so are their sums.
fn words_pass(words: &[[u8; KINDS]], limit: u8) -> bool
    requires { limit < most_without_top }
    ensures { result ≡ none_above limit (concat words.now) }
{
    let mut tops: u64 = 0;
    let mut sums: u64 = 0;
    for kinds in words {
        let word = word(kinds);
        tops |= word;
        sums |= sum(word, limit);
    }
    (tops | sums) & TOPS == 0
}

// Whether none of some bytes is above the limit, one by one.
fn rest_passes(rest: &[u8], limit: u8) -> bool
    ensures { result ≡ list_all (λ kind. nat_le kind limit) rest.now }
{
    rest.iter().all(|kind| *kind <= limit)
}

// Whether no byte of a column is above the limit: by words, and the rest by bytes.
fn none_above(column: &[u8], limit: u8) -> bool
    requires { limit < most_without_top }
    ensures { result ≡ none_above limit column.now }
{
    let (words, rest) = column.as_chunks::<KINDS>();
    words_pass(words, limit) && rest_passes(rest, limit)
}

// Four words more. Each has a lane, a place of its own in a turn, where it is put together with those of the turns before
// it, and so are their sums. The lanes are counted, and not zipped, since of what is written through a zipped iterator a
// proof knows no value.
fn join_words(kinds: &[u8; TOKENS], limit: u8, tops: &mut [u64; WORDS], sums: &mut [u64; WORDS])
    requires { limit < most_without_top }
    ensures { (row : List ℕ) → Joined limit row tops.old sums.old → Joined limit (row ++ kinds.now) tops.new sums.new }
{
    let (words, _) = kinds.as_chunks::<KINDS>();
    for (lane, kinds) in words.iter().enumerate() {
        let word = word(kinds);
        tops[lane] |= word;
        sums[lane] |= sum(word, limit);
    }
}

// Thirty-two value types more. Each has a lane, which holds the largest of those of the turns so far. One function for
// this and join_words would take from its caller what is done with a lane, which is all that there is in either.
fn join_types(types: &[u8; TOKENS], most: &mut [u8; TOKENS])
    ensures { Alike most.new (most.old ++ types.now) }
{
    for (lane, value_type) in types.iter().enumerate() {
        most[lane] = most[lane].max(*value_type);
    }
}

// The words of all lanes put together, and their sums.
fn joined(tops: &[u64; WORDS], sums: &[u64; WORDS]) -> u64
    ensures { result ≡ fold (λ all pair. bit_or all (bit_or pair.0 pair.1)) 0 (zip tops.now sums.now) }
{
    tops.iter()
        .zip(sums)
        .fold(0, |all: u64, (top, sum)| all | (*top | *sum))
}

// Whether the tokens of some turns pass. The lanes are kept from turn to turn in a loop that has no way out but its end:
// it is compiled to vector instructions.
fn blocks_pass(kinds: &[[u8; TOKENS]], types: &[[u8; TOKENS]], limit: u8, type_limit: u8) -> bool
    requires { (length types.now ≡ length kinds.now) × (limit < most_without_top) }
    ensures { result ≡ none_above limit (concat kinds.now) && none_above type_limit (concat types.now) }
{
    if kinds.is_empty() {
        return true;
    }
    let mut tops = [0u64; WORDS];
    let mut sums = [0u64; WORDS];
    let mut most = [0u8; TOKENS];
    // Not by a zip of both, which takes 6 in 100 instructions more on a row of 65,535 tokens.
    for (block, kinds) in kinds.iter().enumerate() {
        join_types(&types[block], &mut most);
        join_words(kinds, limit, &mut tops, &mut sums);
    }
    joined(&tops, &sums) & TOPS == 0 && largest(&most) <= type_limit
}

// Whether the tokens after the last turn pass. They are few, so that their value types take fewer instructions by words
// than by their largest.
fn rest_tokens_pass(kinds: &[u8], types: &[u8], limit: u8, type_limit: u8) -> bool
    requires { (limit < most_without_top) × (type_limit < most_without_top) }
    ensures { result ≡ none_above limit kinds.now && none_above type_limit types.now }
{
    none_above(kinds, limit) && none_above(types, type_limit)
}

// Whether no kind is above its limit, and no value type above its own.
pub fn tokens_pass(kinds: &[u8], types: &[u8], limit: u8, type_limit: u8) -> bool
    requires { (length types.now ≡ length kinds.now) × (limit < most_without_top) × (type_limit < most_without_top) }
    ensures { result ≡ none_above limit kinds.now && none_above type_limit types.now }
{
    let (kind_blocks, kind_rest) = kinds.as_chunks::<TOKENS>();
    let (type_blocks, type_rest) = types.as_chunks::<TOKENS>();
    blocks_pass(kind_blocks, type_blocks, limit, type_limit)
        && rest_tokens_pass(kind_rest, type_rest, limit, type_limit)
}
