// The node columns before and after an entry: the slots are filled with what no entry writes, so that a slot that was
// written is told from one that was not.
#![tactic(auto)]

ghost use Rattle.std.specs.Prelude.{ℕ, ◌<◌, ◌≡◌, length, Some};
ghost use Rattle.node_slots.specs.Kept.{old_kind, old_load, Filled, kept_slot, kept};
ghost use Rattle.node_slots.specs.Appended.{mix, checksum, appended_text, end_of, appended_slots};
ghost use Rattle.node_slots.specs.SlotLimits as SlotLimits;

use show::{Columns, Nodes, Shown};
use std::fmt;

// The slots of a column: one more than an entry takes.
pub const SLOTS: usize = 131_076;

// The kinds that slots hold before a call, in turn: so many from this one on, above the kind of any node.
const FIRST_KIND: u8 = 128;

const KINDS: usize = 128;

// The loads that slots hold before a call, from this one on: above any token number, node number, count or code.
const FIRST_LOAD: u32 = 4_000_000_000;

// So many nodes are printed one by one; of more than these, their number and a checksum.
const MOST_PRINTED: usize = 512;

// The checksum is 0 at first. With each kind, and then its load, it is multiplied by the factor, and the number is
// added, modulo the largest prime below 2^32.
const MODULUS: u64 = 4_294_967_291;

const FACTOR: u64 = 65_537;

// What a slot of a column holds before the call, by its place.
pub trait Slot: Copy + PartialEq {
    ghost old: { ℕ → Self };

    // The places at which that is told.
    ghost is_told: { ℕ → Type 0 };

    fn old(slot: usize) -> Self
        requires { is_told slot }
        ensures { result ≡ old slot };
}

// A kind.
impl Slot for u8 {
    ghost old = { old_kind };

    ghost is_told = { λ slot. Unit {0} };

    fn old(slot: usize) -> u8 {
        FIRST_KIND + (slot % KINDS) as u8
    }
}

// A load.
impl Slot for u32 {
    ghost old = { old_load };

    ghost is_told = { λ slot. slot < SlotLimits.slots };

    fn old(slot: usize) -> u32 {
        FIRST_LOAD + slot as u32
    }
}

// Every slot holds what it holds before a call.
pub fn fill<T: Slot>(column: &mut [T])
    requires { (slot : ℕ) → slot < length column.old → T.is_told slot }
    ensures column_len_unchanged { length column.new ≡ length column.old }
    ensures filled { Filled T.old column.new }
{
    for (slot, held) in column.iter_mut().enumerate() {
        *held = T::old(slot);
    }
}

// Whether a slot holds what it held before the call, or is one that the call may write.
fn slot_kept(same: bool, slot: usize, given: usize, replied: usize) -> bool
    ensures { result ≡ kept_slot same slot given replied }
{
    same || (given..replied).contains(&slot)
}

// Whether the slots below the given count and from the replied count on hold what they held before the call.
pub fn kept<T: Slot>(column: &[T], given: usize, replied: usize) -> bool
    requires { (slot : ℕ) → slot < length column.now → T.is_told slot }
    ensures { result ≡ kept T.eq T.old column.now given replied }
{
    let mut slots = column.iter().enumerate();
    slots.all(|(slot, held)| slot_kept(*held == T::old(slot), slot, given, replied))
}

// The checksum with one more number. The remainders before the sum keep it within 64 bits.
fn mix(sum: u64, more: u64) -> u64
    ensures { result ≡ mix sum more }
{
    (sum % MODULUS * FACTOR + more % MODULUS) % MODULUS
}

// The checksum over kind and load of each node.
fn checksum(kinds: &[u8], loads: &[u32]) -> u64
    ensures { result ≡ checksum kinds.now loads.now }
{
    kinds.iter().zip(loads).fold(0, |sum, (kind, load)| {
        mix(mix(sum, u64::from(*kind)), u64::from(*load))
    })
}

// The nodes that a call appended: one by one, or their number and checksum.
#[derive(Clone, Copy)]
pub struct Appended<'a>(Columns<'a>);

impl<'a> Appended<'a> {
    // The nodes from the given count up to the replied one, as far as both columns have slots.
    pub fn new(columns: Columns<'a>, given: usize, replied: usize) -> Appended<'a>
        ensures kinds { result.0.kinds.now ≡ appended_slots given
            (end_of replied columns.entry.kinds.now columns.entry.loads.now) columns.entry.kinds.now }
        ensures loads { result.0.loads.now ≡ appended_slots given
            (end_of replied columns.entry.kinds.now columns.entry.loads.now) columns.entry.loads.now }
    {
        let Columns { kinds, loads } = columns;
        let to = replied.min(kinds.len()).min(loads.len());
        let from = given.min(to);
        Appended(Columns {
            kinds: &kinds[from..to],
            loads: &loads[from..to],
        })
    }
}

impl fmt::Display for Appended<'_> {
    ghost output = { λ appended. Some (appended_text appended.0.kinds.now appended.0.loads.now) };

    fn fmt<W: fmt::Write>(&self, f: &mut fmt::Formatter<W>) -> fmt::Result {
        let nodes = self.0;
        let count = nodes.count();
        if count <= MOST_PRINTED {
            write!(f, "{}", Shown { nodes, count })
        } else {
            let checksum = checksum(nodes.kinds, nodes.loads);
            write!(f, ", nodes {count}, checksum {checksum}")
        }
    }
}
