// The limits: MANUAL.md, Limits.
#[derive(Clone, Copy)]
pub struct Limit(pub u32);

impl Limit {
    // The most tokens of a row.
    pub const Tokens: u32 = 65535;

    // The most slots of the node columns.
    pub const Slots: u32 = 131075;

    // The largest load of a word, which has 24 bits for it.
    pub const Load: u32 = 16777215;

    // All declaration flags together.
    pub const Flags: u32 = 31;

    // Expressions and inner types that may be open at once.
    pub const Nesting: u32 = 40;

    // The Rust's MAX_ADDRESS_DEPTH: the most ampersands.
    pub const AddressDepth: u32 = 127;

    // The Rust's MAX_REFERENCE_DEPTH: after so many steps a reference is refused.
    pub const ReferenceDepth: u32 = 127;
}
