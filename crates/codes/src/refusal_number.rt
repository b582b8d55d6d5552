// The refusals by number: MANUAL.md, Refusals.
#[derive(Clone, Copy)]
pub struct Refusal(pub u32);

impl Refusal {
    // A row whose two columns do not match, or with no token, or with too many.
    pub const BadRow: u32 = 1;

    // A code that is no kind of a token, or no value type.
    pub const BadToken: u32 = 2;

    // The last kind is not EndOfSource.
    pub const NoEndOfSource: u32 = 3;

    // A wrong token was taken; the name says what was expected. So on to ExpectedPrimary.
    pub const ExpectedAssignment: u32 = 10;

    pub const ExpectedBraceLeft: u32 = 11;

    pub const ExpectedBraceRight: u32 = 12;

    pub const ExpectedBracketRight: u32 = 13;

    pub const ExpectedParenLeft: u32 = 14;

    pub const ExpectedParenRight: u32 = 15;

    pub const ExpectedPipe: u32 = 16;

    pub const ExpectedSemicolon: u32 = 17;

    pub const ExpectedIdentifier: u32 = 18;

    // A naked decimal, an identifier, `]`, `:` or `..`.
    pub const ExpectedArraySize: u32 = 19;

    // The start of a type.
    pub const ExpectedType: u32 = 20;

    // The start of a primary expression.
    pub const ExpectedPrimary: u32 = 21;

    // A constant without a type: what follows its name is no colon, and stays untaken.
    pub const MissingConstantType: u32 = 22;

    // A member without a type, likewise.
    pub const MissingMemberType: u32 = 23;

    // A reference with more ampersands or steps than may be.
    pub const MaximumParseDepthExceeded: u32 = 24;

    // No comma after a member.
    pub const ExpectedComma: u32 = 25;

    // The cursor, or the start of a declaration, is no token of the row.
    pub const BadCursor: u32 = 30;

    // Node columns that do not match, or with too many slots.
    pub const BadColumns: u32 = 31;

    // More nodes than slots.
    pub const BadCount: u32 = 32;

    // No slot is left for the next node.
    pub const NoSlot: u32 = 33;

    // One expression or inner type more than may be open at once.
    pub const NestingExceeded: u32 = 34;

    // Flags that are no sum of the five.
    pub const BadFlags: u32 = 35;

    // A declaring token that is none of those of words.
    pub const BadWordKind: u32 = 36;

    // A load that does not fit a word.
    pub const LoadTooLarge: u32 = 56;
}
