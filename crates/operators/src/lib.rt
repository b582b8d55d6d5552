// Operators between operands and before one, after parse_addition, parse_rest_of_bitwise_expression,
// parse_rest_of_bitshift_operation, parse_multiplication and parse_unary_expression of the Rust's parser.rs.
#![tactic(auto)]

ghost use Rattle.std.specs.Prelude.{◌≡◌, ◌+◌, ◌≤◌};
ghost use Rattle.rules.specs.Codes.Limit as Limits;
ghost use Rattle.rules.specs.Words.{words};
ghost use Rattle.rules.specs.Expressions.{first, binary, prefix, joined_to, takes_unary};
ghost use Rattle.codes.specs.Words.{Gives, Untyped, nodes};
ghost use Rattle.nodes.specs.Answer.{WithinSlots};
ghost use Rattle.operators.specs.Answer.{Fits, Next, pend, factor_operators, term_operators, followers, among};
ghost use Rattle.operators.specs.Answer.{meaning, joint, after_operand, factor_joined, term_joined};

use codes::{BaseToken, BinaryOp, Node, NodeId, ParseNode, Parsed, ParsingError, Read, TokenId};
use nodes::{push_older_node, push_two};
use tokens::Row;

// Stands for an operator's code where there is none: the number after the last code.
pub const NO_OPERATOR: u32 = 11;

// What the operand that is read next is joined with: an operator, what stands left of it, and its token's place. The
// operator is a number, and no enum, since each function here takes any that fits a load. Where it is NO_OPERATOR, the
// operand is the first, and the other two say nothing: an Option takes 7 in 100 instructions more on a sum. That all
// three fit a load stands in the contracts, as `Fits`, since `after_operand` in specs/ makes a Pending of any numbers.
#[derive(Clone, Copy)]
pub struct Pending {
    pub op: u32,
    pub left: NodeId,
    pub at: TokenId,
}

// After an operand and what it is joined with: another one is to be read, the whole is read, or it is refused. It is no
// Result of an Option: with that a sum takes 2 in 100 instructions more, and a mixed row 1 in 100.
#[derive(Clone, Copy)]
pub enum Joint {
    More(Read<Pending>),
    Last(Read<NodeId>),
    Refused(ParsingError),
}

// Before the first operand.
#[tactic(auto, unfolding(crate::specs::Answer::pend))]
pub fn no_pending() -> Pending
    ensures { (pend result ≡ first) × Fits result }
{
    Pending {
        op: NO_OPERATOR,
        left: NodeId(0),
        at: TokenId(0),
    }
}

// Whether the operand that is read next is a unary, and not a product.
#[tactic(auto, unfolding(crate::specs::Answer::pend))]
pub fn takes_unary(pending: Pending) -> bool
    ensures { result ≡ takes_unary (pend pending) }
{
    matches!(
        pending.op,
        BinaryOp::BitwiseAnd
            | BinaryOp::BitwiseOr
            | BinaryOp::BitwiseXor
            | BinaryOp::ShiftLeft
            | BinaryOp::ShiftRight
    )
}

// The nodes of a binary operator, after its right operand.
pub fn push_binary(
    node_words: &mut [u32],
    cursor: TokenId,
    count: u32,
    pending: Pending,
    right: NodeId,
) -> Parsed
    requires { WithinSlots node_words.old count × Fits pending }
    ensures { Gives (binary words pending.at.0 pending.op pending.left.0 right.0) cursor.0
        (nodes node_words.old count) result node_words.new }
{
    let Pending { op, left, at } = pending;
    let Read { cursor, count, .. } = push_older_node(node_words, cursor, count, left)?;
    push_two(
        node_words,
        cursor,
        count,
        Node(ParseNode::BinaryOp, op),
        Node(ParseNode::Binary, at.0),
    )
}

// The operand that was read last is joined with what stands left of it.
fn push_pending(
    node_words: &mut [u32],
    cursor: TokenId,
    count: u32,
    right: NodeId,
    pending: Pending,
) -> Parsed
    requires { WithinSlots node_words.old count × Fits pending }
    ensures { Gives (joined_to words (pend pending) right.0) cursor.0
        (nodes node_words.old count) result node_words.new }
{
    if pending.op == NO_OPERATOR {
        Ok(Read {
            value: right,
            cursor,
            count,
        })
    } else {
        push_binary(node_words, cursor, count, pending, right)
    }
}

// The operator of a product that this token is, if it is one. Rust: parse_multiplication.
fn factor_operator(token: u8) -> Option<u32>
    ensures { result ≡ among factor_operators token }
{
    match token {
        BaseToken::Times => Some(BinaryOp::Multiply),
        BaseToken::Divide => Some(BinaryOp::Divide),
        BaseToken::Modulo => Some(BinaryOp::Modulo),
        _ => None,
    }
}

// The operator of a sum or after it that this token is, if it is one. Rust: parse_addition.
fn term_operator(token: u8) -> Option<u32>
    ensures { result ≡ among term_operators token }
{
    match token {
        BaseToken::Ampersand => Some(BinaryOp::BitwiseAnd),
        BaseToken::Pipe => Some(BinaryOp::BitwiseOr),
        BaseToken::Caret => Some(BinaryOp::BitwiseXor),
        BaseToken::ShiftLeft => Some(BinaryOp::ShiftLeft),
        BaseToken::ShiftRight => Some(BinaryOp::ShiftRight),
        BaseToken::Plus => Some(BinaryOp::Add),
        BaseToken::Minus => Some(BinaryOp::Subtract),
        _ => None,
    }
}

// The operator after an operand, by what that is joined with: a bitwise operator is followed by itself only, and a
// shift by none. Rust: parse_rest_of_bitwise_expression and parse_rest_of_bitshift_operation.
fn next_operator(pending: Pending, token: u8) -> Option<u32>
    ensures { result ≡ among (followers pending.op) token }
{
    let next = term_operator(token)?;
    let follows = match pending.op {
        BinaryOp::BitwiseAnd | BinaryOp::BitwiseOr | BinaryOp::BitwiseXor => next == pending.op,
        BinaryOp::ShiftLeft | BinaryOp::ShiftRight => false,
        _ => true,
    };
    follows.then_some(next)
}

// After an operand, which is joined: another one follows the operator whose token stands at the cursor, if there is one.
fn after_operand(operand: Read<NodeId>, op: Option<u32>) -> Joint
    requires { operand.cursor.0 ≤ Limits.Tokens + 1 }
    ensures { result ≡ after_operand operand op }
{
    let Some(op) = op else {
        return Joint::Last(operand);
    };
    let Read {
        value: left,
        cursor: at,
        count,
    } = operand;
    Joint::More(Read {
        value: Pending { op, left, at },
        cursor: TokenId(at.0 + 1),
        count,
    })
}

// After an operand of a product: it is joined, and the next operator is looked for. This function and the one below are
// two, since one for both would take the operators that may follow as a closure, whose contract is longer than the body.
pub fn join_factor(
    row: &Row<'_>,
    node_words: &mut [u32],
    cursor: TokenId,
    count: u32,
    right: NodeId,
    pending: Pending,
) -> Joint
    requires { WithinSlots node_words.old count × (cursor.0 ≤ Limits.Tokens + 1) ×
        (right.0 ≤ Limits.Load) × Fits pending }
    ensures { Untyped joint (factor_joined (pend pending) right.0) row.now.kinds.now cursor.0
        (nodes node_words.old count) (meaning result) node_words.new × Next result }
{
    match push_pending(node_words, cursor, count, right, pending) {
        Ok(whole) => after_operand(whole, factor_operator(row.peek(whole.cursor))),
        Err(error) => Joint::Refused(error),
    }
}

// The same of a sum, a bitwise operator or a shift.
pub fn join_term(
    row: &Row<'_>,
    node_words: &mut [u32],
    cursor: TokenId,
    count: u32,
    right: NodeId,
    pending: Pending,
) -> Joint
    requires { WithinSlots node_words.old count × (cursor.0 ≤ Limits.Tokens + 1) ×
        (right.0 ≤ Limits.Load) × Fits pending }
    ensures { Untyped joint (term_joined (pend pending) right.0) row.now.kinds.now cursor.0
        (nodes node_words.old count) (meaning result) node_words.new × Next result }
{
    match push_pending(node_words, cursor, count, right, pending) {
        Ok(whole) => after_operand(whole, next_operator(pending, row.peek(whole.cursor))),
        Err(error) => Joint::Refused(error),
    }
}

// The nodes of the unary operator, whose token is at `at`, after its operand.
pub fn push_prefix(
    node_words: &mut [u32],
    cursor: TokenId,
    count: u32,
    op: u32,
    at: TokenId,
    operand: NodeId,
) -> Parsed
    requires { WithinSlots node_words.old count × (op ≤ Limits.Load) × (at.0 ≤ Limits.Load) }
    ensures { Gives (prefix words at.0 op operand.0) cursor.0
        (nodes node_words.old count) result node_words.new }
{
    push_two(
        node_words,
        cursor,
        count,
        Node(ParseNode::UnaryOp, op),
        Node(ParseNode::Unary, at.0),
    )
}
