//! The tags of nodes.

ghost use Rattle.std.specs.Prelude.{◌≡◌};
ghost use Rattle.castor_code.specs.CodeForms.{op_number};
ghost use Rattle.castor_code.specs.CodeReadings.{code_tag, expr_tag};

use castor_alg::Op;

/// The nodes of codes. The tag of each is its number.
#[derive(Clone, Copy, Debug, PartialEq, Eq)]
pub enum CodeTag {
    Int = 1,
    Bool = 2,
    Text = 3,
    Cross = 4,
    Concat = 5,
    List = 6,
    Hash = 7,
    Ord = 8,
    Select = 9,
    Filter = 10,
    Dep = 11,
    Group = 12,
    Order = 13,
    Dedup = 14,
}

/// The nodes of expressions, and among them each kind of literal. The tag of each is its number.
#[derive(Clone, Copy, Debug, PartialEq, Eq)]
pub enum ExprTag {
    Col = 32,
    Scope = 33,
    Param = 34,
    Int = 35,
    Bool = 36,
    Text = 37,
    Bin = 38,
    Not = 39,
    If = 40,
}

const CODE_TAGS: [CodeTag; 14] = [
    CodeTag::Int,
    CodeTag::Bool,
    CodeTag::Text,
    CodeTag::Cross,
    CodeTag::Concat,
    CodeTag::List,
    CodeTag::Hash,
    CodeTag::Ord,
    CodeTag::Select,
    CodeTag::Filter,
    CodeTag::Dep,
    CodeTag::Group,
    CodeTag::Order,
    CodeTag::Dedup,
];

const EXPR_TAGS: [ExprTag; 9] = [
    ExprTag::Col,
    ExprTag::Scope,
    ExprTag::Param,
    ExprTag::Int,
    ExprTag::Bool,
    ExprTag::Text,
    ExprTag::Bin,
    ExprTag::Not,
    ExprTag::If,
];

/// The operators. The number of each is its place, from 0.
pub const OPS: [Op; 13] = [
    Op::Or,
    Op::And,
    Op::Eq,
    Op::Ne,
    Op::Lt,
    Op::Le,
    Op::Gt,
    Op::Ge,
    Op::Add,
    Op::Sub,
    Op::Mul,
    Op::Div,
    Op::Rem,
];

/// The number of an operator: its place in `OPS`.
pub fn op_number(op: Op) -> u8
    ensures { result ≡ op_number op }
{
    op as u8
}

/// The node of a code that the tag is for.
pub fn code_tag(tag: u8) -> Option<CodeTag>
    ensures { result ≡ code_tag tag }
{
    let place = (tag as usize).checked_sub(1)?;
    CODE_TAGS.get(place).copied()
}

/// The node of an expression that the tag is for.
pub fn expr_tag(tag: u8) -> Option<ExprTag>
    ensures { result ≡ expr_tag tag }
{
    let place = (tag as usize).checked_sub(32)?;
    EXPR_TAGS.get(place).copied()
}
