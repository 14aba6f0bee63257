// The sixteen conditions of a branch. (V8, appendix B, "Branch on Integer Condition Codes"; document
// 01, "The sixteen conditions".)
ghost use Rattle.std.specs.Prelude.{◌≡◌};
ghost use Rattle.alu.specs.Condition.{rule_holds, condition_of, cond_holds, opposite_of};

use crate::codes::Codes;

// The eight rules of the codes, of which the sixteen conditions are these and their opposites.
#[derive(Clone, Copy)]
pub enum Rule {
    Never,
    Equal,
    LessOrEqual,
    Less,
    LowerOrSame,
    Carry,
    Negative,
    Overflow,
}

// The narrowing class of a condition: what it says of the signed number compared with another, where
// it says anything.
#[derive(Clone, Copy)]
pub enum Narrowing {
    Unrelated,
    EqualTo,
    NotEqualTo,
    LessThan,
    AtLeast,
    AtMost,
    GreaterThan,
}

// A condition: a rule or its opposite, and the narrowing class.
#[derive(Clone, Copy)]
pub struct Condition {
    pub rule: Rule,
    pub negated: bool,
    pub narrowing: Narrowing,
}

// A row of the table.
macro_rules! row {
    ($rule:ident, $negated:literal, $narrowing:ident) => {
        Condition {
            rule: Rule::$rule,
            negated: $negated,
            narrowing: Narrowing::$narrowing,
        }
    };
}

// The conditions by Bicc's four bits.
const CONDITIONS: [Condition; 16] = [
    row!(Never, false, Unrelated),
    row!(Equal, false, EqualTo),
    row!(LessOrEqual, false, AtMost),
    row!(Less, false, LessThan),
    row!(LowerOrSame, false, Unrelated),
    row!(Carry, false, Unrelated),
    row!(Negative, false, Unrelated),
    row!(Overflow, false, Unrelated),
    row!(Never, true, Unrelated),
    row!(Equal, true, NotEqualTo),
    row!(LessOrEqual, true, GreaterThan),
    row!(Less, true, AtLeast),
    row!(LowerOrSame, true, Unrelated),
    row!(Carry, true, Unrelated),
    row!(Negative, true, Unrelated),
    row!(Overflow, true, Unrelated),
];

// The condition that Bicc's four bits name: those of `k` modulo 16.
#[tactic(auto, unfolding(crate::specs::Condition::condition_of))]
pub fn condition_of(k: u8) -> Condition
    ensures { result ≡ condition_of k }
{
    CONDITIONS[(k % 16) as usize]
}

// Whether the codes meet a rule.
fn rule_holds(rule: Rule, f: Codes) -> bool
    ensures { result ≡ rule_holds rule f }
{
    match rule {
        Rule::Never => false,
        Rule::Equal => f.z,
        Rule::LessOrEqual => f.z | (f.n ^ f.v),
        Rule::Less => f.n ^ f.v,
        Rule::LowerOrSame => f.c | f.z,
        Rule::Carry => f.c,
        Rule::Negative => f.n,
        Rule::Overflow => f.v,
    }
}

// Whether the codes meet condition `k` modulo 16: a branch on it is taken.
pub fn holds(k: u8, f: Codes) -> bool
    ensures { result ≡ cond_holds k f }
{
    let condition = condition_of(k);
    let met = rule_holds(condition.rule, f);
    if condition.negated { !met } else { met }
}

// The condition that holds exactly where condition `k` does not.
pub fn opposite(k: u8) -> u8
    ensures { result ≡ opposite_of k }
{
    (k % 16 + 8) % 16
}
