//! What is asked of the beginning of what ends with an operand.
ghost use Rattle.std.specs.Prelude.{◌≡◌};
ghost use Rattle.jd_grammar.specs.Grammar as rules;
ghost use Rattle.jd_tree.specs.Code.{plain_head};

use crate::kinds;
use crate::measured::Head;

/// How tightly the construct binds.
pub fn level_of(head: &Head) -> u8
    ensures { result ≡ rules.level (plain_head head.now) }
{
    match head {
        Head::Unary(_) => 9,
        Head::Binary(_, operator) => kinds::strength_of(operator.kind),
        Head::Choice(_, _, _, _) => 2,
        Head::Lambda(_, _) => 1,
        Head::Spawn(_, _) => 1,
        Head::Keyword(_, _) => 0,
    }
}

/// How tightly its operand has to bind.
pub fn asks_of(head: &Head) -> u8
    ensures { result ≡ rules.asks (plain_head head.now) }
{
    match head {
        Head::Unary(_) => 9,
        Head::Binary(_, operator) => kinds::strength_of(operator.kind) + 1,
        Head::Choice(_, _, _, _) => 2,
        Head::Lambda(_, _) => 1,
        Head::Spawn(_, _) => 1,
        Head::Keyword(_, _) => 1,
    }
}

/// Whether it is a `-` directly before its operand.
pub fn is_negation(head: &Head) -> bool
    ensures { result ≡ rules.is_negation (plain_head head.now) }
{
    match head {
        Head::Unary(token) => kinds::is_minus(token.kind),
        Head::Binary(_, _) => false,
        Head::Choice(_, _, _, _) => false,
        Head::Lambda(_, _) => false,
        Head::Spawn(_, _) => false,
        Head::Keyword(_, _) => false,
    }
}
