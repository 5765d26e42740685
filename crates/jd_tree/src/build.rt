//! Makes expressions, each from its parts.
ghost use Rattle.std.specs.Prelude.{◌≡◌, IfOk, map};
ghost use Rattle.jd_grammar.specs.Trees as grammar;
ghost use Rattle.jd_grammar.specs.Trees.{leaf, sign, ending, binary};
ghost use Rattle.jd_tree.specs.Plain as plain;
ghost use Rattle.jd_tree.specs.Code.{plain_measured, plain_head};

use crate::measured::{Head, Measured};
use crate::profile::{
    binary_profile, choice_profile, keyword_profile, lambda_profile, leaf_profile, sign_profile,
    spawn_profile, unary_profile,
};
use crate::tree::{Choice, Expr, Keyword, Operation};
use jd_grammar::token::Token;
use sqlite_items::{Boxed, Items};
use std::alloc::{AllocError, Global};

pub fn leaf_of(token: Token) -> Measured
    ensures { plain_measured result ≡ leaf token }
{
    Measured {
        expr: Expr::Leaf(token),
        profile: leaf_profile(token),
    }
}

/// An operator as an argument.
pub fn sign_of(token: Token) -> Measured
    ensures { plain_measured result ≡ sign token }
{
    Measured {
        expr: Expr::Sign(token),
        profile: sign_profile(token),
    }
}

// ---- what ends with an operand

pub fn unary_of(alloc: Global, token: Token, operand: Measured) -> Result<Measured, AllocError>
    ensures { IfOk result (λ m. plain_measured m ≡ ending (grammar.unary token) (plain_measured operand)) }
{
    let profile = unary_profile(token, operand.profile);
    let operand = Boxed::new(alloc, operand.expr)?;
    Ok(Measured {
        expr: Expr::Unary(token, operand),
        profile,
    })
}

/// What stands before a further operator: the first operand, and the operators behind it.
fn operated(alloc: Global, left: Expr) -> Result<(Boxed<Expr>, Items<Operation>), AllocError>
    ensures { IfOk result (λ r. plain.operated (plain.plain r.0) (map plain.plain_operation r.1) ≡ plain.plain left) }
{
    match left {
        Expr::Binary(first, mut operations, last) => {
            operations.push(last.into_inner())?;
            Ok((first, operations))
        }
        left => Ok((Boxed::new(alloc, left)?, Items::new(alloc))),
    }
}

pub fn binary_of(
    alloc: Global,
    left: Measured,
    operator: Token,
    operand: Measured,
) -> Result<Measured, AllocError>
    ensures { IfOk result (λ m. plain_measured m ≡ ending (binary (plain_measured left) operator) (plain_measured operand)) }
{
    let profile = binary_profile(left.profile, operator, operand.profile);
    match operated(alloc, left.expr) {
        Ok((first, operations)) => {
            let last = Operation {
                operator,
                operand: operand.expr,
            };
            let last = Boxed::new(alloc, last)?;
            Ok(Measured {
                expr: Expr::Binary(first, operations, last),
                profile,
            })
        }
        Err(refusal) => {
            drop(operand);
            Err(refusal)
        }
    }
}

pub fn choice_of(
    alloc: Global,
    condition: Measured,
    question: Token,
    chosen: Measured,
    colon: Token,
    other: Measured,
) -> Result<Measured, AllocError>
    ensures { IfOk result (λ m. plain_measured m
        ≡ ending (grammar.choice (plain_measured condition) question (plain_measured chosen) colon) (plain_measured other)) }
{
    let profile = choice_profile(condition.profile, chosen.profile, other.profile);
    let choice = Choice {
        condition: condition.expr,
        question,
        chosen: chosen.expr,
        colon,
        other: other.expr,
    };
    let choice = Boxed::new(alloc, choice)?;
    Ok(Measured {
        expr: Expr::Choice(choice),
        profile,
    })
}

/// Two expressions, each in a box.
fn boxed(alloc: Global, one: Expr, other: Expr) -> Result<(Boxed<Expr>, Boxed<Expr>), AllocError>
    ensures one { IfOk result (λ r. r.0 ≡ one) }
    ensures other { IfOk result (λ r. r.1 ≡ other) }
{
    match Boxed::new(alloc, one) {
        Ok(one) => Ok((one, Boxed::new(alloc, other)?)),
        Err(refusal) => {
            drop(other);
            Err(refusal)
        }
    }
}

pub fn lambda_of(
    alloc: Global,
    names: Measured,
    arrow: Token,
    body: Measured,
) -> Result<Measured, AllocError>
    ensures { IfOk result (λ m. plain_measured m ≡ ending (grammar.lambda (plain_measured names) arrow) (plain_measured body)) }
{
    let profile = lambda_profile(names.profile, body.profile);
    let (names, body) = boxed(alloc, names.expr, body.expr)?;
    Ok(Measured {
        expr: Expr::Lambda(names, arrow, body),
        profile,
    })
}

pub fn spawn_of(
    alloc: Global,
    word: Token,
    place: Measured,
    body: Measured,
) -> Result<Measured, AllocError>
    ensures { IfOk result (λ m. plain_measured m ≡ ending (grammar.spawn word (plain_measured place)) (plain_measured body)) }
{
    let profile = spawn_profile(place.profile, body.profile);
    let (place, body) = boxed(alloc, place.expr, body.expr)?;
    Ok(Measured {
        expr: Expr::Spawn(word, place, body),
        profile,
    })
}

pub fn keyword_of(
    alloc: Global,
    name: Token,
    assign: Token,
    value: Measured,
) -> Result<Measured, AllocError>
    ensures { IfOk result (λ m. plain_measured m ≡ ending (grammar.keyword name assign) (plain_measured value)) }
{
    let profile = keyword_profile(value.profile);
    let keyword = Keyword {
        name,
        assign,
        value: value.expr,
    };
    let keyword = Boxed::new(alloc, keyword)?;
    Ok(Measured {
        expr: Expr::Keyword(keyword),
        profile,
    })
}

/// What ends with an operand.
pub fn ending_of(alloc: Global, head: Head, operand: Measured) -> Result<Measured, AllocError>
    ensures { IfOk result (λ m. plain_measured m ≡ ending (plain_head head) (plain_measured operand)) }
{
    match head {
        Head::Unary(token) => unary_of(alloc, token, operand),
        Head::Binary(left, token) => binary_of(alloc, left, token, operand),
        Head::Choice(condition, question, chosen, colon) => choice_of(
            alloc,
            condition.into_inner(),
            question,
            chosen.into_inner(),
            colon,
            operand,
        ),
        Head::Lambda(names, token) => lambda_of(alloc, names, token, operand),
        Head::Spawn(token, place) => spawn_of(alloc, token, place, operand),
        Head::Keyword(name, token) => keyword_of(alloc, name, token, operand),
    }
}
