//! Takes the atoms off an expression that is written as atoms, from its right end.
ghost use Rattle.std.specs.Prelude.{◌≡◌, ◌&&◌, ℕ, true, map, IfOk, OnOk};
ghost use Rattle.jd_grammar.specs.Trees.{Syntax, leaf, ending, unary, binary};
ghost use Rattle.jd_grammar.specs.Rows as rows;
ghost use Rattle.jd_tree.specs.Plain.{plain, plain_operation, plain_application, plain_listing, operated, applied, apply, arguments};
ghost use Rattle.jd_tree.specs.Peeling.{taken, group_of, is_tight_chain, are_tight_chains};

use crate::tree::{Application, Expr, Listing, Operation};
use jd_grammar::token::Token;
use sqlite_items::{Boxed, Items};
use std::alloc::{AllocError, Global};

/// The parentheses of a call, as an atom.
fn group_of(application: Application) -> Expr
    ensures { plain result ≡ group_of (plain_application application) }
{
    match application {
        Application::Arguments(listing) => Expr::Group(listing),
        Application::Indexes(listing) => Expr::Group(listing),
    }
}

/// Takes off the parentheses behind an operand.
fn take_groups(
    taken_off: &mut Items<Expr>,
    applications: Items<Application>,
) -> Result<(), AllocError>
    ensures { (f : Syntax) → rows.is_chain (applied f (map plain_application applications)) ≡ true → OnOk result
        (rows.joined (rows.cells_of (applied f (map plain_application applications))) (taken taken_off.old) ≡ rows.joined (rows.cells_of f) (taken taken_off.new)) }
{
    let mut applications = applications;
    while let Some(application) = applications.pop() {
        taken_off.push(group_of(application))?;
    }
    Ok(())
}

/// Takes off all parentheses of a call, the last ones first.
fn take_call(
    taken_off: &mut Items<Expr>,
    before: Items<Application>,
    last: Boxed<Listing>,
) -> Result<(), AllocError>
    ensures { (f : Syntax) → let call = apply (applied f (map plain_application before)) (arguments (plain_listing last)) in
        rows.is_chain call ≡ true → OnOk result (rows.joined (rows.cells_of call) (taken taken_off.old) ≡ rows.joined (rows.cells_of f) (taken taken_off.new)) }
{
    taken_off.push(Expr::Group(last))?;
    take_groups(taken_off, before)
}

/// Takes off the parentheses behind a number, and gives the number.
fn take_number(taken_off: &mut Items<Expr>, expr: Expr) -> Result<Token, AllocError>
    requires { is_tight_chain (plain expr) ≡ true }
    ensures number { IfOk result (λ t. leaf t ≡ rows.first_of (plain expr)) }
    ensures others { OnOk result (rows.joined (rows.cells_of (plain expr)) (taken taken_off.old) ≡ taken taken_off.new) }
{
    let mut current = expr;
    'inner: loop {
        match current {
            Expr::Call(first, before, last) => {
                take_call(taken_off, before, last)?;
                current = first.into_inner();
            }
            Expr::Leaf(token) => return Ok(token),
            _ => unreachable!(),
        }
    }
}

/// Takes off the parentheses behind a number, and gives the number with its sign.
fn take_negative(
    alloc: Global,
    taken_off: &mut Items<Expr>,
    sign: Token,
    operand: Boxed<Expr>,
) -> Result<Expr, AllocError>
    requires { is_tight_chain (plain operand) ≡ true }
    ensures first { IfOk result (λ e. plain e ≡ ending (unary sign) (rows.first_of (plain operand))) }
    ensures others { OnOk result (rows.joined (rows.cells_of (plain operand)) (taken taken_off.old) ≡ taken taken_off.new) }
{
    let number = take_number(taken_off, operand.into_inner())?;
    Ok(Expr::Unary(sign, Boxed::new(alloc, Expr::Leaf(number))?))
}

/// Takes off an operator's right operand, whose first atom the operator is a part of.
fn take_operation(
    alloc: Global,
    taken_off: &mut Items<Expr>,
    operation: Operation,
) -> Result<(), AllocError>
    requires { is_tight_chain (plain_operation operation).1 ≡ true }
    ensures { (l : Syntax) → OnOk result (rows.joined (rows.cells_of (ending (binary l (plain_operation operation).0) (plain_operation operation).1)) (taken taken_off.old)
        ≡ rows.joined (rows.cells_of l) (taken taken_off.new)) }
{
    let Operation { operator, operand } = operation;
    let number = take_number(taken_off, operand)?;
    taken_off.push(Expr::Unary(operator, Boxed::new(alloc, Expr::Leaf(number))?))?;
    Ok(())
}

/// Takes off the operators behind an operand.
fn take_operations(
    alloc: Global,
    taken_off: &mut Items<Expr>,
    operations: Items<Operation>,
) -> Result<(), AllocError>
    requires { are_tight_chains (map plain_operation operations) ≡ true }
    ensures { (l : Syntax) → OnOk result (rows.joined (rows.cells_of (operated l (map plain_operation operations))) (taken taken_off.old)
        ≡ rows.joined (rows.cells_of l) (taken taken_off.new)) }
{
    let mut operations = operations;
    while let Some(operation) = operations.pop() {
        take_operation(alloc, taken_off, operation)?;
    }
    Ok(())
}

/// Takes off all operators of a difference, the last one first.
fn take_difference(
    alloc: Global,
    taken_off: &mut Items<Expr>,
    before: Items<Operation>,
    last: Boxed<Operation>,
) -> Result<(), AllocError>
    requires last { is_tight_chain (plain_operation last).1 ≡ true }
    requires others { are_tight_chains (map plain_operation before) ≡ true }
    ensures { (l : Syntax) → let left = operated l (map plain_operation before) in
        OnOk result (rows.joined (rows.cells_of (ending (binary left (plain_operation last).0) (plain_operation last).1)) (taken taken_off.old)
        ≡ rows.joined (rows.cells_of l) (taken taken_off.new)) }
{
    take_operation(alloc, taken_off, last.into_inner())?;
    take_operations(alloc, taken_off, before)
}

/// Takes off all atoms but the first one, and gives that.
pub fn take_all(alloc: Global, taken_off: &mut Items<Expr>, row: Expr) -> Result<Expr, AllocError>
    requires { rows.is_chain (plain row) ≡ true }
    ensures first { IfOk result (λ e. plain e ≡ rows.first_of (plain row)) }
    ensures others { OnOk result (rows.joined (rows.cells_of (plain row)) (taken taken_off.old) ≡ taken taken_off.new) }
{
    let mut current = row;
    'inner: loop {
        match current {
            Expr::Call(first, before, last) => {
                take_call(taken_off, before, last)?;
                current = first.into_inner();
            }
            Expr::Binary(first, before, last) => {
                take_difference(alloc, taken_off, before, last)?;
                current = first.into_inner();
            }
            Expr::Unary(sign, operand) => {
                return take_negative(alloc, taken_off, sign, operand);
            }
            atom => return Ok(atom),
        }
    }
}
