//! Expressions: literals, variables, and what is computed from them without an effect.
ghost use Rattle.std.specs.Prelude.{◌≡◌, ◌∷◌, ◌++◌, [], Some, map, option_map, IfOk};
ghost use Rattle.jd_value.specs.declared.expr.Expr.TheVariants.{Apply};
ghost use Rattle.jd_value.specs.declared.builtin.Builtin.TheVariants as builtin;
ghost use Rattle.jd_tree.specs.Plain.{plain, plain_application, plain_cell, plain_choice, plain_item, plain_listing, plain_matrix, plain_operation, cells_at, items_of};
ghost use Rattle.jd_lower.specs.Steps.{Lowers};
ghost use Rattle.jd_lower.specs.Rows.{with_atom};
ghost use Rattle.jd_lower.specs.Operators.{of_one, of_two};
ghost use Rattle.jd_lower.specs.Expressions.{expression_of, expressions_of, behind, all_of, call_of, element, group, is_alone, made_of, cons, atoms_of, rows_of, grid, with_operations, with_suffix, with_suffixes};

use crate::builtins::{applied_to, function_of, is_of_int};
use crate::fault::LowerFault;
use crate::literals::lower_operand;
use crate::operators::{chosen, joined, one_item, prefixed};
use crate::rows::Rows;
use crate::scope::Scope;
use crate::shapes::{callee_of, is_column, is_comma, is_none, name_of};
use jd_grammar::token::Kind;
use jd_tree::tree as syntax;
use jd_tree::tree::{Application, Cell, Choice, Item, Listing, Matrix, Operation};
use jd_value::{Builtin, Expr, OutOfMemory};
use sqlite_items::Items;
use std::alloc::Global;

/// One more expression behind others.
#[cycle(expressions)]
fn with_one(
    alloc: Global,
    scope: &Scope,
    x: &syntax::Expr,
    before: Items<Expr>,
) -> Result<Items<Expr>, LowerFault>
    ensures { Lowers (behind before (cons (expression_of scope.now (plain x.now)) (Some []))) result }
{
    let mut all = before;
    match lower_expression(alloc, scope, x) {
        Ok(x) => {
            all.push(x)?;
            Ok(all)
        }
        Err(fault) => {
            drop(all);
            Err(fault)
        }
    }
}

/// Expressions with a comma behind each.
#[cycle(expressions)]
fn lower_items(alloc: Global, scope: &Scope, items: &[Item]) -> Result<Items<Expr>, LowerFault>
    ensures { Lowers (expressions_of scope.now (items_of (map plain_item items.now))) result }
{
    let mut args = Items::new(alloc);
    for item in items {
        if !is_comma(item.separator.kind) {
            return Err(LowerFault::NotBuilt);
        }
        match with_one(alloc, scope, &item.expr, args) {
            Ok(next) => args = next,
            Err(fault) => return Err(fault),
        }
    }
    Ok(args)
}

fn with_last(before: Items<Expr>, x: Expr) -> Result<Items<Expr>, OutOfMemory>
    ensures { IfOk result (λ all. all ≡ before ++ x ∷ []) }
{
    let mut all = before;
    all.push(x)?;
    Ok(all)
}

/// All that stands in parentheses or brackets, with commas between.
#[cycle(expressions)]
fn lower_all(alloc: Global, scope: &Scope, listing: &Listing) -> Result<Items<Expr>, LowerFault>
    ensures { let inside = plain_listing listing.now in Lowers (all_of scope.now inside.most inside.last) result }
{
    let args = lower_items(alloc, scope, listing.items.as_slice())?;
    match &listing.last {
        Some(last) => match lower_expression(alloc, scope, last) {
            Ok(x) => Ok(with_last(args, x)?),
            Err(fault) => {
                drop(args);
                Err(fault)
            }
        },
        None => Ok(args),
    }
}

/// A call of what has this name.
#[cycle(expressions)]
pub fn lower_call(
    alloc: Global,
    scope: &Scope,
    listing: &Listing,
    f: Kind,
) -> Result<Expr, LowerFault>
    ensures { let inside = plain_listing listing.now in Lowers (call_of scope.now f inside.most inside.last) result }
{
    match function_of(scope, f) {
        Some(function) => {
            let args = lower_all(alloc, scope, listing)?;
            Ok(applied_to(function, is_of_int(scope, listing), args))
        }
        None => Err(LowerFault::NotBuilt),
    }
}

/// An expression in parentheses, or a tuple.
#[cycle(expressions)]
fn lower_group(alloc: Global, scope: &Scope, listing: &Listing) -> Result<Expr, LowerFault>
    ensures { let inside = plain_listing listing.now in
        Lowers (group (is_alone inside.most inside.last) (all_of scope.now inside.most inside.last)) result }
{
    if let Some(x) = &listing.last
        && is_none(listing.items.as_slice())
    {
        return lower_expression(alloc, scope, x);
    }
    let args = lower_all(alloc, scope, listing)?;
    Ok(Expr::Apply(Builtin::Tuple, args))
}

/// What is indexed in front of the indexes.
fn in_front(alloc: Global, x: Expr, places: Items<Expr>) -> Result<Expr, OutOfMemory>
    ensures { IfOk result (λ e. e ≡ Apply builtin.Index (x ∷ places)) }
{
    match one_item(alloc, x) {
        Ok(args) => {
            let mut args = args;
            args.append(places)?;
            Ok(Expr::Apply(Builtin::Index, args))
        }
        Err(refused) => {
            drop(places);
            Err(refused)
        }
    }
}

/// Indexes behind an expression.
#[cycle(expressions)]
fn lower_index(alloc: Global, scope: &Scope, listing: &Listing, x: Expr) -> Result<Expr, LowerFault>
    ensures { let inside = plain_listing listing.now in Lowers (element (Some x) (all_of scope.now inside.most inside.last)) result }
{
    match lower_all(alloc, scope, listing) {
        Ok(places) => Ok(in_front(alloc, x, places)?),
        Err(fault) => {
            drop(x);
            Err(fault)
        }
    }
}

/// Arguments or indexes behind an expression whose name this is.
#[cycle(expressions)]
fn lower_suffix(
    alloc: Global,
    scope: &Scope,
    suffix: &Application,
    f: Kind,
    x: Expr,
) -> Result<Expr, LowerFault>
    ensures { Lowers (with_suffix scope.now f (Some x) (plain_application suffix.now)) result }
{
    match suffix {
        Application::Arguments(listing) => {
            drop(x);
            lower_call(alloc, scope, listing.get(), f)
        }
        Application::Indexes(listing) => lower_index(alloc, scope, listing.get(), x),
    }
}

/// The same, one behind another.
#[cycle(expressions)]
fn lower_suffixes(
    alloc: Global,
    scope: &Scope,
    suffixes: &[Application],
    f: Kind,
    first: Expr,
) -> Result<Expr, LowerFault>
    ensures { Lowers (with_suffixes scope.now f (Some first) (map plain_application suffixes.now)) result }
{
    let mut x = first;
    let mut name = f;
    for suffix in suffixes {
        match lower_suffix(alloc, scope, suffix, name, x) {
            Ok(next) => x = next,
            Err(fault) => return Err(fault),
        }
        name = Kind::Comma;
    }
    Ok(x)
}

/// All atoms behind others.
#[cycle(expressions)]
fn lower_atoms(
    alloc: Global,
    scope: &Scope,
    cells: &[Cell],
    begun: Items<Expr>,
) -> Result<Items<Expr>, LowerFault>
    ensures { Lowers (behind begun (atoms_of scope.now (cells_at (map plain_cell cells.now)))) result }
{
    let mut atoms = begun;
    for cell in cells {
        match with_one(alloc, scope, &cell.atom, atoms) {
            Ok(next) => atoms = next,
            Err(fault) => return Err(fault),
        }
    }
    Ok(atoms)
}

/// Atoms below one another.
#[cycle(expressions)]
#[tactic(auto, using(crate::proofs::Collecting::behind_first))]
fn lower_column(
    alloc: Global,
    scope: &Scope,
    cells: &[Cell],
    first: Expr,
) -> Result<Expr, LowerFault>
    ensures { Lowers (made_of builtin.List (cons (Some first) (atoms_of scope.now (cells_at (map plain_cell cells.now))))) result }
{
    let begun = one_item(alloc, first)?;
    let atoms = lower_atoms(alloc, scope, cells, begun)?;
    Ok(Expr::Apply(Builtin::List, atoms))
}

/// One more atom of rows.
#[cycle(expressions)]
fn lower_cell(alloc: Global, scope: &Scope, cell: &Cell, before: Rows) -> Result<Rows, LowerFault>
    ensures { let atom = plain_cell cell.now in Lowers (option_map (λ x. with_atom before atom.0 x) (expression_of scope.now atom.1)) result }
{
    let mut rows = before;
    match lower_expression(alloc, scope, &cell.atom) {
        Ok(atom) => {
            rows.push(alloc, cell.semicolon, atom)?;
            Ok(rows)
        }
        Err(fault) => {
            drop(rows);
            Err(fault)
        }
    }
}

/// The grid of rows and what follows them.
#[cycle(expressions)]
fn lower_cells(
    alloc: Global,
    scope: &Scope,
    cells: &[Cell],
    begun: Rows,
) -> Result<Expr, LowerFault>
    ensures { Lowers (grid begun.rows begun.begun (rows_of scope.now (cells_at (map plain_cell cells.now)))) result }
{
    let mut rows = begun;
    for cell in cells {
        match lower_cell(alloc, scope, cell, rows) {
            Ok(next) => rows = next,
            Err(fault) => return Err(fault),
        }
    }
    Ok(rows.into_grid()?)
}

/// Rows of atoms.
#[cycle(expressions)]
fn lower_rows(alloc: Global, scope: &Scope, cells: &[Cell], first: Expr) -> Result<Expr, LowerFault>
    ensures { Lowers (grid [] (first ∷ []) (rows_of scope.now (cells_at (map plain_cell cells.now)))) result }
{
    let begun = Rows::of(alloc, first)?;
    lower_cells(alloc, scope, cells, begun)
}

#[cycle(expressions)]
fn lower_matrix(alloc: Global, scope: &Scope, matrix: &Matrix) -> Result<Expr, LowerFault>
    ensures { Lowers (expression_of scope.now (plain_matrix matrix.now)) result }
{
    let first = lower_expression(alloc, scope, &matrix.first)?;
    if is_column(matrix.cells.as_slice()) {
        lower_column(alloc, scope, matrix.cells.as_slice(), first)
    } else {
        lower_rows(alloc, scope, matrix.cells.as_slice(), first)
    }
}

#[cycle(expressions)]
fn lower_choice(alloc: Global, scope: &Scope, choice: &Choice) -> Result<Expr, LowerFault>
    ensures { Lowers (expression_of scope.now (plain_choice choice.now)) result }
{
    let condition = lower_expression(alloc, scope, &choice.condition)?;
    let x = match lower_expression(alloc, scope, &choice.chosen) {
        Ok(x) => x,
        Err(fault) => {
            drop(condition);
            return Err(fault);
        }
    };
    match lower_expression(alloc, scope, &choice.other) {
        Ok(y) => chosen(alloc, condition, x, y),
        Err(fault) => {
            drop((condition, x));
            Err(fault)
        }
    }
}

/// An operator behind its left operand.
#[cycle(expressions)]
fn lower_operation(
    alloc: Global,
    scope: &Scope,
    operation: &Operation,
    left: Expr,
) -> Result<Expr, LowerFault>
    ensures { let behind = plain_operation operation.now in
        Lowers (of_two behind.0.kind (Some left) (expression_of scope.now behind.1)) result }
{
    match lower_expression(alloc, scope, &operation.operand) {
        Ok(right) => joined(alloc, operation.operator.kind, left, right),
        Err(fault) => {
            drop(left);
            Err(fault)
        }
    }
}

/// Operators behind an expression, each of which takes all before it.
#[cycle(expressions)]
fn lower_operations(
    alloc: Global,
    scope: &Scope,
    operations: &[Operation],
    first: Expr,
) -> Result<Expr, LowerFault>
    ensures { Lowers (with_operations scope.now (Some first) (map plain_operation operations.now)) result }
{
    let mut left = first;
    for operation in operations {
        match lower_operation(alloc, scope, operation, left) {
            Ok(next) => left = next,
            Err(fault) => return Err(fault),
        }
    }
    Ok(left)
}

/// An operator before its operand.
#[cycle(expressions)]
fn lower_prefixed(
    alloc: Global,
    scope: &Scope,
    x: &syntax::Expr,
    kind: Kind,
) -> Result<Expr, LowerFault>
    ensures { Lowers (of_one kind (expression_of scope.now (plain x.now))) result }
{
    let x = lower_expression(alloc, scope, x)?;
    prefixed(alloc, kind, x)
}

#[cycle(expressions)]
fn lower_list(alloc: Global, scope: &Scope, listing: &Listing) -> Result<Expr, LowerFault>
    ensures { let inside = plain_listing listing.now in Lowers (made_of builtin.List (all_of scope.now inside.most inside.last)) result }
{
    let args = lower_all(alloc, scope, listing)?;
    Ok(Expr::Apply(Builtin::List, args))
}

/// A literal or a variable, or an operation, group, list, matrix, index or call of such.
#[cycle(expressions)]
pub fn lower_expression(alloc: Global, scope: &Scope, x: &syntax::Expr) -> Result<Expr, LowerFault>
    ensures { Lowers (expression_of scope.now (plain x.now)) result }
{
    match x {
        syntax::Expr::Leaf(token) => lower_operand(alloc, scope, token.kind),
        syntax::Expr::Unary(token, x) => lower_prefixed(alloc, scope, x.get(), token.kind),
        syntax::Expr::Binary(first, operations, last) => {
            match lower_expression(alloc, scope, first.get()) {
                Ok(first) => match lower_operations(alloc, scope, operations.as_slice(), first) {
                    Ok(left) => lower_operation(alloc, scope, last.get(), left),
                    Err(fault) => Err(fault),
                },
                Err(fault) => Err(fault),
            }
        }
        syntax::Expr::Choice(choice) => lower_choice(alloc, scope, choice.get()),
        syntax::Expr::Group(listing) => lower_group(alloc, scope, listing.get()),
        syntax::Expr::List(listing) => lower_list(alloc, scope, listing.get()),
        syntax::Expr::Matrix(matrix) => lower_matrix(alloc, scope, matrix.get()),
        syntax::Expr::Call(f, before, listing) => lower_call(
            alloc,
            scope,
            listing.get(),
            callee_of(f.get(), before.as_slice()),
        ),
        syntax::Expr::Index(x, before, listing) => match lower_expression(alloc, scope, x.get()) {
            Ok(first) => {
                let name = name_of(x.get());
                match lower_suffixes(alloc, scope, before.as_slice(), name, first) {
                    Ok(x) => lower_index(alloc, scope, listing.get(), x),
                    Err(fault) => Err(fault),
                }
            }
            Err(fault) => Err(fault),
        },
        _ => Err(LowerFault::NotBuilt),
    }
}
