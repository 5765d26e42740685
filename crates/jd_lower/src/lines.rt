//! Lines, each of which prints, assigns or is empty.
ghost use Rattle.std.specs.Prelude.{◌≡◌, ◌++◌, ◌∷◌, [], Some, IfOk, map, option_map};
ghost use Rattle.jd_grammar.specs.declared.token.Word.TheVariants as word;
ghost use Rattle.jd_grammar.specs.Kinds.{is_word};
ghost use Rattle.jd_tree.specs.Plain.{plain, plain_item, plain_listing, items_of};
ghost use Rattle.jd_script.specs.PlainScript.{plain_stmt, place_of};
ghost use Rattle.jd_lower.specs.Expressions.{call_of};
ghost use Rattle.jd_lower.specs.Steps.{and_then, pure, Gives, Lowers};
ghost use Rattle.jd_lower.specs.Lowering as lowering;
ghost use Rattle.jd_lower.specs.Lowering.{fetched, remote_call, call_value, argument, arguments, all_arguments, print_line, assign_call, assign, stmt_line, line_at};

use crate::calls::{RemoteCall, body_of, lower_fetched, lower_remote_call};
use crate::draft::Draft;
use crate::expressions::{lower_call, lower_expression};
use crate::fault::LowerFault;
use crate::names::{is_fetch, is_remote_call, name_in};
use crate::operators::two_items;
use crate::scope::Scope;
use crate::shapes::{callee_of, is_comma};
use jd_grammar::token::{Kind, Name, Word};
use jd_script::tree as syntax_script;
use jd_script::tree::Lead;
use jd_tree::tree as syntax;
use jd_tree::tree::{Item, Listing};
use jd_value::{Body, Expr, Operation, OutOfMemory, Shared, Stmt, Txt};
use sqlite_items::{Boxed, Items};
use std::alloc::Global;

/// Waits for the outcome of the future in a variable.
fn fetch_into(
    alloc: Global,
    answer: Shared<Txt>,
    x: Shared<Txt>,
    draft: &mut Draft,
) -> Result<(), LowerFault>
    ensures { Gives (lowering.fetch_into answer x draft.old) result draft.new }
{
    let mut args = Items::new(alloc);
    args.push(Expr::Name(x))?;
    draft.write(Stmt::Effect(answer, Operation::Fetch, None, args))
}

/// The same with a variable of its own for the answer, which is the value.
fn fetch_value(alloc: Global, x: Shared<Txt>, draft: &mut Draft) -> Result<Expr, LowerFault>
    ensures { Gives (lowering.fetch_value (Some x) draft.old) result draft.new }
{
    let answer = draft.variable(alloc)?;
    fetch_into(alloc, answer.share()?, x, draft)?;
    Ok(Expr::Name(answer))
}

/// A call as an argument: `fetch(x)`, or a builtin function.
fn lower_call_value(
    alloc: Global,
    scope: &Scope,
    listing: &Listing,
    f: Kind,
    draft: &mut Draft,
) -> Result<Expr, LowerFault>
    ensures { let inside = plain_listing listing.now in
        Gives (call_value scope.now f (fetched scope.now inside.most inside.last) (call_of scope.now f inside.most inside.last) draft.old) result draft.new }
{
    if is_fetch(scope.names.as_slice(), f) {
        let x = lower_fetched(alloc, scope, listing)?;
        fetch_value(alloc, x, draft)
    } else {
        lower_call(alloc, scope, listing, f)
    }
}

/// An expression, or `fetch(x)`.
fn lower_argument(
    alloc: Global,
    scope: &Scope,
    x: &syntax::Expr,
    draft: &mut Draft,
) -> Result<Expr, LowerFault>
    ensures { Gives (argument scope.now (plain x.now) draft.old) result draft.new }
{
    match x {
        syntax::Expr::Call(f, before, listing) => lower_call_value(
            alloc,
            scope,
            listing.get(),
            callee_of(f.get(), before.as_slice()),
            draft,
        ),
        _ => lower_expression(alloc, scope, x),
    }
}

/// One more argument behind others.
fn with_argument(
    alloc: Global,
    scope: &Scope,
    before: Items<Expr>,
    x: &syntax::Expr,
    draft: &mut Draft,
) -> Result<Items<Expr>, LowerFault>
    ensures { Gives (and_then (argument scope.now (plain x.now) draft.old) (λ y. pure (before ++ y ∷ []))) result draft.new }
{
    let mut all = before;
    match lower_argument(alloc, scope, x, draft) {
        Ok(argument) => {
            all.push(argument)?;
            Ok(all)
        }
        Err(fault) => {
            drop(all);
            Err(fault)
        }
    }
}

/// The arguments before a comma each.
fn lower_most(
    alloc: Global,
    scope: &Scope,
    items: &[Item],
    draft: &mut Draft,
) -> Result<Items<Expr>, LowerFault>
    ensures { Gives (arguments scope.now (items_of (map plain_item items.now)) draft.old) result draft.new }
{
    let mut args = Items::new(alloc);
    for item in items {
        if !is_comma(item.separator.kind) {
            return Err(LowerFault::NotBuilt);
        }
        match with_argument(alloc, scope, args, &item.expr, draft) {
            Ok(next) => args = next,
            Err(fault) => return Err(fault),
        }
    }
    Ok(args)
}

fn lower_arguments(
    alloc: Global,
    scope: &Scope,
    listing: &Listing,
    draft: &mut Draft,
) -> Result<Items<Expr>, LowerFault>
    ensures { let inside = plain_listing listing.now in Gives (all_arguments scope.now inside.most inside.last draft.old) result draft.new }
{
    let args = lower_most(alloc, scope, listing.items.as_slice(), draft)?;
    match &listing.last {
        Some(last) => with_argument(alloc, scope, args, last, draft),
        None => Ok(args),
    }
}

/// Prints values, and has the answer as its own value.
fn print(alloc: Global, values: Items<Expr>, draft: &mut Draft) -> Result<(), LowerFault>
    ensures { Gives (lowering.print values draft.old) result draft.new }
{
    let answer = match draft.variable(alloc) {
        Ok(answer) => answer,
        Err(fault) => {
            drop(values);
            return Err(fault);
        }
    };
    draft.write(Stmt::Effect(answer.share()?, Operation::Print, None, values))?;
    draft.write(Stmt::Value(Expr::Name(answer)))
}

fn is_println(kind: Kind) -> bool
    ensures { result ≡ is_word word.Println kind }
{
    matches!(kind, Kind::Name(Name::Word(Word::Println)))
}

/// A call of `println`.
fn lower_print(
    alloc: Global,
    scope: &Scope,
    x: &syntax::Expr,
    draft: &mut Draft,
) -> Result<(), LowerFault>
    ensures { Gives (print_line scope.now (plain x.now) draft.old) result draft.new }
{
    match x {
        syntax::Expr::Call(f, before, listing) => {
            if !is_println(callee_of(f.get(), before.as_slice())) {
                return Err(LowerFault::NotBuilt);
            }
            let values = lower_arguments(alloc, scope, listing.get(), draft)?;
            print(alloc, values, draft)
        }
        _ => Err(LowerFault::NotBuilt),
    }
}

/// What a call in another process runs, and what it is given: the process and the argument.
fn called(alloc: Global, number: u64, call: RemoteCall) -> Result<(Body, Items<Expr>), OutOfMemory>
    ensures { IfOk result (λ p. p ≡ (lowering.body_of number call.function, call.process ∷ call.argument ∷ [])) }
{
    let RemoteCall {
        function,
        process,
        argument,
    } = call;
    match body_of(alloc, number, function) {
        Ok(body) => match two_items(alloc, process, argument) {
            Ok(args) => Ok((body, args)),
            Err(refused) => {
                drop(body);
                Err(refused)
            }
        },
        Err(refused) => {
            drop((process, argument));
            Err(refused)
        }
    }
}

/// The body of the call gets the next number.
fn call_into(
    alloc: Global,
    x: Shared<Txt>,
    call: RemoteCall,
    draft: &mut Draft,
) -> Result<(), LowerFault>
    ensures { Gives (lowering.call_into x call draft.old) result draft.new }
{
    match draft.body_number() {
        Ok(number) => {
            let (body, args) = called(alloc, number, call)?;
            draft.write(Stmt::Effect(x, Operation::RemoteCall, Some(body), args))
        }
        Err(fault) => {
            drop(call);
            Err(fault)
        }
    }
}

/// A call as a right side: a fetch, a call in another process, or an expression.
fn lower_assigned_call(
    alloc: Global,
    scope: &Scope,
    x: Shared<Txt>,
    listing: &Listing,
    f: Kind,
    draft: &mut Draft,
) -> Result<(), LowerFault>
    ensures { let inside = plain_listing listing.now in
        Gives (assign_call scope.now x f (fetched scope.now inside.most inside.last) (remote_call scope.now inside.most inside.last) (call_of scope.now f inside.most inside.last) draft.old) result draft.new }
{
    if is_fetch(scope.names.as_slice(), f) {
        match lower_fetched(alloc, scope, listing) {
            Ok(future) => fetch_into(alloc, x, future, draft),
            Err(fault) => {
                drop(x);
                Err(fault)
            }
        }
    } else if is_remote_call(scope.names.as_slice(), f) {
        match lower_remote_call(alloc, scope, listing) {
            Ok(call) => call_into(alloc, x, call, draft),
            Err(fault) => {
                drop(x);
                Err(fault)
            }
        }
    } else {
        match lower_call(alloc, scope, listing, f) {
            Ok(value) => draft.write(Stmt::Set(x, value)),
            Err(fault) => {
                drop(x);
                Err(fault)
            }
        }
    }
}

/// An assignment.
fn lower_assignment(
    alloc: Global,
    scope: &Scope,
    x: Shared<Txt>,
    right: &syntax::Expr,
    draft: &mut Draft,
) -> Result<(), LowerFault>
    ensures { Gives (assign scope.now x (plain right.now) draft.old) result draft.new }
{
    match right {
        syntax::Expr::Call(f, before, listing) => lower_assigned_call(
            alloc,
            scope,
            x,
            listing.get(),
            callee_of(f.get(), before.as_slice()),
            draft,
        ),
        _ => {
            let value = lower_expression(alloc, scope, right)?;
            draft.write(Stmt::Set(x, value))
        }
    }
}

fn lower_stmt(
    alloc: Global,
    scope: &Scope,
    written: &syntax_script::Stmt,
    draft: &mut Draft,
) -> Result<(), LowerFault>
    ensures { Gives (stmt_line scope.now (plain_stmt written.now) draft.old) result draft.new }
{
    match written {
        syntax_script::Stmt::Ended(Lead::Bare, x) => lower_print(alloc, scope, x, draft),
        syntax_script::Stmt::Ended(Lead::Assigned(name, _), right) => {
            let name = name_in(alloc, scope.names.as_slice(), name.kind)?;
            lower_assignment(alloc, scope, name, right, draft)
        }
        _ => Err(LowerFault::NotBuilt),
    }
}

/// What stands at a place: nothing, a call of `println`, or an assignment.
pub fn lower_place(
    alloc: Global,
    scope: &Scope,
    place: &Option<Boxed<syntax_script::Stmt>>,
    draft: &mut Draft,
) -> Result<(), LowerFault>
    ensures { Gives (line_at scope.now (place_of (option_map plain_stmt place.now)) draft.old) result draft.new }
{
    match place {
        Some(stmt) => lower_stmt(alloc, scope, stmt.get(), draft),
        None => Ok(()),
    }
}
