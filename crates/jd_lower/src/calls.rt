//! Calls that have an effect.
ghost use Rattle.std.specs.Prelude.{◌≡◌, ◌∷◌, [], IfOk};
ghost use Rattle.jd_value.specs.declared.tree.Block.{roll-Block};
ghost use Rattle.jd_value.specs.declared.tree.Stmt.TheVariants.{Value};
ghost use Rattle.jd_grammar.specs.Trees.{none, more, just};
ghost use Rattle.jd_tree.specs.Plain.{plain, plain_item, plain_listing};
ghost use Rattle.jd_lower.specs.Steps.{Lowers};
ghost use Rattle.jd_lower.specs.Lowering.{function_of, fetched, remote_call, body_of};

use crate::expressions::lower_expression;
use crate::fault::LowerFault;
use crate::names::name_in;
use crate::scope::Scope;
use crate::shapes::{is_comma, is_none, name_of};
use jd_tree::tree as syntax;
use jd_tree::tree::{Item, Listing};
use jd_value::{Block, Body, Expr, OutOfMemory, Shared, Stmt, Txt};
use sqlite_items::Items;
use std::alloc::Global;

/// A function of one value.
#[derive(Drop)]
pub struct Function {
    pub parameter: Shared<Txt>,
    pub body: Expr,
}

/// A call in another process.
#[derive(Drop)]
pub struct RemoteCall {
    pub function: Function,
    pub process: Expr,
    pub argument: Expr,
}

/// The variable that a fetch waits for.
pub fn lower_fetched(
    alloc: Global,
    scope: &Scope,
    listing: &Listing,
) -> Result<Shared<Txt>, LowerFault>
    ensures { let inside = plain_listing listing.now in Lowers (fetched scope.now inside.most inside.last) result }
{
    match &listing.last {
        Some(x) => {
            if is_none(listing.items.as_slice()) {
                name_in(alloc, scope.names.as_slice(), name_of(x))
            } else {
                Err(LowerFault::NotBuilt)
            }
        }
        None => Err(LowerFault::NotBuilt),
    }
}

fn lower_function(alloc: Global, scope: &Scope, x: &syntax::Expr) -> Result<Function, LowerFault>
    ensures { Lowers (function_of scope.now (plain x.now)) result }
{
    match x {
        syntax::Expr::Lambda(parameter, _, body) => {
            let parameter = name_in(alloc, scope.names.as_slice(), name_of(parameter.get()))?;
            let body = lower_expression(alloc, scope, body.get())?;
            Ok(Function { parameter, body })
        }
        _ => Err(LowerFault::NotBuilt),
    }
}

fn lower_parts(
    alloc: Global,
    scope: &Scope,
    function: &Item,
    process: &Item,
    argument: &syntax::Expr,
) -> Result<RemoteCall, LowerFault>
    ensures { let first = plain_item function.now in
        let second = plain_item process.now in
        Lowers (remote_call scope.now (more first.0 first.1 (more second.0 second.1 none)) (just (plain argument.now))) result }
{
    if !is_comma(function.separator.kind) || !is_comma(process.separator.kind) {
        return Err(LowerFault::NotBuilt);
    }
    let function = lower_function(alloc, scope, &function.expr)?;
    let process = match lower_expression(alloc, scope, &process.expr) {
        Ok(process) => process,
        Err(fault) => {
            drop(function);
            return Err(fault);
        }
    };
    match lower_expression(alloc, scope, argument) {
        Ok(argument) => Ok(RemoteCall {
            function,
            process,
            argument,
        }),
        Err(fault) => {
            drop((function, process));
            Err(fault)
        }
    }
}

/// What a remote call runs, and where.
pub fn lower_remote_call(
    alloc: Global,
    scope: &Scope,
    listing: &Listing,
) -> Result<RemoteCall, LowerFault>
    ensures { let inside = plain_listing listing.now in Lowers (remote_call scope.now inside.most inside.last) result }
{
    let Some(argument) = &listing.last else {
        return Err(LowerFault::NotBuilt);
    };
    match listing.items.as_slice() {
        [function, process] => lower_parts(alloc, scope, function, process, argument),
        _ => Err(LowerFault::NotBuilt),
    }
}

/// The parameter, as that of a body.
fn parameters_of(alloc: Global, parameter: &Txt) -> Result<Shared<Items<Txt>>, OutOfMemory>
    ensures { IfOk result (λ parameters. parameters ≡ parameter.now ∷ []) }
{
    let mut parameters = Items::new(alloc);
    parameters.push(parameter.copy()?)?;
    Shared::new(alloc, parameters)
}

/// The statement of a body that has this value.
fn block_of(alloc: Global, value: Expr) -> Result<Shared<Block>, OutOfMemory>
    ensures { IfOk result (λ block. block ≡ roll-Block (record { stmts = Value value ∷ [] })) }
{
    let mut stmts = Items::new(alloc);
    stmts.push(Stmt::Value(value))?;
    Shared::new(alloc, Block { stmts })
}

/// The body of a function of one value.
pub fn body_of(alloc: Global, number: u64, function: Function) -> Result<Body, OutOfMemory>
    ensures { IfOk result (λ body. body ≡ body_of number function) }
{
    let Function { parameter, body } = function;
    match parameters_of(alloc, parameter.get()) {
        Ok(parameters) => Ok(Body {
            number,
            parameters,
            block: block_of(alloc, body)?,
        }),
        Err(refused) => {
            drop(body);
            Err(refused)
        }
    }
}
