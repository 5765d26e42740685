//! The names that a body uses and doesn't bind.
ghost use Rattle.std.specs.Prelude.{◌≡◌, ◌++◌, ◌∷◌, [], ℕ, List, flat_map, IfOk, OnOk};
ghost use Rattle.jd_task.specs.Bound.{with_names};
ghost use Rattle.jd_task.specs.Names.{names_of, name_in, first_uses, used_of, bound_of, uses_of, arm_uses_of, block_uses_of, free_names};
ghost use Rattle.jd_value.specs.declared.tree.Body.{out-Body};

use indexmap::IndexSet;
use jd_value::{Arm, Block, Body, Expr, OutOfMemory, Shared, Stmt, Txt};
use sqlite_items::Items;
use std::alloc::Global;

#[cycle(names)]
fn push_names(x: &Expr, out: &mut Items<Shared<Txt>>) -> Result<(), OutOfMemory>
    ensures { OnOk result (out.new ≡ out.old ++ names_of x.now) }
{
    match x {
        Expr::Int(_) | Expr::Truth(_) | Expr::Nothing | Expr::Text(_) => Ok(()),
        Expr::Name(name) => {
            out.push(name.share()?)?;
            Ok(())
        }
        Expr::Apply(_, args) => push_all_names(args.as_slice(), out),
        Expr::And(a, b) | Expr::Or(a, b) => {
            push_names(a.get(), out)?;
            push_names(b.get(), out)
        }
        Expr::Choose(test, a, b) => {
            push_names(test.get(), out)?;
            push_names(a.get(), out)?;
            push_names(b.get(), out)
        }
    }
}

/// Adds the variables that the expressions read, from left to right.
#[cycle(names)]
fn push_all_names(all: &[Expr], out: &mut Items<Shared<Txt>>) -> Result<(), OutOfMemory>
    ensures { OnOk result (out.new ≡ out.old ++ flat_map names_of all.now) }
{
    for x in all {
        push_names(x, out)?;
    }
    Ok(())
}

fn add(names: &mut IndexSet<Shared<Txt>>, name: &Shared<Txt>) -> Result<(), OutOfMemory>
    ensures { OnOk result (names.new.keys ≡ with_names names.old.keys (name.now ∷ [])) }
{
    names.insert(name.share()?)?;
    Ok(())
}

fn add_parameter(
    alloc: Global,
    parameter: &Txt,
    names: &mut IndexSet<Shared<Txt>>,
) -> Result<(), OutOfMemory>
    ensures { OnOk result (names.new.keys ≡ with_names names.old.keys (parameter.now ∷ [])) }
{
    names.insert(Shared::new(alloc, parameter.copy()?)?)?;
    Ok(())
}

fn add_parameters(
    alloc: Global,
    parameters: &[Txt],
    names: &mut IndexSet<Shared<Txt>>,
) -> Result<(), OutOfMemory>
    ensures { OnOk result (names.new.keys ≡ with_names names.old.keys parameters.now) }
{
    for parameter in parameters {
        add_parameter(alloc, parameter, names)?;
    }
    Ok(())
}

fn add_name_in(
    name: &Option<Shared<Txt>>,
    names: &mut IndexSet<Shared<Txt>>,
) -> Result<(), OutOfMemory>
    ensures { OnOk result (names.new.keys ≡ with_names names.old.keys (name_in name.now)) }
{
    match name {
        Some(name) => add(names, name),
        None => Ok(()),
    }
}

#[cycle(bound)]
#[tactic(auto, using(crate::proofs::Bound::bound))]
fn add_bound(stmt: &Stmt, names: &mut IndexSet<Shared<Txt>>) -> Result<(), OutOfMemory>
    ensures { OnOk result (names.new.keys ≡ with_names names.old.keys (bound_of (uses_of stmt.now))) }
{
    match stmt {
        Stmt::Set(name, _) => add(names, name),
        Stmt::Value(_) | Stmt::Break | Stmt::Continue => Ok(()),
        Stmt::Effect(name, _, _, _) => add(names, name),
        Stmt::Push(name, _) => add(names, name),
        Stmt::If(arms, other) => {
            add_all_arms_bound(arms.get().as_slice(), names)?;
            add_block_bound(other.get(), names)
        }
        Stmt::While(arm) => add_arm_bound(arm.get(), names),
        Stmt::For(name, _, block) => {
            add(names, name)?;
            add_block_bound(block.get(), names)
        }
        Stmt::Try(block, name, handler) => {
            add_name_in(name, names)?;
            add_block_bound(block.get(), names)?;
            add_block_bound(handler.get(), names)
        }
    }
}

#[cycle(bound)]
fn add_all_bound(stmts: &[Stmt], names: &mut IndexSet<Shared<Txt>>) -> Result<(), OutOfMemory>
    ensures { OnOk result (names.new.keys ≡ with_names names.old.keys (flat_map (λ stmt. bound_of (uses_of stmt)) stmts.now)) }
{
    for stmt in stmts {
        add_bound(stmt, names)?;
    }
    Ok(())
}

#[cycle(bound)]
#[tactic(auto, using(crate::proofs::Bound::bound))]
fn add_block_bound(block: &Block, names: &mut IndexSet<Shared<Txt>>) -> Result<(), OutOfMemory>
    ensures { OnOk result (names.new.keys ≡ with_names names.old.keys (bound_of (block_uses_of block.now))) }
{
    add_all_bound(block.stmts.as_slice(), names)
}

#[cycle(bound)]
#[tactic(auto, using(crate::proofs::Bound::bound))]
fn add_arm_bound(arm: &Arm, names: &mut IndexSet<Shared<Txt>>) -> Result<(), OutOfMemory>
    ensures { OnOk result (names.new.keys ≡ with_names names.old.keys (bound_of (arm_uses_of arm.now))) }
{
    add_block_bound(arm.effects.get(), names)?;
    add_block_bound(arm.block.get(), names)
}

#[cycle(bound)]
fn add_all_arms_bound(arms: &[Arm], names: &mut IndexSet<Shared<Txt>>) -> Result<(), OutOfMemory>
    ensures { OnOk result (names.new.keys ≡ with_names names.old.keys (flat_map (λ arm. bound_of (arm_uses_of arm)) arms.now)) }
{
    for arm in arms {
        add_arm_bound(arm, names)?;
    }
    Ok(())
}

/// Adds the parameters of a body and the names to which its statements give values.
fn add_bound_in(
    alloc: Global,
    body: &Body,
    names: &mut IndexSet<Shared<Txt>>,
) -> Result<(), OutOfMemory>
    ensures { OnOk result (names.new.keys ≡ with_names (with_names names.old.keys (out-Body body.now).parameters) (bound_of (block_uses_of (out-Body body.now).block))) }
{
    add_parameters(alloc, body.parameters.get().as_slice(), names)?;
    add_block_bound(body.block.get(), names)
}

/// The parameters of a body and the names to which its statements give values.
fn bound_names(alloc: Global, body: &Body) -> Result<IndexSet<Shared<Txt>>, OutOfMemory>
    ensures { IfOk result (λ names. names.keys ≡ with_names (with_names [] (out-Body body.now).parameters) (bound_of (block_uses_of (out-Body body.now).block))) }
{
    let mut names = IndexSet::new(alloc);
    add_bound_in(alloc, body, &mut names)?;
    Ok(names)
}

/// Adds a name that isn't in the set, to the set and to `out`.
fn push_first_use(
    bound: &mut IndexSet<Shared<Txt>>,
    name: &Shared<Txt>,
    out: &mut Items<Shared<Txt>>,
) -> Result<(), OutOfMemory>
    ensures { OnOk result ((rest : List (List ℕ)) → out.old ++ first_uses bound.old.keys (name.now ∷ rest) ≡ out.new ++ first_uses bound.new.keys rest) }
{
    if bound.insert(name.share()?)? {
        out.push(name.share()?)?;
    }
    Ok(())
}

/// Adds the names that aren't in the set, each where it stands first.
fn push_first_uses(
    mut bound: IndexSet<Shared<Txt>>,
    names: &[Shared<Txt>],
    out: &mut Items<Shared<Txt>>,
) -> Result<(), OutOfMemory>
    ensures { OnOk result (out.new ≡ out.old ++ first_uses bound.keys names.now) }
{
    for name in names {
        push_first_use(&mut bound, name, out)?;
    }
    Ok(())
}

#[cycle(uses)]
#[tactic(auto, using(crate::proofs::Uses::uses))]
fn push_uses(alloc: Global, stmt: &Stmt, out: &mut Items<Shared<Txt>>) -> Result<(), OutOfMemory>
    ensures { OnOk result (out.new ≡ out.old ++ used_of (uses_of stmt.now)) }
{
    match stmt {
        Stmt::Set(_, x) => push_names(x, out),
        Stmt::Value(x) => push_names(x, out),
        Stmt::Push(_, x) => push_names(x, out),
        Stmt::Effect(_, _, Some(body), args) => {
            push_free_names(alloc, body, out)?;
            push_all_names(args.as_slice(), out)
        }
        Stmt::Effect(_, _, None, args) => push_all_names(args.as_slice(), out),
        Stmt::If(arms, other) => {
            push_all_arm_uses(alloc, arms.get().as_slice(), out)?;
            push_block_uses(alloc, other.get(), out)
        }
        Stmt::While(arm) => push_arm_uses(alloc, arm.get(), out),
        Stmt::For(_, x, block) => {
            push_names(x, out)?;
            push_block_uses(alloc, block.get(), out)
        }
        Stmt::Try(block, _, handler) => {
            push_block_uses(alloc, block.get(), out)?;
            push_block_uses(alloc, handler.get(), out)
        }
        Stmt::Break | Stmt::Continue => Ok(()),
    }
}

#[cycle(uses)]
fn push_all_uses(
    alloc: Global,
    all: &[Stmt],
    out: &mut Items<Shared<Txt>>,
) -> Result<(), OutOfMemory>
    ensures { OnOk result (out.new ≡ out.old ++ flat_map (λ stmt. used_of (uses_of stmt)) all.now) }
{
    for stmt in all {
        push_uses(alloc, stmt, out)?;
    }
    Ok(())
}

#[cycle(uses)]
#[tactic(auto, using(crate::proofs::Uses::uses))]
fn push_block_uses(
    alloc: Global,
    block: &Block,
    out: &mut Items<Shared<Txt>>,
) -> Result<(), OutOfMemory>
    ensures { OnOk result (out.new ≡ out.old ++ used_of (block_uses_of block.now)) }
{
    push_all_uses(alloc, block.stmts.as_slice(), out)
}

#[cycle(uses)]
#[tactic(auto, using(crate::proofs::Uses::uses))]
fn push_arm_uses(alloc: Global, arm: &Arm, out: &mut Items<Shared<Txt>>) -> Result<(), OutOfMemory>
    ensures { OnOk result (out.new ≡ out.old ++ used_of (arm_uses_of arm.now)) }
{
    push_block_uses(alloc, arm.effects.get(), out)?;
    push_names(&arm.test, out)?;
    push_block_uses(alloc, arm.block.get(), out)
}

#[cycle(uses)]
fn push_all_arm_uses(
    alloc: Global,
    all: &[Arm],
    out: &mut Items<Shared<Txt>>,
) -> Result<(), OutOfMemory>
    ensures { OnOk result (out.new ≡ out.old ++ flat_map (λ arm. used_of (arm_uses_of arm)) all.now) }
{
    for arm in all {
        push_arm_uses(alloc, arm, out)?;
    }
    Ok(())
}

/// Adds the names that a body uses and doesn't bind, in the order of their first use.
#[cycle(uses)]
pub(crate) fn push_free_names(
    alloc: Global,
    body: &Body,
    out: &mut Items<Shared<Txt>>,
) -> Result<(), OutOfMemory>
    ensures { OnOk result (out.new ≡ out.old ++ free_names body.now) }
{
    let mut used = Items::new(alloc);
    push_block_uses(alloc, body.block.get(), &mut used)?;
    push_first_uses(bound_names(alloc, body)?, used.as_slice(), out)
}
