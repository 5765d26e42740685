//! The names of a script, and which of them it binds.
ghost use Rattle.std.specs.Prelude.{◌≡◌, IfOk, OnOk, false, length, map, option_map, replicate, Some};
ghost use Rattle.jd_tree.specs.Plain.{plain, plain_item, plain_listing, items_of};
ghost use Rattle.jd_script.specs.PlainScript.{place_of, plain_block, plain_line, plain_stmt};
ghost use Rattle.jd_syntax.specs.Answers.{plain_script};
ghost use Rattle.jd_lower.specs.Scopes as scopes;
ghost use Rattle.jd_lower.specs.Scopes.{bind_after, bind_block, bind_first, bind_parameter, bind_place, bind_right, bind_stmt, scope_of};

use crate::names::shared_texts;
use crate::shapes::name_of;
use jd_grammar::token::{Kind, Name};
use jd_script::tree as script;
use jd_script::tree::Lead;
use jd_syntax::Script;
use jd_tree::kinds::word_number;
use jd_tree::tree as syntax;
use jd_tree::tree::Item;
use jd_value::{OutOfMemory, Shared, Txt};
use sqlite_items::{Boxed, Items, at};
use std::alloc::Global;

/// What is known of the names of a script.
#[derive(Drop)]
pub struct Scope {
    pub texts: Items<Shared<Txt>>,
    pub names: Items<Shared<Txt>>,
    /// For each name, words first, whether a line assigns it or a function has it as its parameter.
    pub bound: Items<bool>,
}

/// How many words have a meaning of their own.
const WORD_COUNT: usize = 17;

/// The place of a name: words first, and then the script's own names.
fn place_of(name: Name) -> usize
    ensures { result ≡ scopes.place name }
{
    match name {
        Name::Word(word) => usize::from(word_number(word)),
        Name::Other(n) => n as usize + WORD_COUNT,
    }
}

impl Scope {
    /// Whether the script binds a name.
    pub fn is_bound(&self, name: Name) -> bool
        ensures { result ≡ scopes.is_bound self.now.bound name }
    {
        match at(self.bound.as_slice(), place_of(name)) {
            Some(bound) => *bound,
            None => false,
        }
    }
}

/// One more name that the script binds.
fn bind(bound: &mut Items<bool>, kind: Kind)
    ensures { bound.new ≡ scopes.bind bound.old kind }
{
    if let Kind::Name(name) = kind {
        let place = place_of(name);
        if place < bound.len() {
            bound.set(place, true);
        }
    }
}

fn bind_parameter(bound: &mut Items<bool>, x: &syntax::Expr)
    ensures { bound.new ≡ bind_parameter bound.old (plain x.now) }
{
    if let syntax::Expr::Lambda(parameter, _, _) = x {
        bind(bound, name_of(parameter.get()));
    }
}

fn bind_first(bound: &mut Items<bool>, items: &[Item])
    ensures { bound.new ≡ bind_first bound.old (items_of (map plain_item items.now)) }
{
    if let [first, ..] = items {
        bind_parameter(bound, &first.expr);
    }
}

/// The parameter of the function that a right side calls remotely.
fn bind_right(bound: &mut Items<bool>, right: &syntax::Expr)
    ensures { bound.new ≡ bind_right bound.old (plain right.now) }
{
    if let syntax::Expr::Call(_, _, listing) = right {
        bind_first(bound, listing.get().items.as_slice());
    }
}

fn bind_stmt(bound: &mut Items<bool>, written: &script::Stmt)
    ensures { bound.new ≡ bind_stmt bound.old (plain_stmt written.now) }
{
    if let script::Stmt::Ended(Lead::Assigned(name, _), right) = written {
        bind(bound, name.kind);
        bind_right(bound, right);
    }
}

fn bind_place(bound: &mut Items<bool>, place: &Option<Boxed<script::Stmt>>)
    ensures { bound.new ≡ bind_place bound.old (place_of (option_map plain_stmt place.now)) }
{
    if let Some(written) = place {
        bind_stmt(bound, written.get());
    }
}

fn bind_lines(bound: &mut Items<bool>, lines: &[script::Line])
    ensures { bound.new ≡ bind_after bound.old (map plain_line lines.now) }
{
    for line in lines {
        bind_place(bound, &line.stmt);
    }
}

#[tactic(auto, using(crate::proofs::Binding::bound_block))]
fn bind_block(bound: &mut Items<bool>, block: &script::Block)
    ensures { bound.new ≡ bind_block bound.old (plain_block block.now) }
{
    bind_lines(bound, block.lines.as_slice());
    bind_place(bound, &block.last);
}

/// As many names, none of which is bound.
fn none_bound(alloc: Global, count: usize) -> Result<Items<bool>, OutOfMemory>
    ensures { IfOk result (λ bound. bound ≡ replicate count false) }
{
    let mut bound = Items::new(alloc);
    for _ in 0..count {
        bound.push(false)?;
    }
    Ok(bound)
}

fn bound_of(alloc: Global, script: &Script) -> Result<Items<bool>, OutOfMemory>
    ensures { IfOk result (λ bound. bound ≡ (scope_of (plain_script script.now)).bound) }
{
    let Some(count) = script.names.len().checked_add(WORD_COUNT) else {
        return Err(OutOfMemory);
    };
    let mut bound = none_bound(alloc, count)?;
    bind_block(&mut bound, &script.block);
    Ok(bound)
}

/// What is known of the names of a script, in one pass over its lines.
pub fn scope_of(alloc: Global, script: &Script) -> Result<Scope, OutOfMemory>
    ensures { IfOk result (λ scope. scope ≡ scope_of (plain_script script.now)) }
{
    let bound = bound_of(alloc, script)?;
    let texts = shared_texts(alloc, script.texts.as_slice())?;
    let names = shared_texts(alloc, script.names.as_slice())?;
    Ok(Scope {
        texts,
        names,
        bound,
    })
}
