//! Names that differ: the parameters of lambdas and functions.
ghost use Rattle.std.specs.Prelude.{◌≡◌, ◌∷◌, [], ◌&&◌, ◌||◌, ◌++◌, not, ℕ, map, length, nat_eq, true, IfOk, OnOk, IsTrue, option_map};
ghost use Rattle.std.specs.Ordering.{nat_cmp};
ghost use Rattle.std.specs.List.{list_all, list_any};
ghost use Rattle.std.specs.BTreeSet.{contains};
ghost use Rattle.jd_grammar.specs.declared.token.Token.{Token};
ghost use Rattle.jd_grammar.specs.Kinds.{is_name as is_name_kind, is_comma as is_comma_kind};
ghost use Rattle.jd_grammar.specs.Trees.{bracket, called, just};
ghost use Rattle.jd_grammar.specs.Grammar as rules;
ghost use Rattle.jd_grammar.specs.Script as script;
ghost use Rattle.jd_tree.specs.Keys as keys;
ghost use Rattle.jd_tree.specs.Plain.{plain, plain_item, plain_application, applied, items_of, maybe};
ghost use Rattle.jd_tree.specs.Code.{plain_measured};

use crate::kinds::{is_comma, is_name, word_number};
use crate::measured::Measured;
use crate::tree::{Application, Expr, Item};
use jd_grammar::token::{Kind, Name, Token};
use std::alloc::{AllocError, Global};
use std::collections::BTreeSet;

// ---- names by numbers

/// The number of a name, and 0 for what is none.
pub fn key_of(kind: Kind) -> u64
    ensures { result ≡ keys.key_of kind }
{
    match kind {
        Kind::Name(Name::Word(word)) => 1 + u64::from(word_number(word)),
        Kind::Name(Name::Other(number)) => 18 + u64::from(number),
        _ => 0,
    }
}

/// Puts a number into the set, and answers whether it wasn't there.
pub fn insert(set: &mut BTreeSet<u64>, key: u64) -> Result<bool, AllocError>
    ensures added { IfOk result (λ added. added ≡ not (contains nat_cmp set.old key)) }
    ensures others { OnOk result ((q : ℕ) → contains nat_cmp set.new q ≡ (nat_eq q key || contains nat_cmp set.old q)) }
{
    Ok(set.insert(key)?)
}

fn both(one: bool, other: bool) -> bool
    ensures { result ≡ (one && other) }
{
    one && other
}

/// Whether each number is there once.
fn are_apart(alloc: Global, numbers: &[u64]) -> Result<bool, AllocError>
    ensures { IfOk result (λ apart. apart ≡ keys.are_apart numbers.now) }
{
    let mut seen = BTreeSet::new(alloc);
    let mut apart = true;
    for key in numbers {
        let added = insert(&mut seen, *key)?;
        apart = both(apart, added);
    }
    Ok(apart)
}

// ---- names in parentheses

/// The kind of a name alone.
fn name_of(expr: &Expr) -> Kind
    ensures { result ≡ rules.name_of (plain expr.now) }
{
    match expr {
        Expr::Leaf(token) => token.kind,
        _ => Kind::Comma,
    }
}

fn item_name(item: &Item) -> Kind
    ensures { result ≡ rules.name_of (plain_item item.now).0 }
{
    name_of(&item.expr)
}

fn are_names(items: &[Item]) -> bool
    ensures { result ≡ list_all (λ item. is_name_kind (rules.name_of (plain_item item).0)) items.now }
{
    items.iter().all(|item| is_name(item_name(item)))
}

/// The numbers of the names, in their order.
fn numbers_of(alloc: Global, items: &[Item], last: Kind) -> Result<Vec<u64>, AllocError>
    ensures { IfOk result (λ numbers. numbers.items ≡ map (λ item. keys.key_of (rules.name_of (plain_item item).0)) items.now ++ (keys.key_of last ∷ [])) }
{
    let mut numbers: Vec<u64> = items
        .iter()
        .map(|item| key_of(item_name(item)))
        .collect(alloc)?;
    numbers.push(key_of(last))?;
    Ok(numbers)
}

/// Whether they are names, each of them once.
fn are_different(alloc: Global, items: &[Item], last: &Expr) -> Result<bool, AllocError>
    ensures { IfOk result (λ yes. yes ≡ rules.is_list_of_names (items_of (map plain_item items.now)) (just (plain last.now))) }
{
    let last = name_of(last);
    let numbers = numbers_of(alloc, items, last)?;
    let apart = are_apart(alloc, &numbers)?;
    let named = both(are_names(items), is_name(last));
    Ok(both(named, apart))
}

/// Whether they are names, each of them once, with no comma behind the last one.
fn is_list_of_names(alloc: Global, items: &[Item], last: &Option<Expr>) -> Result<bool, AllocError>
    ensures { IfOk result (λ yes. yes ≡ rules.is_list_of_names (items_of (map plain_item items.now)) (maybe (option_map plain last.now))) }
{
    match last {
        None => Ok(items.is_empty()),
        Some(last) => are_different(alloc, items, last),
    }
}

/// Whether it is a name, or names in parentheses, each once.
pub fn are_parameters(alloc: Global, expr: &Measured) -> Result<bool, AllocError>
    ensures { IfOk result (λ yes. yes ≡ rules.are_parameters (plain_measured expr.now)) }
{
    match &expr.expr {
        Expr::Leaf(token) => Ok(is_name(token.kind)),
        Expr::Group(listing) => {
            let listing = listing.get();
            is_list_of_names(alloc, listing.items.as_slice(), &listing.last)
        }
        _ => Ok(false),
    }
}

/// Whether commas alone stand behind the items.
fn are_commas(items: &[Item]) -> bool
    ensures { result ≡ list_all (λ item. is_comma_kind (plain_item item).1.kind) items.now }
{
    items.iter().all(|item| is_comma(item_separator(item).kind))
}

fn item_separator(item: &Item) -> Token
    ensures { result ≡ (plain_item item.now).1 }
{
    item.separator
}

/// Whether nothing is applied before the last arguments, and a name stands there.
fn is_named(callee: &Expr, before: &[Application]) -> bool
    ensures { result ≡ (nat_eq (length before.now) 0 && is_name_kind (rules.name_of (plain callee.now))) }
{
    both(before.is_empty(), is_name(name_of(callee)))
}

fn is_definition(
    alloc: Global,
    callee: &Expr,
    before: &[Application],
    items: &[Item],
    last: &Option<Expr>,
) -> Result<bool, AllocError>
    ensures { (o c : Token) → IfOk result (λ yes. yes ≡ script.is_signature (bracket (called (applied (plain callee.now) (map plain_application before.now))) o
        (items_of (map plain_item items.now)) (maybe (option_map plain last.now)) c)) }
{
    let differ = is_list_of_names(alloc, items, last)?;
    let listed = both(are_commas(items), differ);
    Ok(both(is_named(callee, before), listed))
}

/// Whether it is `f(a, b)` with names that are each there once.
pub fn is_signature(alloc: Global, expr: &Measured) -> Result<bool, AllocError>
    ensures { IfOk result (λ yes. yes ≡ script.is_signature (plain_measured expr.now)) }
{
    match &expr.expr {
        Expr::Call(callee, before, listing) => {
            let listing = listing.get();
            is_definition(
                alloc,
                callee.get(),
                before.as_slice(),
                listing.items.as_slice(),
                &listing.last,
            )
        }
        _ => Ok(false),
    }
}
