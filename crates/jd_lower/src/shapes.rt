//! Questions to the trees of expressions.
ghost use Rattle.std.specs.Prelude.{◌≡◌, map};
ghost use Rattle.jd_grammar.specs.Kinds as kinds;
ghost use Rattle.jd_grammar.specs.Grammar as grammar;
ghost use Rattle.jd_tree.specs.Plain.{plain, plain_application, plain_cell, plain_item, items_of, cells_at, applied};
ghost use Rattle.jd_lower.specs.Builtins as builtins;
ghost use Rattle.jd_lower.specs.Expressions as expressions;

use jd_grammar::token::Kind;
use jd_tree::tree::{Application, Cell, Expr, Item};

/// The kind of a name alone.
pub fn name_of(x: &Expr) -> Kind
    ensures { result ≡ grammar.name_of (plain x.now) }
{
    match x {
        Expr::Leaf(token) => token.kind,
        _ => Kind::Comma,
    }
}

/// The kind of a function's name, where nothing stands between it and the last arguments.
#[tactic(auto, using(crate::proofs::Trees::behind_some))]
pub fn callee_of(f: &Expr, before: &[Application]) -> Kind
    ensures { result ≡ grammar.name_of (applied (plain f.now) (map plain_application before.now)) }
{
    match before {
        [] => name_of(f),
        _ => Kind::Comma,
    }
}

pub fn is_comma(kind: Kind) -> bool
    ensures { result ≡ kinds.is_comma kind }
{
    matches!(kind, Kind::Comma)
}

#[tactic(auto, using(crate::proofs::Trees::some_items))]
pub fn is_none(items: &[Item]) -> bool
    ensures { result ≡ builtins.is_none (items_of (map plain_item items.now)) }
{
    match items {
        [] => true,
        _ => false,
    }
}

/// Whether each row has one atom.
pub fn is_column(cells: &[Cell]) -> bool
    ensures { result ≡ expressions.is_column (cells_at (map plain_cell cells.now)) }
{
    match cells {
        [] => true,
        [first, ..] => first.semicolon.is_some(),
    }
}
