//! Calls of the builtin functions by their names.
ghost use Rattle.std.specs.Prelude.{◌≡◌, map};
ghost use Rattle.std.specs.Str.{bytes_eq};
ghost use Rattle.jd_grammar.specs.declared.token.Word.TheVariants as word;
ghost use Rattle.jd_grammar.specs.Kinds as kinds;
ghost use Rattle.jd_tree.specs.Plain.{plain_listing};
ghost use Rattle.jd_lower.specs.Builtins as builtins;
ghost use Rattle.jd_lower.specs.Builtins.{builtin_among, builtin_named, function, is_of_int};

use crate::names::name_text;
use crate::scope::Scope;
use crate::shapes::{is_none, name_of};
use jd_grammar::token::{Kind, Name, Word};
use jd_tree::tree::Listing;
use jd_value::{Builtin, Expr};
use sqlite_items::Items;

/// The builtin functions that are called by a name.
pub static BUILTINS: [(&str, Builtin); 27] = [
    ("div", Builtin::Divide),
    ("rem", Builtin::Remainder),
    ("mod", Builtin::Modulo),
    ("xor", Builtin::Xor),
    ("abs", Builtin::Abs),
    ("min", Builtin::Min),
    ("max", Builtin::Max),
    ("iseven", Builtin::IsEven),
    ("isodd", Builtin::IsOdd),
    ("length", Builtin::Length),
    ("size", Builtin::Size),
    ("sum", Builtin::Sum),
    ("prod", Builtin::Product),
    ("maximum", Builtin::Maximum),
    ("minimum", Builtin::Minimum),
    ("collect", Builtin::Collect),
    ("first", Builtin::First),
    ("last", Builtin::Last),
    ("isempty", Builtin::IsEmpty),
    ("fill", Builtin::Fill),
    ("vcat", Builtin::Concatenate),
    ("identity", Builtin::Identity),
    ("error", Builtin::Error),
    ("throw", Builtin::Throw),
    ("typemax", Builtin::TypeMax),
    ("typemin", Builtin::TypeMin),
    ("Array", Builtin::Array),
];

/// Whether a name is that of a row. Most are too long or too short, and are not compared further.
fn is_named(row: &str, name: &[u8]) -> bool
    ensures { result ≡ bytes_eq row.now name.now }
{
    row.len() == name.len() && row.as_bytes() == name
}

fn builtin_among(rows: &[(&str, Builtin)], name: &[u8]) -> Option<Builtin>
    ensures { result ≡ builtin_among (map (λ row. (row.0.now, row.1)) rows.now) name.now }
{
    for (row, function) in rows {
        if is_named(row, name) {
            return Some(*function);
        }
    }
    None
}

#[tactic(auto, unfolding(crate::specs::Builtins::builtin_named))]
fn builtin_named(name: &[u8]) -> Option<Builtin>
    ensures { result ≡ builtin_named name.now }
{
    builtin_among(&BUILTINS, name)
}

/// The builtin function that a name calls, unless the script binds the name.
pub fn function_of(scope: &Scope, kind: Kind) -> Option<Builtin>
    ensures { result ≡ function scope.now kind }
{
    let Kind::Name(name) = kind else {
        return None;
    };
    if scope.is_bound(name) {
        None
    } else {
        builtin_named(name_text(scope.names.as_slice(), name))
    }
}

fn is_int_word(kind: Kind) -> bool
    ensures { result ≡ kinds.is_word word.Int kind }
{
    matches!(kind, Kind::Name(Name::Word(Word::Int)))
}

fn is_int(scope: &Scope, kind: Kind) -> bool
    ensures { result ≡ builtins.is_int scope.now kind }
{
    is_int_word(kind) && !scope.is_bound(Name::Word(Word::Int))
}

/// Whether `Int` stands alone in the parentheses.
pub fn is_of_int(scope: &Scope, listing: &Listing) -> bool
    ensures { let inside = plain_listing listing.now in result ≡ is_of_int scope.now inside.most inside.last }
{
    match &listing.last {
        Some(x) => is_none(listing.items.as_slice()) && is_int(scope, name_of(x)),
        None => false,
    }
}

/// A function of these arguments. `typemax(Int)` and `typemin(Int)` are numbers.
pub fn applied_to(function: Builtin, of_int: bool, args: Items<Expr>) -> Expr
    ensures { result ≡ builtins.applied_to function of_int args }
{
    match (function, of_int) {
        (Builtin::TypeMax, true) => {
            drop(args);
            Expr::Int(i64::MAX)
        }
        (Builtin::TypeMin, true) => {
            drop(args);
            Expr::Int(i64::MIN)
        }
        _ => Expr::Apply(function, args),
    }
}
