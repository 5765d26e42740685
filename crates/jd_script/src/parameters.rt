//! The parameters of a definition, and the packages of `using`.
ghost use Rattle.std.specs.Prelude.{◌≡◌, ℕ, nat_eq, IfOk};
ghost use Rattle.std.specs.Ordering.{nat_cmp};
ghost use Rattle.std.specs.List.{list_any};
ghost use Rattle.std.specs.BTreeSet.{contains};
ghost use Rattle.jd_grammar.specs.Script as script;
ghost use Rattle.jd_tree.specs.Keys.{parameter_keys};
ghost use Rattle.jd_script.specs.PlainScript.{plain_parameters, plain_packages, plain_signature};

use crate::tree::{NextName, Packages, Parameters, Signature};
use jd_grammar::token::{Kind, Token};
use jd_tree::kinds::is_name;
use jd_tree::names::{insert, key_of};
use sqlite_items::Items;
use std::alloc::{AllocError, Global};
use std::collections::BTreeSet;

/// Parameters, and the numbers of their names.
#[derive(Drop)]
pub struct NamedParameters {
    pub parameters: Parameters,
    pub keys: BTreeSet<u64>,
    ghost named: { (q : ℕ) → contains nat_cmp keys q ≡ list_any (nat_eq q) (parameter_keys (plain_parameters parameters)) },
}

pub fn no_parameters(alloc: Global) -> NamedParameters
    ensures { plain_parameters result.parameters ≡ script.no_parameters }
{
    NamedParameters {
        parameters: Parameters {
            first: None,
            others: Items::new(alloc),
        },
        keys: BTreeSet::new(alloc),
    }
}

pub fn first_parameter(alloc: Global, name: Token) -> Result<NamedParameters, AllocError>
    ensures { IfOk result (λ all. plain_parameters all.parameters ≡ script.first name) }
{
    let mut keys = BTreeSet::new(alloc);
    insert(&mut keys, key_of(name.kind))?;
    Ok(NamedParameters {
        parameters: Parameters {
            first: Some(name),
            others: Items::new(alloc),
        },
        keys,
    })
}

/// One parameter more, behind a comma.
pub fn with_parameter(
    parameters: NamedParameters,
    comma: Token,
    name: Token,
) -> Result<NamedParameters, AllocError>
    ensures { IfOk result (λ all. plain_parameters all.parameters ≡ script.next (plain_parameters parameters.parameters) comma name) }
{
    let NamedParameters {
        parameters,
        mut keys,
    } = parameters;
    let Parameters { first, mut others } = parameters;
    insert(&mut keys, key_of(name.kind))?;
    others.push(NextName { comma, name })?;
    Ok(NamedParameters {
        parameters: Parameters { first, others },
        keys,
    })
}

/// Whether none of them has the name.
pub fn is_fresh(parameters: &NamedParameters, kind: Kind) -> bool
    ensures { result ≡ script.is_fresh kind (plain_parameters parameters.now.parameters) }
{
    if is_name(kind) {
        !parameters.keys.contains(&key_of(kind))
    } else {
        true
    }
}

/// `f(a, b)` of a definition.
pub fn signature_of(
    name: Token,
    opens: Token,
    parameters: NamedParameters,
    closes: Token,
) -> Signature
    ensures { plain_signature result ≡ record { name = name; opens = opens; parameters = plain_parameters parameters.parameters; closes = closes } }
{
    Signature {
        name,
        opens,
        parameters: parameters.parameters,
        closes,
    }
}

/// `using A`.
pub fn first_package(alloc: Global, word: Token, name: Token) -> Packages
    ensures { plain_packages result ≡ script.using_first word name }
{
    Packages {
        word,
        first: name,
        others: Items::new(alloc),
    }
}

/// One package more, behind a comma.
pub fn with_package(packages: Packages, comma: Token, name: Token) -> Result<Packages, AllocError>
    ensures { IfOk result (λ all. plain_packages all ≡ script.using_next (plain_packages packages) comma name) }
{
    let Packages {
        word,
        first,
        mut others,
    } = packages;
    others.push(NextName { comma, name })?;
    Ok(Packages {
        word,
        first,
        others,
    })
}
