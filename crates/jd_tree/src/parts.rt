//! Comprehensions and channels.
ghost use Rattle.std.specs.Prelude.{◌≡◌, IfOk};
ghost use Rattle.jd_grammar.specs.Trees.{comprehension, remote, no_more};
ghost use Rattle.jd_grammar.specs.Grammar as rules;
ghost use Rattle.jd_grammar.specs.Machine as machine;
ghost use Rattle.jd_tree.specs.Plain.{plain_channel};
ghost use Rattle.jd_tree.specs.Code.{plain_measured, plain_generators};

use crate::measured::{Generators, Measured};
use crate::profile::round_profile;
use crate::tree::{Channel, Comprehension, Expr, Generator, Remote};
use jd_grammar::token::Token;
use sqlite_items::{Boxed, Items};
use std::alloc::{AllocError, Global};

pub fn no_generators(alloc: Global) -> Generators
    ensures { plain_generators result ≡ no_more }
{
    Generators {
        items: Items::new(alloc),
        nesting: 0,
    }
}

/// One generator more: `for` or the comma, the name, `in`, and the collection.
pub fn with_generator(
    generators: Generators,
    begins: Token,
    name: Token,
    within: Token,
    collection: Measured,
) -> Result<Generators, AllocError>
    ensures { IfOk result (λ all. plain_generators all
        ≡ machine.with_generator (plain_generators generators) begins name within (plain_measured collection)) }
{
    let Generators { mut items, nesting } = generators;
    let nesting = nesting.max(collection.profile.nesting);
    items.push(Generator {
        begins,
        name,
        within,
        collection: collection.expr,
    })?;
    Ok(Generators { items, nesting })
}

/// How many there are.
pub fn generator_count(generators: &Generators) -> usize
    ensures { result ≡ rules.count (plain_generators generators.now) }
{
    generators.items.len()
}

pub fn comprehension_of(
    alloc: Global,
    opens: Token,
    element: Measured,
    generators: Generators,
    closes: Token,
) -> Result<Measured, AllocError>
    ensures { IfOk result (λ m. plain_measured m
        ≡ comprehension opens (plain_measured element) (plain_generators generators) closes) }
{
    let profile = round_profile(element.profile.nesting.max(generators.nesting));
    let comprehension = Comprehension {
        opens,
        element: element.expr,
        generators: generators.items,
        closes,
    };
    let comprehension = Boxed::new(alloc, comprehension)?;
    Ok(Measured {
        expr: Expr::Comprehension(comprehension),
        profile,
    })
}

/// The tokens of a channel behind its beginning, without its size and place.
#[derive(Clone, Copy)]
pub struct ChannelSigns {
    pub element: Token,
    pub shut: Token,
    pub opens: Token,
    pub closes: Token,
    pub comma: Token,
    pub last: Token,
}

/// `RemoteChannel(() -> Channel{element}(size), place)`.
pub fn remote_of(
    alloc: Global,
    channel: Channel,
    signs: ChannelSigns,
    size: Measured,
    place: Measured,
) -> Result<Measured, AllocError>
    ensures { IfOk result (λ m. plain_measured m
        ≡ remote (plain_channel channel) signs.element signs.shut signs.opens (plain_measured size)
        signs.closes signs.comma (plain_measured place) signs.last) }
{
    let profile = round_profile(
        size.profile
            .nesting
            .saturating_add(2)
            .max(place.profile.nesting),
    );
    let remote = Remote {
        channel,
        element: signs.element,
        shut: signs.shut,
        opens: signs.opens,
        size: size.expr,
        closes: signs.closes,
        comma: signs.comma,
        place: place.expr,
        last: signs.last,
    };
    let remote = Boxed::new(alloc, remote)?;
    Ok(Measured {
        expr: Expr::Remote(remote),
        profile,
    })
}
