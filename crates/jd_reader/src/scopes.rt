//! Where statements stand.
ghost use Rattle.std.specs.Prelude.{◌≡◌};
ghost use Rattle.jd_grammar.specs.Script as grammar;
ghost use Rattle.jd_grammar.specs.Reader as machine;
ghost use Rattle.jd_script.specs.PlainScript.{plain_header, plain_opening};
ghost use Rattle.jd_reader.specs.Reading.{plain_outers, plain_scope};

use crate::context::Outer;
use jd_precedence::stack::Stack;
use jd_script::tree::{Header, Opening};

/// What may stand in a block.
#[derive(Clone, Copy)]
pub struct Scope {
    /// It is the script's own.
    pub top: bool,
    /// It is in a loop.
    pub in_loop: bool,
    /// It is in a function.
    pub in_function: bool,
}

fn within_header(header: &Header, scope: Scope) -> Scope
    ensures { plain_scope result ≡ grammar.within_header (plain_header header.now) (plain_scope scope) }
{
    let in_loop = match header {
        Header::While(_) | Header::For(_, _, _) => true,
        Header::If(_) | Header::Elseif(_) => scope.in_loop,
        Header::Distributed(_) => false,
    };
    Scope {
        top: false,
        in_loop,
        in_function: scope.in_function,
    }
}

/// The scope of the block behind an opening.
fn within(opening: &Opening, scope: Scope) -> Scope
    ensures { plain_scope result ≡ grammar.within (plain_opening opening.now) (plain_scope scope) }
{
    match opening {
        Opening::Headed(header, _, _) => within_header(header, scope),
        Opening::Else(_) | Opening::Try(_) | Opening::Catch(_, _) | Opening::CatchName(_, _, _) => {
            Scope {
                top: false,
                in_loop: scope.in_loop,
                in_function: scope.in_function,
            }
        }
        Opening::Function(_, _, _) => Scope {
            top: false,
            in_loop: false,
            in_function: true,
        },
    }
}

/// The scope of the innermost block.
pub fn scope_of(outer: &Stack<Outer>) -> Scope
    ensures { plain_scope result ≡ machine.scope (plain_outers outer.now) }
{
    let mut scope = Scope {
        top: true,
        in_loop: false,
        in_function: false,
    };
    let mut depth = outer.len();
    while depth > 0 {
        depth -= 1;
        if let Some(statement) = outer.below(depth) {
            scope = within(&statement.opening.opening, scope);
        }
    }
    scope
}
