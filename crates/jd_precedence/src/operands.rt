//! Reads a token where an operand is wanted.
ghost use Rattle.std.specs.Prelude.{◌≡◌, ◌∷◌, Some};
ghost use Rattle.jd_grammar.specs.Grammar as grammar;
ghost use Rattle.jd_grammar.specs.Frames.{open_end, fixed, in_bracket, want};
ghost use Rattle.jd_grammar.specs.Frames as machine_frames;
ghost use Rattle.jd_grammar.specs.Machine as machine;
ghost use Rattle.jd_tree.specs.Code.{plain_measured, plain_arguments, plain_bracket};
ghost use Rattle.jd_precedence.specs.State.{plain_frames, plain_fixed, Steps};

use crate::brackets::{bracket_step, empty_step, is_first};
use crate::frames::{Fixed, Frame, Hold, Listing, Now, Words};
use crate::parts::begun_rows;
use crate::stack::Stack;
use crate::stop::{Stop, refuse, stopped};
use jd_grammar::token::{Kind, Token};
use jd_tree::brackets::{item_level, no_arguments};
use jd_tree::build::{ending_of, leaf_of, sign_of};
use jd_tree::heads::asks_of;
use jd_tree::kinds::{is_argument, is_least, is_minus};
use jd_tree::measured::{Bracket, Head, Measured};
use jd_tree::rows::{split, with_atom};
use std::alloc::Global;

/// What stands between the tokens of a construct asks as much.
fn demand_of(fixed: &Fixed) -> u8
    ensures { result ≡ machine_frames.demand_of (plain_fixed fixed.now) }
{
    match fixed {
        Fixed::InBracket(listing) => item_level(&listing.bracket),
        Fixed::InMiddle(_, _) => 3,
        Fixed::InGroup(_, _) | Fixed::InGenerator(_, _) | Fixed::InSize(_) | Fixed::InPlace(_, _) =>
            1,
    }
}

/// How tightly the operand has to bind that is read now.
pub fn demand(frames: &Stack<Frame>) -> u8
    ensures { result ≡ machine_frames.demand (plain_frames frames.now) }
{
    match frames.top() {
        None => 1,
        Some(Frame::OpenEnd(head)) => asks_of(head),
        Some(Frame::Fixed(fixed)) => demand_of(fixed),
    }
}

/// Reads an operator as an argument.
fn operator_step(frames: &Stack<Frame>, token: Token) -> Result<Now, Stop>
    ensures { Steps (machine.operator_step token (plain_frames frames.now)) frames.now result }
{
    match frames.top() {
        Some(Frame::Fixed(Fixed::InBracket(listing))) => match &listing.bracket {
            Bracket::Called(_) => Ok(Now::Pending(Words::Operator(token))),
            Bracket::Grouped | Bracket::Itemed | Bracket::Indexed(_) => Err(Stop::Refused),
        },
        _ => Err(Stop::Refused),
    }
}

/// Reads `@spawnat` or `@fetchfrom`.
fn spawn_step(frames: &Stack<Frame>, token: Token) -> Result<Now, Stop>
    ensures { Steps (machine.spawn_step token (plain_frames frames.now)) frames.now result }
{
    if demand(frames) > 1 {
        return Err(Stop::Refused);
    }
    Ok(Now::Pending(Words::Atoms(Hold::Spawning(token))))
}

/// Reads 2^63 behind a difference in a bracket's first element: it can only be an atom.
fn least_atom(
    alloc: Global,
    frames: &Stack<Frame>,
    left: Measured,
    minus: Token,
    opens: Token,
    token: Token,
) -> Result<Now, Stop>
    ensures { let row = fixed (in_bracket grammar.itemed opens grammar.none) in
        Steps (machine.wide_step token (open_end (grammar.binary (plain_measured left) minus) ∷ row ∷ plain_frames frames.now)) frames.now result }
{
    let is_atom = is_minus(minus.kind) && minus.spaced && is_least(token.kind, token.spaced);
    if !is_atom || !left.profile.chain {
        return refuse(left);
    }
    let atoms = split(alloc, left)?;
    let atom = match ending_of(alloc, Head::Unary(minus), leaf_of(token)) {
        Ok(atom) => atom,
        Err(_) => return stopped(atoms, Stop::OutOfMemory),
    };
    let atoms = with_atom(atoms, None, atom)?;
    begun_rows(alloc, frames, opens, atoms)
}

/// Reads 2^63 or a larger number behind a binary operator in parentheses or brackets.
#[tactic(auto, using(crate::proofs::First::wide_other))]
fn wide_item(
    alloc: Global,
    frames: &Stack<Frame>,
    left: Measured,
    operator: Token,
    listing: Listing,
    token: Token,
) -> Result<Now, Stop>
    ensures { let item = fixed (in_bracket (plain_bracket listing.bracket) listing.opens (plain_arguments listing.most)) in
        Steps (machine.wide_step token (open_end (grammar.binary (plain_measured left) operator) ∷ item ∷ plain_frames frames.now)) frames.now result }
{
    if !is_first(&listing) {
        return refuse((left, listing));
    }
    let opens = listing.opens;
    drop(listing);
    least_atom(alloc, frames, left, operator, opens, token)
}

/// Reads 2^63 or a larger number behind a binary operator.
fn wide_operand(
    alloc: Global,
    frames: &mut Stack<Frame>,
    left: Measured,
    operator: Token,
    token: Token,
) -> Result<Now, Stop>
    ensures { Steps (machine.wide_step token (open_end (grammar.binary (plain_measured left) operator) ∷ plain_frames frames.old)) frames.new result }
{
    match frames.pop() {
        Some(Frame::Fixed(fixed)) => match fixed {
            Fixed::InBracket(listing) => wide_item(alloc, frames, left, operator, listing, token),
            fixed => refuse((left, fixed)),
        },
        Some(Frame::OpenEnd(head)) => refuse((left, head)),
        None => refuse(left),
    }
}

/// Reads 2^63 or a larger number behind a sign.
fn wide_signed(frames: &mut Stack<Frame>, sign: Token, token: Token) -> Result<Now, Stop>
    ensures { Steps (machine.wide_step token (open_end (grammar.unary sign) ∷ plain_frames frames.old)) frames.new result }
{
    if !is_minus(sign.kind) || !is_least(token.kind, token.spaced) {
        return Err(Stop::Refused);
    }
    frames.push(Frame::OpenEnd(Head::Unary(sign)))?;
    Ok(Now::Got(leaf_of(token)))
}

/// Reads 2^63 or a larger number.
fn wide_step(alloc: Global, frames: &mut Stack<Frame>, token: Token) -> Result<Now, Stop>
    ensures { Steps (machine.wide_step token (plain_frames frames.old)) frames.new result }
{
    match frames.pop() {
        Some(Frame::OpenEnd(head)) => match head {
            Head::Unary(sign) => wide_signed(frames, sign, token),
            Head::Binary(left, operator) => wide_operand(alloc, frames, left, operator, token),
            head => refuse(head),
        },
        Some(Frame::Fixed(fixed)) => refuse(fixed),
        None => Err(Stop::Refused),
    }
}

/// Reads what no operand begins with behind an operator that may be an argument, in parentheses or brackets.
fn sign_item(
    alloc: Global,
    frames: &mut Stack<Frame>,
    sign: Token,
    listing: Listing,
    token: Token,
) -> Result<Now, Stop>
    ensures { let item = fixed (in_bracket (plain_bracket listing.bracket) listing.opens (plain_arguments listing.most)) in
        Steps (machine.want_end token.kind token (open_end (grammar.unary sign) ∷ item ∷ plain_frames frames.old)) frames.new result }
{
    match &listing.bracket {
        Bracket::Called(_) => {}
        Bracket::Grouped | Bracket::Itemed | Bracket::Indexed(_) => return refuse(listing),
    }
    if !is_argument(sign.kind) {
        return refuse(listing);
    }
    bracket_step(alloc, frames, listing, token, sign_of(sign))
}

/// Reads what no operand begins with behind an operator that may be an argument.
fn sign_end(
    alloc: Global,
    frames: &mut Stack<Frame>,
    sign: Token,
    token: Token,
) -> Result<Now, Stop>
    ensures { Steps (machine.want_end token.kind token (open_end (grammar.unary sign) ∷ plain_frames frames.old)) frames.new result }
{
    match frames.pop() {
        Some(Frame::Fixed(fixed)) => match fixed {
            Fixed::InBracket(listing) => sign_item(alloc, frames, sign, listing, token),
            fixed => refuse(fixed),
        },
        Some(Frame::OpenEnd(head)) => refuse(head),
        None => Err(Stop::Refused),
    }
}

/// Reads what no operand begins with.
fn want_end(alloc: Global, frames: &mut Stack<Frame>, token: Token) -> Result<Now, Stop>
    ensures { Steps (machine.want_end token.kind token (plain_frames frames.old)) frames.new result }
{
    match frames.pop() {
        Some(Frame::Fixed(fixed)) => match fixed {
            Fixed::InBracket(listing) => empty_step(alloc, frames, listing, token),
            fixed => refuse(fixed),
        },
        Some(Frame::OpenEnd(head)) => match head {
            Head::Unary(sign) => sign_end(alloc, frames, sign, token),
            head => refuse(head),
        },
        None => Err(Stop::Refused),
    }
}

/// Begins parentheses or brackets.
pub fn begin_bracket(
    alloc: Global,
    frames: &mut Stack<Frame>,
    bracket: Bracket,
    token: Token,
) -> Result<Now, Stop>
    ensures { Steps (Some (want (fixed (in_bracket (plain_bracket bracket) token grammar.none) ∷ plain_frames frames.old))) frames.new result }
{
    let most = no_arguments(alloc);
    frames.push(Frame::Fixed(Fixed::InBracket(Listing {
        bracket,
        opens: token,
        most,
    })))?;
    Ok(Now::Wanted)
}

/// Reads a token where an operand is wanted.
pub fn want_step(alloc: Global, frames: &mut Stack<Frame>, token: Token) -> Result<Now, Stop>
    ensures { Steps (machine.want_step token.kind token (plain_frames frames.old)) frames.new result }
{
    match token.kind {
        Kind::Number(_)
        | Kind::Text(_)
        | Kind::Name(_)
        | Kind::True
        | Kind::False
        | Kind::Nothing => Ok(Now::Got(leaf_of(token))),
        Kind::Wide(_) => wide_step(alloc, frames, token),
        Kind::Plus | Kind::Minus | Kind::Not | Kind::Complement => {
            frames.push(Frame::OpenEnd(Head::Unary(token)))?;
            Ok(Now::Wanted)
        }
        Kind::Star | Kind::And | Kind::Or | Kind::Xor => operator_step(frames, token),
        Kind::OpenParen => begin_bracket(alloc, frames, Bracket::Grouped, token),
        Kind::OpenBracket => begin_bracket(alloc, frames, Bracket::Itemed, token),
        Kind::SpawnAt | Kind::FetchFrom => spawn_step(frames, token),
        _ => want_end(alloc, frames, token),
    }
}
