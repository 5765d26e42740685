//! Reads what stands behind an operand in parentheses or brackets.
ghost use Rattle.std.specs.Prelude.{◌≡◌, true, IfOk};
ghost use Rattle.jd_grammar.specs.Rows.{is_chain};
ghost use Rattle.jd_grammar.specs.Grammar.{itemed, none};
ghost use Rattle.jd_grammar.specs.Grammar as grammar;
ghost use Rattle.jd_grammar.specs.Frames as machine_frames;
ghost use Rattle.jd_grammar.specs.Machine as machine;
ghost use Rattle.jd_tree.specs.Code.{plain_measured, plain_arguments, plain_bracket, plain_maybe};
ghost use Rattle.jd_precedence.specs.Parts.{is_first_element};
ghost use Rattle.jd_precedence.specs.State.{plain_frames, plain_now, Steps};

use crate::frames::{Comprehension, Fixed, Frame, Listing, Now, Words};
use crate::parts::{begun_rows, rows_in};
use crate::stack::Stack;
use crate::stop::{Stop, refuse, stopped};
use jd_grammar::token::{Kind, Token};
use jd_tree::brackets::{
    bracket_of, is_closer, is_row, is_separator, is_shape, touches, with_item,
};
use jd_tree::build::leaf_of;
use jd_tree::measured::{Arguments, Bracket, Measured};
use jd_tree::parts::no_generators;
use jd_tree::rows::{is_full, matrix_of, may_go_on, split, with_atom};
use sqlite_items::Boxed;
use std::alloc::{AllocError, Global};

/// Whether it is a bracket whose first element is read.
pub fn is_first(listing: &Listing) -> bool
    ensures { result ≡ is_first_element (plain_bracket listing.now.bracket) (plain_arguments listing.now.most) }
{
    match &listing.bracket {
        Bracket::Itemed => listing.most.items.is_empty(),
        Bracket::Grouped | Bracket::Called(_) | Bracket::Indexed(_) => false,
    }
}

/// Whether a last item may stand there: what is a row of atoms is no list.
fn takes_last(bracket: &Bracket, most: &Arguments, last: &Measured) -> bool
    ensures { result ≡ grammar.is_shape (plain_bracket bracket.now) (plain_arguments most.now) (grammar.just (plain_measured last.now)) }
{
    match bracket {
        Bracket::Itemed => {
            if most.items.is_empty() {
                !is_row(last)
            } else {
                true
            }
        }
        Bracket::Grouped | Bracket::Called(_) | Bracket::Indexed(_) => true,
    }
}

/// Reads a separator behind an item.
fn item_step(
    frames: &mut Stack<Frame>,
    listing: Listing,
    token: Token,
    operand: Measured,
) -> Result<Now, Stop>
    ensures { let next = machine.item_step (plain_bracket listing.bracket) listing.opens (plain_arguments listing.most) in
        Steps (next token (plain_frames frames.old) (plain_measured operand)) frames.new result }
{
    if !is_separator(&listing.bracket, token.kind) || !touches(&operand, token) {
        return refuse((listing, operand));
    }
    let Listing {
        bracket,
        opens,
        most,
    } = listing;
    let most = match with_item(most, operand, token) {
        Ok(most) => most,
        Err(_) => return stopped(bracket, Stop::OutOfMemory),
    };
    frames.push(Frame::Fixed(Fixed::InBracket(Listing {
        bracket,
        opens,
        most,
    })))?;
    Ok(Now::Wanted)
}

/// Ends a matrix of one row.
fn row_end(
    alloc: Global,
    frames: &Stack<Frame>,
    opens: Token,
    token: Token,
    operand: Measured,
) -> Result<Now, Stop>
    requires { is_chain (plain_measured operand) ≡ true }
    ensures { Steps (machine.row_end opens token (plain_frames frames.now) (plain_measured operand)) frames.now result }
{
    let atoms = split(alloc, operand)?;
    if !is_full(&atoms) {
        return refuse(atoms);
    }
    Ok(Now::Got(matrix_of(alloc, opens, atoms, token)?))
}

/// Ends parentheses or brackets.
fn closed(
    alloc: Global,
    listing: Listing,
    last: Option<Measured>,
    token: Token,
) -> Result<Now, AllocError>
    ensures { let whole = grammar.bracket (plain_bracket listing.bracket) listing.opens (plain_arguments listing.most) (plain_maybe last) token in
        IfOk result (λ n. plain_now n ≡ machine_frames.got whole) }
{
    let Listing {
        bracket,
        opens,
        most,
    } = listing;
    Ok(Now::Got(bracket_of(alloc, bracket, opens, most, last, token)?))
}

/// Reads a closing parenthesis or bracket behind an item.
fn close_step(
    alloc: Global,
    frames: &Stack<Frame>,
    listing: Listing,
    token: Token,
    operand: Measured,
) -> Result<Now, Stop>
    ensures { let next = machine.close_step (plain_bracket listing.bracket) listing.opens (plain_arguments listing.most) in
        Steps (next token (plain_frames frames.now) (plain_measured operand)) frames.now result }
{
    if !is_closer(&listing.bracket, token.kind) || !touches(&operand, token) {
        return refuse((listing, operand));
    }
    if !takes_last(&listing.bracket, &listing.most, &operand) {
        let opens = listing.opens;
        drop(listing);
        return row_end(alloc, frames, opens, token, operand);
    }
    Ok(closed(alloc, listing, Some(operand), token)?)
}

/// Reads a second atom behind a bracket's first element: it is a matrix.
fn begin_rows(
    alloc: Global,
    frames: &Stack<Frame>,
    opens: Token,
    token: Token,
    operand: Measured,
) -> Result<Now, Stop>
    ensures { Steps (machine.second_step itemed opens none token (plain_frames frames.now) (plain_measured operand)) frames.now result }
{
    if !token.spaced || !operand.profile.chain {
        return refuse(operand);
    }
    let atoms = split(alloc, operand)?;
    let atoms = with_atom(atoms, None, leaf_of(token))?;
    begun_rows(alloc, frames, opens, atoms)
}

/// Reads a number or a name behind an item.
#[tactic(auto, using(crate::proofs::First::second_other))]
fn second_step(
    alloc: Global,
    frames: &Stack<Frame>,
    listing: Listing,
    token: Token,
    operand: Measured,
) -> Result<Now, Stop>
    ensures { let next = machine.second_step (plain_bracket listing.bracket) listing.opens (plain_arguments listing.most) in
        Steps (next token (plain_frames frames.now) (plain_measured operand)) frames.now result }
{
    if is_first(&listing) {
        let opens = listing.opens;
        drop(listing);
        begin_rows(alloc, frames, opens, token, operand)
    } else {
        refuse((listing, operand))
    }
}

/// Reads a `;` behind a bracket's first element: it ends a matrix's first row.
fn end_first_row(
    alloc: Global,
    frames: &Stack<Frame>,
    opens: Token,
    token: Token,
    operand: Measured,
) -> Result<Now, Stop>
    ensures { Steps (machine.semicolon_step itemed opens none token (plain_frames frames.now) (plain_measured operand)) frames.now result }
{
    if !operand.profile.chain {
        return refuse(operand);
    }
    let atoms = split(alloc, operand)?;
    if !may_go_on(&atoms) {
        return refuse(atoms);
    }
    Ok(rows_in(alloc, opens, atoms, Some(token))?)
}

/// Reads a `;` behind an item.
#[tactic(auto, using(crate::proofs::First::semicolon_other))]
fn semicolon_step(
    alloc: Global,
    frames: &mut Stack<Frame>,
    listing: Listing,
    token: Token,
    operand: Measured,
) -> Result<Now, Stop>
    ensures { let next = machine.semicolon_step (plain_bracket listing.bracket) listing.opens (plain_arguments listing.most) in
        Steps (next token (plain_frames frames.old) (plain_measured operand)) frames.new result }
{
    if is_first(&listing) {
        let opens = listing.opens;
        drop(listing);
        end_first_row(alloc, frames, opens, token, operand)
    } else {
        item_step(frames, listing, token, operand)
    }
}

/// Reads `for` behind a bracket's first element.
fn begin_generators(
    alloc: Global,
    frames: &Stack<Frame>,
    opens: Token,
    token: Token,
    operand: Measured,
) -> Result<Now, Stop>
    ensures { Steps (machine.for_step itemed opens none token (plain_frames frames.now) (plain_measured operand)) frames.now result }
{
    let comprehension = Comprehension {
        opens,
        element: operand,
        generators: no_generators(alloc),
    };
    let comprehension = Boxed::new(alloc, comprehension)?;
    Ok(Now::Pending(Words::GeneratorName(comprehension, token)))
}

/// Reads `for` behind an item.
#[tactic(auto, using(crate::proofs::First::for_other))]
fn for_step(
    alloc: Global,
    frames: &Stack<Frame>,
    listing: Listing,
    token: Token,
    operand: Measured,
) -> Result<Now, Stop>
    ensures { let next = machine.for_step (plain_bracket listing.bracket) listing.opens (plain_arguments listing.most) in
        Steps (next token (plain_frames frames.now) (plain_measured operand)) frames.now result }
{
    if is_first(&listing) {
        let opens = listing.opens;
        drop(listing);
        begin_generators(alloc, frames, opens, token, operand)
    } else {
        refuse((listing, operand))
    }
}

/// Reads a token behind an item.
pub fn bracket_step(
    alloc: Global,
    frames: &mut Stack<Frame>,
    listing: Listing,
    token: Token,
    operand: Measured,
) -> Result<Now, Stop>
    ensures { let next = machine.bracket_step (plain_bracket listing.bracket) listing.opens (plain_arguments listing.most) in
        Steps (next token.kind token (plain_frames frames.old) (plain_measured operand)) frames.new result }
{
    match token.kind {
        Kind::Comma => item_step(frames, listing, token, operand),
        Kind::Semicolon => semicolon_step(alloc, frames, listing, token, operand),
        Kind::Number(_) | Kind::Name(_) => second_step(alloc, frames, listing, token, operand),
        Kind::CloseParen | Kind::CloseBracket => close_step(alloc, frames, listing, token, operand),
        Kind::For => for_step(alloc, frames, listing, token, operand),
        _ => refuse((listing, operand)),
    }
}

/// Reads the end where an item could stand.
pub fn empty_step(
    alloc: Global,
    frames: &Stack<Frame>,
    listing: Listing,
    token: Token,
) -> Result<Now, Stop>
    ensures { let next = machine.empty_step (plain_bracket listing.bracket) listing.opens (plain_arguments listing.most) in
        Steps (next token (plain_frames frames.now)) frames.now result }
{
    if !is_closer(&listing.bracket, token.kind)
        || !is_shape(&listing.bracket, &listing.most, &None)
    {
        return refuse(listing);
    }
    Ok(closed(alloc, listing, None, token)?)
}
