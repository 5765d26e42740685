//! Reads a token behind an operand.
ghost use Rattle.std.specs.Prelude.{◌≡◌, ◌∷◌, map, option_map};
ghost use Rattle.jd_grammar.specs.Grammar as grammar;
ghost use Rattle.jd_grammar.specs.Frames.{open_end, fixed, in_bracket};
ghost use Rattle.jd_grammar.specs.Frames as machine_frames;
ghost use Rattle.jd_grammar.specs.Machine as machine;
ghost use Rattle.jd_tree.specs.Plain.{items_of, maybe, plain, plain_channel, plain_item, plain_listing};
ghost use Rattle.jd_tree.specs.Code.{plain_measured, plain_arguments, plain_bracket};
ghost use Rattle.jd_precedence.specs.Parts.{leaf_token_in, empty_group_in, empty_inside, is_nothing, awaits_type, callee_token, channel_from, channel_in, is_more, more_step};
ghost use Rattle.jd_precedence.specs.State.{closed, plain_frames, plain_fixed, Steps};

use crate::brackets::bracket_step;
use crate::close::close_all;
use crate::frames::{Fixed, Frame, Listing, Now, Signs, Words};
use crate::operands::{begin_bracket, demand};
use crate::parts::{generator_step, group_step, middle_step, place_step, size_step};
use crate::stack::Stack;
use crate::stop::{Stop, refuse, stopped};
use jd_grammar::token::{Kind, Token, Word};
use jd_tree::kinds::{is_name, is_word, left_of, stands, strength_of};
use jd_tree::measured::{Bracket, Head, Measured};
use jd_tree::names::are_parameters;
use jd_tree::tree::{Channel, Expr, Item, Listing as Written};
use sqlite_items::Boxed;
use std::alloc::Global;

/// Whether a range may stand as the operand that is read now.
fn ranges(frames: &Stack<Frame>) -> bool
    ensures { result ≡ machine_frames.ranges (plain_frames frames.now) }
{
    let mut depth = 0;
    while let Some(frame) = frames.below(depth) {
        match frame {
            Frame::OpenEnd(_) => depth += 1,
            Frame::Fixed(fixed) => return !matches!(fixed, Fixed::InMiddle(_, _)),
        }
    }
    true
}

/// The token of an operand of one token.
pub fn leaf_token(operand: &Measured) -> Option<Token>
    ensures { result ≡ leaf_token_in (plain_measured operand.now) }
{
    match &operand.expr {
        Expr::Leaf(token) => Some(*token),
        _ => None,
    }
}

/// The tokens of `()`.
fn empty_group(operand: &Measured) -> Option<(Token, Token)>
    ensures { result ≡ empty_group_in (plain_measured operand.now) }
{
    match &operand.expr {
        Expr::Group(listing) => empty_listing(listing.get()),
        _ => None,
    }
}

/// The tokens round nothing.
fn empty_listing(listing: &Written) -> Option<(Token, Token)>
    ensures { result ≡ empty_inside (plain_listing listing.now) }
{
    if are_nothing(listing.items.as_slice(), &listing.last) {
        Some((listing.opens, listing.closes))
    } else {
        None
    }
}

/// Whether nothing stands between parentheses.
fn are_nothing(items: &[Item], last: &Option<Expr>) -> bool
    ensures { result ≡ is_nothing (items_of (map plain_item items.now)) (maybe (option_map plain last.now)) }
{
    match last {
        None => items.is_empty(),
        Some(_) => false,
    }
}

/// Reads a binary operator.
fn at_binary(frames: &mut Stack<Frame>, token: Token, operand: Measured) -> Result<Now, Stop>
    ensures { Steps (machine.at_binary token (plain_frames frames.old, plain_measured operand)) frames.new result }
{
    if demand(frames) > strength_of(token.kind) {
        return refuse(operand);
    }
    frames.push(Frame::OpenEnd(Head::Binary(operand, token)))?;
    Ok(Now::Wanted)
}

/// Reads `?`.
fn at_question(frames: &mut Stack<Frame>, token: Token, operand: Measured) -> Result<Now, Stop>
    ensures { Steps (machine.at_question token (plain_frames frames.old, plain_measured operand)) frames.new result }
{
    if demand(frames) > 2 {
        return refuse(operand);
    }
    frames.push(Frame::Fixed(Fixed::InMiddle(operand, token)))?;
    Ok(Now::Wanted)
}

/// Reads `->`.
fn at_arrow(
    alloc: Global,
    frames: &mut Stack<Frame>,
    token: Token,
    operand: Measured,
) -> Result<Now, Stop>
    ensures { Steps (machine.at_arrow token (plain_frames frames.old) (plain_measured operand)) frames.new result }
{
    if demand(frames) > 1 {
        return refuse(operand);
    }
    match are_parameters(alloc, &operand) {
        Ok(true) => {}
        Ok(false) => return refuse(operand),
        Err(_) => return stopped(operand, Stop::OutOfMemory),
    }
    frames.push(Frame::OpenEnd(Head::Lambda(operand, token)))?;
    Ok(Now::Wanted)
}

/// Reads `=` behind the name of a keyword argument.
fn at_keyword(frames: &mut Stack<Frame>, token: Token, operand: Measured) -> Result<Now, Stop>
    ensures { Steps (machine.at_keyword token (plain_frames frames.old) (plain_measured operand)) frames.new result }
{
    match leaf_token(&operand) {
        Some(name) => {
            if demand(frames) > 0 || !is_name(name.kind) {
                return refuse(operand);
            }
            drop(operand);
            frames.push(Frame::OpenEnd(Head::Keyword(name, token)))?;
            Ok(Now::Wanted)
        }
        None => refuse(operand),
    }
}

/// The name that is called.
fn callee_of(bracket: &Bracket) -> Option<Token>
    ensures { result ≡ callee_token (plain_bracket bracket.now) }
{
    match bracket {
        Bracket::Called(callee) => leaf_token(callee),
        Bracket::Grouped | Bracket::Itemed | Bracket::Indexed(_) => None,
    }
}

/// The tokens of a channel's beginning.
fn channel_of(
    signs: Signs,
    none: Option<(Token, Token)>,
    callee: Option<Token>,
    is_empty: bool,
    word: Option<Token>,
) -> Option<Channel>
    ensures { option_map plain_channel result ≡ channel_from signs none callee is_empty word }
{
    match (none, callee, word) {
        (Some((none_opens, none_closes)), Some(callee), Some(word)) => {
            if !is_empty
                || !is_word(Word::RemoteChannel, callee.kind)
                || !is_word(Word::Channel, word.kind)
            {
                return None;
            }
            Some(Channel {
                callee,
                opens: signs.opens,
                none_opens,
                none_closes,
                arrow: signs.arrow,
                word,
                brace: signs.brace,
            })
        }
        _ => None,
    }
}

/// The beginning of a channel, where there is one.
fn channel_at(
    lambda: &(Measured, Token),
    listing: &Listing,
    brace: Token,
    operand: &Measured,
) -> Option<Channel>
    ensures { option_map plain_channel result ≡ channel_in listing.now.opens (plain_measured lambda.now.0) lambda.now.1 (plain_bracket listing.now.bracket) (plain_arguments listing.now.most) brace (plain_measured operand.now) }
{
    let signs = Signs {
        opens: listing.opens,
        arrow: lambda.1,
        brace,
    };
    channel_of(
        signs,
        empty_group(&lambda.0),
        callee_of(&listing.bracket),
        listing.most.items.is_empty(),
        leaf_token(operand),
    )
}

/// What goes on behind the `{` of a channel.
fn awaiting(alloc: Global, frames: &Stack<Frame>, channel: Option<Channel>) -> Result<Now, Stop>
    ensures { Steps (awaits_type (plain_frames frames.now) (option_map plain_channel channel)) frames.now result }
{
    match channel {
        Some(channel) => Ok(Now::Pending(Words::ElementType(Boxed::new(alloc, channel)?))),
        None => Err(Stop::Refused),
    }
}

/// Reads `{` behind a lambda's beginning in parentheses or brackets.
fn begin_channel(
    alloc: Global,
    frames: &Stack<Frame>,
    lambda: (Measured, Token),
    listing: Listing,
    token: Token,
    operand: Measured,
) -> Result<Now, Stop>
    ensures { let before = open_end (grammar.lambda (plain_measured lambda.0) lambda.1) in
        let call = fixed (in_bracket (plain_bracket listing.bracket) listing.opens (plain_arguments listing.most)) in
        Steps (machine.at_brace token (before ∷ (call ∷ plain_frames frames.now)) (plain_measured operand)) frames.now result }
{
    let channel = channel_at(&lambda, &listing, token, &operand);
    drop((lambda, listing, operand));
    awaiting(alloc, frames, channel)
}

/// Reads `{` behind a lambda's beginning.
fn lambda_brace(
    alloc: Global,
    frames: &mut Stack<Frame>,
    lambda: (Measured, Token),
    token: Token,
    operand: Measured,
) -> Result<Now, Stop>
    ensures { let before = open_end (grammar.lambda (plain_measured lambda.0) lambda.1) in
        Steps (machine.at_brace token (before ∷ plain_frames frames.old) (plain_measured operand)) frames.new result }
{
    match frames.pop() {
        Some(Frame::Fixed(fixed)) => match fixed {
            Fixed::InBracket(listing) => begin_channel(
                alloc, frames, lambda, listing, token, operand,
            ),
            fixed => refuse((lambda, fixed, operand)),
        },
        Some(Frame::OpenEnd(head)) => refuse((lambda, head, operand)),
        None => refuse((lambda, operand)),
    }
}

/// Reads `{`.
fn at_brace(
    alloc: Global,
    frames: &mut Stack<Frame>,
    token: Token,
    operand: Measured,
) -> Result<Now, Stop>
    ensures { Steps (machine.at_brace token (plain_frames frames.old) (plain_measured operand)) frames.new result }
{
    match frames.pop() {
        Some(Frame::OpenEnd(head)) => match head {
            Head::Lambda(names, arrow) => lambda_brace(
                alloc,
                frames,
                (names, arrow),
                token,
                operand,
            ),
            head => refuse((head, operand)),
        },
        Some(Frame::Fixed(fixed)) => refuse((fixed, operand)),
        None => refuse(operand),
    }
}

/// Reads a token behind what a construct stands round.
fn fixed_step(
    alloc: Global,
    frames: &mut Stack<Frame>,
    fixed: Fixed,
    token: Token,
    operand: Measured,
) -> Result<Now, Stop>
    ensures { Steps (machine.fixed_step (plain_fixed fixed) token.kind token (plain_frames frames.old) (plain_measured operand)) frames.new result }
{
    match fixed {
        Fixed::InBracket(listing) => bracket_step(alloc, frames, listing, token, operand),
        Fixed::InMiddle(condition, question) => middle_step(
            alloc, frames, condition, question, token, operand,
        ),
        Fixed::InGroup(hold, opens) => group_step(alloc, frames, hold, opens, token, operand),
        Fixed::InGenerator(comprehension, variable) => generator_step(
            alloc,
            frames,
            comprehension,
            variable,
            token,
            operand,
        ),
        Fixed::InSize(typed) => size_step(alloc, frames, typed, token, operand),
        Fixed::InPlace(typed, sized) => place_step(alloc, frames, typed, sized, token, operand),
    }
}

/// Reads what ends an operand, or a construct round it, where all is ended that has no end of its own.
pub fn at_end(
    alloc: Global,
    frames: &mut Stack<Frame>,
    token: Token,
    operand: Measured,
) -> Result<Now, Stop>
    ensures { Steps (machine.at_end token.kind token (plain_frames frames.old, plain_measured operand)) frames.new result }
{
    match frames.pop() {
        Some(Frame::Fixed(fixed)) => fixed_step(alloc, frames, fixed, token, operand),
        Some(Frame::OpenEnd(head)) => refuse((head, operand)),
        None => refuse(operand),
    }
}

/// Whether a token goes on behind an operand that is no binary operator.
fn goes_on(kind: Kind) -> bool
    ensures { result ≡ is_more kind }
{
    matches!(
        kind,
        Kind::OpenParen
            | Kind::OpenBracket
            | Kind::OpenBrace
            | Kind::Arrow
            | Kind::Assign
            | Kind::Question
    )
}

/// Reads what goes on behind an operand and is no binary operator.
fn more(
    alloc: Global,
    frames: &mut Stack<Frame>,
    token: Token,
    operand: Measured,
) -> Result<Now, Stop>
    ensures { Steps (more_step token.kind token (plain_frames frames.old) (plain_measured operand)) frames.new result }
{
    match token.kind {
        Kind::OpenParen => begin_bracket(alloc, frames, Bracket::Called(operand), token),
        Kind::OpenBracket => begin_bracket(alloc, frames, Bracket::Indexed(operand), token),
        Kind::OpenBrace => at_brace(alloc, frames, token, operand),
        Kind::Arrow => at_arrow(alloc, frames, token, operand),
        Kind::Assign => at_keyword(frames, token, operand),
        Kind::Question => {
            let operand = close_all(alloc, frames, 3, operand)?;
            at_question(frames, token, operand)
        }
        _ => refuse(operand),
    }
}

/// Reads what ends an operand, or a construct round it.
fn end(
    alloc: Global,
    frames: &mut Stack<Frame>,
    token: Token,
    operand: Measured,
) -> Result<Now, Stop>
    ensures { Steps (machine.at_end token.kind token (closed 0 frames.old operand)) frames.new result }
{
    let operand = close_all(alloc, frames, 0, operand)?;
    at_end(alloc, frames, token, operand)
}

/// Reads what is no binary operator.
fn have_more(
    alloc: Global,
    frames: &mut Stack<Frame>,
    token: Token,
    operand: Measured,
) -> Result<Now, Stop>
    ensures { Steps (machine.have_more token.kind token (plain_frames frames.old) (plain_measured operand)) frames.new result }
{
    if goes_on(token.kind) {
        more(alloc, frames, token, operand)
    } else {
        end(alloc, frames, token, operand)
    }
}

/// Reads a token behind an operand.
pub fn have_step(
    alloc: Global,
    frames: &mut Stack<Frame>,
    token: Token,
    operand: Measured,
) -> Result<Now, Stop>
    ensures { Steps (machine.have_step token.kind token (plain_frames frames.old) (plain_measured operand)) frames.new result }
{
    if strength_of(token.kind) == 0 {
        return have_more(alloc, frames, token, operand);
    }
    if stands(token.kind, ranges(frames)) {
        let operand = close_all(alloc, frames, left_of(token.kind), operand)?;
        at_binary(frames, token, operand)
    } else {
        end(alloc, frames, token, operand)
    }
}
