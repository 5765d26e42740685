//! Reads the parts of conditionals, rows of atoms, comprehensions and channels.
ghost use Rattle.std.specs.Prelude.{◌≡◌, ◌&&◌, ◌↔◌, ◌+◌, ◌<◌, ◌≤◌, if◌then◌else◌, None, Some, IfOk, IsTrue};
ghost use Rattle.jd_grammar.specs.declared.token.Kind.TheVariants.{CloseBracket, Comma};
ghost use Rattle.jd_grammar.specs.Grammar.{Syntax, leaf};
ghost use Rattle.jd_grammar.specs.Rows.{are_begun, with_cell};
ghost use Rattle.jd_grammar.specs.Frames as machine_frames;
ghost use Rattle.jd_grammar.specs.Machine as machine;
ghost use Rattle.jd_tree.specs.Plain.{plain_channel};
ghost use Rattle.jd_tree.specs.Code.{plain_measured, plain_generators, plain_atoms, plain_first};
ghost use Rattle.jd_precedence.specs.Parts.{ends_row, row_step};
ghost use Rattle.jd_precedence.specs.State.{plain_hold, plain_frames, plain_now, state, Steps};

use crate::frames::{Comprehension, Fixed, Frame, Hold, Now, Rows, Sized, Typed, Variable, Words};
use crate::stack::Stack;
use crate::stop::{Stop, refuse, stopped};
use jd_grammar::token::{Kind, Token};
use jd_tree::brackets::{bracket_of, no_arguments};
use jd_tree::build::{ending_of, leaf_of};
use jd_tree::kinds::{is_element_type, is_name, is_tight};
use jd_tree::measured::{Atoms, Bracket, Head, Measured};
use jd_tree::parts::{ChannelSigns, comprehension_of, generator_count, remote_of, with_generator};
use jd_tree::rows::{self, MOST_ATOMS, is_full, matrix_of, may_go_on, with_atom};
use jd_tree::tree::Channel;
use sqlite_items::Boxed;
use std::alloc::{AllocError, Global};

/// Reads a token behind what stands between `?` and its `:`.
pub fn middle_step(
    alloc: Global,
    frames: &mut Stack<Frame>,
    condition: Measured,
    question: Token,
    token: Token,
    operand: Measured,
) -> Result<Now, Stop>
    ensures { let next = machine.middle_step (plain_measured condition) question token.kind in
        Steps (next token (plain_frames frames.old) (plain_measured operand)) frames.new result }
{
    if !matches!(token.kind, Kind::Colon) {
        return refuse((condition, operand));
    }
    let condition = match Boxed::new(alloc, condition) {
        Ok(condition) => condition,
        Err(_) => return stopped(operand, Stop::OutOfMemory),
    };
    let chosen = match Boxed::new(alloc, operand) {
        Ok(chosen) => chosen,
        Err(_) => return stopped(condition, Stop::OutOfMemory),
    };
    frames.push(Frame::OpenEnd(Head::Choice(condition, question, chosen, token)))?;
    Ok(Now::Wanted)
}

// ---- atoms

/// Behind an atom of a row, or behind a `;`.
pub fn rows_in(
    alloc: Global,
    opens: Token,
    atoms: Atoms,
    pending: Option<Token>,
) -> Result<Now, AllocError>
    ensures { IfOk result (λ n. plain_now n ≡ machine_frames.pending (machine_frames.atoms (machine_frames.rows opens (plain_first atoms) (plain_atoms atoms) pending))) }
{
    let rows = Rows {
        opens,
        atoms,
        pending,
    };
    Ok(Now::Pending(Words::Atoms(Hold::Rows(Boxed::new(alloc, rows)?))))
}

/// Behind an atom of the first row, where a matrix may begin with so many.
pub fn begun_rows(
    alloc: Global,
    frames: &Stack<Frame>,
    opens: Token,
    atoms: Atoms,
) -> Result<Now, Stop>
    ensures { let row = machine_frames.atoms (machine_frames.rows opens (plain_first atoms) (plain_atoms atoms) None) in
        Steps (if are_begun (plain_atoms atoms) then Some (machine_frames.await (plain_frames frames.now) row) else None) frames.now result }
{
    if !rows::are_begun(&atoms) {
        return refuse(atoms);
    }
    Ok(rows_in(alloc, opens, atoms, None)?)
}

/// What goes on behind an atom.
fn filled(
    alloc: Global,
    frames: &mut Stack<Frame>,
    hold: Hold,
    atom: Measured,
) -> Result<Now, AllocError>
    ensures { IfOk result (λ n. state frames.new n ≡ machine.filled (plain_hold hold) (plain_measured atom) (plain_frames frames.old)) }
{
    match hold {
        Hold::Spawning(word) => {
            frames.push(Frame::OpenEnd(Head::Spawn(word, atom)))?;
            Ok(Now::Wanted)
        }
        Hold::Rows(rows) => {
            let Rows {
                opens,
                atoms,
                pending,
            } = rows.into_inner();
            rows_in(alloc, opens, with_atom(atoms, pending, atom)?, None)
        }
    }
}

/// Whether an atom behind so many and a `;` leaves room for a row of the first one's width.
fn fits_behind(count: usize, first: usize) -> bool
    ensures { IsTrue result ↔ (count + 1 + first < 262144) }
{
    count.saturating_add(1).saturating_add(first) < MOST_ATOMS
}

/// Whether the only row has room for an atom behind so many.
fn fits_single(count: usize) -> bool
    ensures { IsTrue result ↔ (count + 1 < 262144) }
{
    count.saturating_add(1) < MOST_ATOMS
}

/// Whether a later row has room for an atom, and then for those that it lacks.
fn fits_later(count: usize, first: usize, last: usize) -> bool
    ensures { IsTrue result ↔ ((last < first) × (count + 1 + first ≤ 262144 + last)) }
{
    last < first && count.saturating_add(first - last) < MOST_ATOMS
}

/// Whether one atom more has a place, in the last row or behind a `;`.
fn has_room(atoms: &Atoms, pending: Option<Token>) -> bool
    ensures { (a : Syntax) → result ≡ are_begun (with_cell (plain_atoms atoms.now) pending a) }
{
    let count = atoms.items.len();
    match pending {
        Some(_) => fits_behind(count, atoms.first_more),
        None => {
            if atoms.single {
                fits_single(count)
            } else {
                fits_later(count, atoms.first_more, atoms.last_more)
            }
        }
    }
}

/// Whether an atom may begin there: in a row it stands behind a blank.
fn takes(hold: &Hold, token: Token) -> bool
    ensures { result ≡ machine.takes (plain_hold hold.now) token }
{
    match hold {
        Hold::Spawning(_) => true,
        Hold::Rows(rows) => takes_cell(&rows.get().atoms, rows.get().pending, token),
    }
}

/// Whether an atom may begin in a row.
fn takes_cell(atoms: &Atoms, pending: Option<Token>, token: Token) -> bool
    ensures { result ≡ (machine.takes_atom token pending && are_begun (with_cell (plain_atoms atoms.now) pending (leaf token))) }
{
    let has_room = has_room(atoms, pending);
    match pending {
        None => token.spaced && has_room,
        Some(_) => has_room,
    }
}

/// Reads a token behind the expression of an atom in parentheses.
pub fn group_step(
    alloc: Global,
    frames: &mut Stack<Frame>,
    hold: Hold,
    opens: Token,
    token: Token,
    operand: Measured,
) -> Result<Now, Stop>
    ensures { let next = machine.group_step (plain_hold hold) opens token.kind token in
        Steps (next (plain_frames frames.old) (plain_measured operand)) frames.new result }
{
    if !matches!(token.kind, Kind::CloseParen) {
        return refuse((hold, operand));
    }
    let most = no_arguments(alloc);
    let atom = match bracket_of(alloc, Bracket::Grouped, opens, most, Some(operand), token) {
        Ok(atom) => atom,
        Err(_) => return stopped(hold, Stop::OutOfMemory),
    };
    Ok(filled(alloc, frames, hold, atom)?)
}

/// Reads the beginning of an atom.
fn atom_step(
    alloc: Global,
    frames: &mut Stack<Frame>,
    hold: Hold,
    token: Token,
) -> Result<Now, Stop>
    ensures { Steps (machine.atom_step (plain_hold hold) token.kind token (plain_frames frames.old)) frames.new result }
{
    match token.kind {
        Kind::Number(_) | Kind::Name(_) => Ok(filled(alloc, frames, hold, leaf_of(token))?),
        Kind::Minus => Ok(Now::Pending(Words::Minus(hold, token))),
        Kind::OpenParen => {
            frames.push(Frame::Fixed(Fixed::InGroup(hold, token)))?;
            Ok(Now::Wanted)
        }
        _ => refuse(hold),
    }
}

/// Reads a `;` behind an atom.
fn next_row(alloc: Global, frames: &Stack<Frame>, hold: Hold, token: Token) -> Result<Now, Stop>
    ensures { Steps (machine.next_row (plain_hold hold) token (plain_frames frames.now)) frames.now result }
{
    match hold {
        Hold::Spawning(_) => Err(Stop::Refused),
        Hold::Rows(rows) => {
            let Rows {
                opens,
                atoms,
                pending,
            } = rows.into_inner();
            if pending.is_some() || !may_go_on(&atoms) {
                return refuse(atoms);
            }
            Ok(rows_in(alloc, opens, atoms, Some(token))?)
        }
    }
}

/// Reads the closing bracket behind an atom.
fn rows_end(alloc: Global, frames: &Stack<Frame>, hold: Hold, token: Token) -> Result<Now, Stop>
    ensures { Steps (machine.rows_end (plain_hold hold) token (plain_frames frames.now)) frames.now result }
{
    match hold {
        Hold::Spawning(_) => Err(Stop::Refused),
        Hold::Rows(rows) => {
            let Rows {
                opens,
                atoms,
                pending,
            } = rows.into_inner();
            if pending.is_some() || !is_full(&atoms) {
                return refuse(atoms);
            }
            Ok(Now::Got(matrix_of(alloc, opens, atoms, token)?))
        }
    }
}

/// Whether it ends a row of atoms.
fn is_row_end(kind: Kind) -> bool
    ensures { result ≡ ends_row kind }
{
    matches!(kind, Kind::Semicolon | Kind::CloseBracket)
}

/// Reads a token where an atom is wanted or may follow.
pub fn atoms_step(
    alloc: Global,
    frames: &mut Stack<Frame>,
    hold: Hold,
    token: Token,
) -> Result<Now, Stop>
    ensures { Steps (machine.atoms_step (plain_hold hold) token.kind token (plain_frames frames.old)) frames.new result }
{
    if is_row_end(token.kind) {
        return row_end_step(alloc, frames, hold, token);
    }
    if !takes(&hold, token) {
        return refuse(hold);
    }
    atom_step(alloc, frames, hold, token)
}

/// Reads a `;` or a closing bracket behind an atom.
fn row_end_step(alloc: Global, frames: &Stack<Frame>, hold: Hold, token: Token) -> Result<Now, Stop>
    ensures { Steps (row_step (plain_hold hold) token.kind token (plain_frames frames.now)) frames.now result }
{
    match token.kind {
        Kind::Semicolon => next_row(alloc, frames, hold, token),
        Kind::CloseBracket => rows_end(alloc, frames, hold, token),
        _ => refuse(hold),
    }
}

/// Reads the number behind the `-` of an atom.
pub fn minus_step(
    alloc: Global,
    frames: &mut Stack<Frame>,
    hold: Hold,
    minus: Token,
    token: Token,
) -> Result<Now, Stop>
    ensures { Steps (machine.minus_step (plain_hold hold) minus token (plain_frames frames.old)) frames.new result }
{
    if !is_tight(token) {
        return refuse(hold);
    }
    let atom = match ending_of(alloc, Head::Unary(minus), leaf_of(token)) {
        Ok(atom) => atom,
        Err(_) => return stopped(hold, Stop::OutOfMemory),
    };
    Ok(filled(alloc, frames, hold, atom)?)
}

// ---- generators

/// Reads the variable of a generator.
pub fn generator_name_step(
    frames: &Stack<Frame>,
    comprehension: Boxed<Comprehension>,
    begins: Token,
    token: Token,
) -> Result<Now, Stop>
    ensures { let next = machine.generator_name_step comprehension.opens (plain_measured comprehension.element) (plain_generators comprehension.generators) begins in
        Steps (next token (plain_frames frames.now)) frames.now result }
{
    if !is_name(token.kind) {
        return refuse(comprehension);
    }
    Ok(Now::Pending(Words::GeneratorIn(comprehension, begins, token)))
}

/// Reads the `in` of a generator.
pub fn generator_in_step(
    frames: &mut Stack<Frame>,
    comprehension: Boxed<Comprehension>,
    begins: Token,
    name: Token,
    token: Token,
) -> Result<Now, Stop>
    ensures { let next = machine.generator_in_step comprehension.opens (plain_measured comprehension.element) (plain_generators comprehension.generators) begins name in
        Steps (next token.kind token (plain_frames frames.old)) frames.new result }
{
    if !matches!(token.kind, Kind::In) {
        return refuse(comprehension);
    }
    let variable = Variable {
        begins,
        name,
        within: token,
    };
    frames.push(Frame::Fixed(Fixed::InGenerator(comprehension, variable)))?;
    Ok(Now::Wanted)
}

/// The generators with one more.
fn with_clause(
    comprehension: Comprehension,
    variable: Variable,
    collection: Measured,
) -> Result<Comprehension, AllocError>
    ensures opens { IfOk result (λ c. c.opens ≡ comprehension.opens) }
    ensures element { IfOk result (λ c. plain_measured c.element ≡ plain_measured comprehension.element) }
    ensures generators { let all = machine.with_generator (plain_generators comprehension.generators) variable.begins variable.name variable.within in
        IfOk result (λ c. plain_generators c.generators ≡ all (plain_measured collection)) }
{
    let Comprehension {
        opens,
        element,
        generators,
    } = comprehension;
    let Variable {
        begins,
        name,
        within,
    } = variable;
    let generators = match with_generator(generators, begins, name, within, collection) {
        Ok(generators) => generators,
        Err(error) => {
            drop(element);
            return Err(error);
        }
    };
    Ok(Comprehension {
        opens,
        element,
        generators,
    })
}

/// Reads the comma behind the collection of a generator.
fn next_generator(
    alloc: Global,
    frames: &Stack<Frame>,
    comprehension: Boxed<Comprehension>,
    variable: Variable,
    token: Token,
    operand: Measured,
) -> Result<Now, Stop>
    ensures { let next = machine.generator_step comprehension.opens (plain_measured comprehension.element) (plain_generators comprehension.generators) variable.begins variable.name variable.within in
        Steps (next Comma token (plain_frames frames.now) (plain_measured operand)) frames.now result }
{
    if generator_count(&comprehension.get().generators) > 1 {
        return refuse((comprehension, operand));
    }
    let comprehension = with_clause(comprehension.into_inner(), variable, operand)?;
    Ok(Now::Pending(Words::GeneratorName(Boxed::new(alloc, comprehension)?, token)))
}

/// Reads the closing bracket behind the collection of a generator.
fn generators_end(
    alloc: Global,
    frames: &Stack<Frame>,
    comprehension: Boxed<Comprehension>,
    variable: Variable,
    token: Token,
    operand: Measured,
) -> Result<Now, Stop>
    ensures { let next = machine.generator_step comprehension.opens (plain_measured comprehension.element) (plain_generators comprehension.generators) variable.begins variable.name variable.within in
        Steps (next CloseBracket token (plain_frames frames.now) (plain_measured operand)) frames.now result }
{
    let Comprehension {
        opens,
        element,
        generators,
    } = with_clause(comprehension.into_inner(), variable, operand)?;
    Ok(Now::Got(comprehension_of(alloc, opens, element, generators, token)?))
}

/// Reads a token behind the collection of a generator.
pub fn generator_step(
    alloc: Global,
    frames: &Stack<Frame>,
    comprehension: Boxed<Comprehension>,
    variable: Variable,
    token: Token,
    operand: Measured,
) -> Result<Now, Stop>
    ensures { let next = machine.generator_step comprehension.opens (plain_measured comprehension.element) (plain_generators comprehension.generators) variable.begins variable.name variable.within in
        Steps (next token.kind token (plain_frames frames.now) (plain_measured operand)) frames.now result }
{
    match token.kind {
        Kind::Comma => next_generator(alloc, frames, comprehension, variable, token, operand),
        Kind::CloseBracket => generators_end(
            alloc,
            frames,
            comprehension,
            variable,
            token,
            operand,
        ),
        _ => refuse((comprehension, operand)),
    }
}

// ---- channels

/// Reads the type of a channel's elements.
pub fn element_type_step(
    frames: &Stack<Frame>,
    channel: Boxed<Channel>,
    token: Token,
) -> Result<Now, Stop>
    ensures { Steps (machine.element_type_step (plain_channel channel) token (plain_frames frames.now)) frames.now result }
{
    if !is_element_type(token.kind) {
        return Err(Stop::Refused);
    }
    Ok(Now::Pending(Words::TypeEnd(channel, token)))
}

/// Reads the `}` behind the type.
pub fn type_end_step(
    frames: &Stack<Frame>,
    channel: Boxed<Channel>,
    element: Token,
    token: Token,
) -> Result<Now, Stop>
    ensures { Steps (machine.type_end_step (plain_channel channel) element token.kind token (plain_frames frames.now)) frames.now result }
{
    match token.kind {
        Kind::CloseBrace => Ok(Now::Pending(Words::SizeBegin(channel, element, token))),
        _ => Err(Stop::Refused),
    }
}

/// Reads the parenthesis before the size.
pub fn size_begin_step(
    alloc: Global,
    frames: &mut Stack<Frame>,
    channel: Boxed<Channel>,
    element: Token,
    shut: Token,
    token: Token,
) -> Result<Now, Stop>
    ensures { let next = machine.size_begin_step (plain_channel channel) element shut in
        Steps (next token.kind token (plain_frames frames.old)) frames.new result }
{
    match token.kind {
        Kind::OpenParen => {
            let typed = Typed {
                channel,
                element,
                shut,
                opens: token,
            };
            frames.push(Frame::Fixed(Fixed::InSize(Boxed::new(alloc, typed)?)))?;
            Ok(Now::Wanted)
        }
        _ => Err(Stop::Refused),
    }
}

/// Reads a token behind the size.
pub fn size_step(
    alloc: Global,
    frames: &Stack<Frame>,
    typed: Boxed<Typed>,
    token: Token,
    operand: Measured,
) -> Result<Now, Stop>
    ensures { let next = machine.size_step (plain_channel typed.channel) typed.element typed.shut typed.opens in
        Steps (next token.kind token (plain_frames frames.now) (plain_measured operand)) frames.now result }
{
    if !matches!(token.kind, Kind::CloseParen) {
        return refuse((typed, operand));
    }
    Ok(Now::Pending(Words::PlaceBegin(typed, Boxed::new(alloc, operand)?, token)))
}

/// Reads the comma before the place.
pub fn place_begin_step(
    alloc: Global,
    frames: &mut Stack<Frame>,
    typed: Boxed<Typed>,
    size: Boxed<Measured>,
    closes: Token,
    token: Token,
) -> Result<Now, Stop>
    ensures { let next = machine.place_begin_step (plain_channel typed.channel) typed.element typed.shut typed.opens (plain_measured size) closes in
        Steps (next token.kind token (plain_frames frames.old)) frames.new result }
{
    if !matches!(token.kind, Kind::Comma) {
        return refuse((typed, size));
    }
    let sized = Sized {
        size: size.into_inner(),
        closes,
        comma: token,
    };
    let sized = Boxed::new(alloc, sized)?;
    frames.push(Frame::Fixed(Fixed::InPlace(typed, sized)))?;
    Ok(Now::Wanted)
}

/// Reads a token behind the place.
pub fn place_step(
    alloc: Global,
    frames: &Stack<Frame>,
    typed: Boxed<Typed>,
    sized: Boxed<Sized>,
    token: Token,
    operand: Measured,
) -> Result<Now, Stop>
    ensures { let next = machine.place_step (plain_channel typed.channel) typed.element typed.shut typed.opens (plain_measured sized.size) sized.closes sized.comma in
        Steps (next token.kind token (plain_frames frames.now) (plain_measured operand)) frames.now result }
{
    if !matches!(token.kind, Kind::CloseParen) {
        return refuse((typed, sized, operand));
    }
    let Typed {
        channel,
        element,
        shut,
        opens,
    } = typed.into_inner();
    let Sized {
        size,
        closes,
        comma,
    } = sized.into_inner();
    let signs = ChannelSigns {
        element,
        shut,
        opens,
        closes,
        comma,
        last: token,
    };
    Ok(Now::Got(remote_of(alloc, channel.into_inner(), signs, size, operand)?))
}
