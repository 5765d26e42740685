//! How deep the shallowest expression nests that begins with what was read.
ghost use Rattle.std.specs.Prelude.{◌≡◌, ◌∷◌, List, IsTrue, drop, false, max};
ghost use Rattle.jd_grammar.specs.declared.token.Token.{Token};
ghost use Rattle.jd_grammar.specs.Grammar.{Channel, Syntax, ending, itemed, none, remote};
ghost use Rattle.jd_grammar.specs.Grammar as grammar;
ghost use Rattle.jd_grammar.specs.Depth.{height, height_items};
ghost use Rattle.jd_grammar.specs.Frames as machine;
ghost use Rattle.jd_grammar.specs.Machine.{with_generator};
ghost use Rattle.jd_grammar.specs.Shortest.{held, needs, shut, shut_bracket, words_ready, wrap, zero_leaf};
ghost use Rattle.jd_grammar.specs.Profile as expression;
ghost use Rattle.jd_tree.specs.Measures.{capped, height_up_to, measure};
ghost use Rattle.jd_tree.specs.Code.{plain_arguments, plain_atoms, plain_bracket, plain_first, plain_generators, plain_head, plain_measured};
ghost use Rattle.jd_precedence.specs.Parts.{are_none};
ghost use Rattle.jd_precedence.specs.Depths.{first_parts, in_call, sign_argument, wrapped};
ghost use Rattle.jd_precedence.specs.State.{no_operator, plain_hold, plain_fixed, plain_frame, plain_frames, plain_words, state};

use crate::frames::{Comprehension, Fixed, Frame, Hold, Listing, Now, Rows, Words};
use crate::stack::Stack;
use jd_grammar::token::{Kind, Token};
use jd_tree::kinds::is_argument;
use jd_tree::measured::{Bracket, Head, Measured};
use jd_tree::profile::{
    Profile, binary_profile, call_profile, choice_profile, group_profile, keyword_profile,
    lambda_profile, leaf_profile, round_profile, sign_profile, single_call_profile, spawn_profile,
    unary_profile,
};

/// How many atoms a matrix may have.
const MOST_ATOMS: u32 = 262_144;

/// How deep an expression nests.
fn nesting_of(operand: &Measured) -> u8
    ensures { result ≡ height_up_to (height (plain_measured operand.now)) }
{
    operand.profile.nesting
}

/// A conditional behind its `:`.
fn in_choice(condition: &Measured, chosen: &Measured, operand: Profile) -> Profile
    ensures { (q t : Token) (e : Syntax) → operand ≡ measure e
        → result ≡ measure (ending (grammar.choice (plain_measured condition.now) q (plain_measured chosen.now) t) e) }
{
    choice_profile(condition.profile, chosen.profile, operand)
}

/// What ends with an operand.
fn behind(head: &Head, operand: Profile) -> Profile
    ensures { (e : Syntax) → operand ≡ measure e → result ≡ measure (ending (plain_head head.now) e) }
{
    match head {
        Head::Unary(token) => unary_profile(*token, operand),
        Head::Binary(left, token) => binary_profile(left.profile, *token, operand),
        Head::Choice(condition, _, chosen, _) => in_choice(condition.get(), chosen.get(), operand),
        Head::Lambda(names, _) => lambda_profile(names.profile, operand),
        Head::Spawn(_, atom) => spawn_profile(atom.profile, operand),
        Head::Keyword(_, _) => keyword_profile(operand),
    }
}

// ---- brackets

/// The height of the parts of brackets round a first element: atoms are a row, where there are few enough.
fn first_parts_of(operand: Profile) -> u8
    ensures { (p : expression.Profile) → operand ≡ capped p → result ≡ height_up_to (first_parts p) }
{
    if operand.chain {
        if operand.long {
            if operand.atoms < MOST_ATOMS {
                return operand.row;
            }
        }
    }
    operand.nesting
}

/// Brackets round a first element.
fn first_profile(operand: Profile) -> Profile
    ensures { (o : Token) (e : Syntax) → operand ≡ measure e → result ≡ measure (shut_bracket itemed o none e) }
{
    round_profile(first_parts_of(operand))
}

/// An only item in parentheses or brackets.
fn single_profile(bracket: &Bracket, opens: Token, operand: Profile) -> Profile
    ensures { (e : Syntax) → operand ≡ measure e → result ≡ measure (shut_bracket (plain_bracket bracket.now) opens none e) }
{
    match bracket {
        Bracket::Grouped => group_profile(operand),
        Bracket::Called(callee) => single_call_profile(callee.profile, opens.spaced, operand),
        Bracket::Itemed => first_profile(operand),
        Bracket::Indexed(indexed) => round_profile(indexed.profile.nesting.max(operand.nesting)),
    }
}

/// Several items in parentheses or brackets, of which the deepest nests so.
fn several_profile(bracket: &Bracket, parts: u8) -> Profile
    ensures { (o : Token) (es : grammar.Items) (e : Syntax) → are_none es ≡ false → parts ≡ height_up_to (max (height_items es) (height e))
        → result ≡ measure (shut_bracket (plain_bracket bracket.now) o es e) }
{
    match bracket {
        Bracket::Grouped | Bracket::Itemed => round_profile(parts),
        Bracket::Called(callee) => call_profile(callee.profile, parts),
        Bracket::Indexed(indexed) => round_profile(indexed.profile.nesting.max(parts)),
    }
}

/// A last item in parentheses or brackets.
fn in_listing(listing: &Listing, operand: Profile) -> Profile
    ensures { let bracket = plain_bracket listing.now.bracket in
        (e : Syntax) → operand ≡ measure e → result ≡ measure (shut_bracket bracket listing.now.opens (plain_arguments listing.now.most) e) }
{
    if listing.most.items.is_empty() {
        single_profile(&listing.bracket, listing.opens, operand)
    } else {
        several_profile(&listing.bracket, listing.most.nesting.max(operand.nesting))
    }
}

// ---- other constructs

/// An atom that nests so deep in a matrix that is ended then.
fn in_rows(rows: &Rows, atom: u8) -> Profile
    ensures { let hold = machine.rows rows.now.opens (plain_first rows.now.atoms) (plain_atoms rows.now.atoms) rows.now.pending in
        (a : Syntax) → atom ≡ height_up_to (height a) → result ≡ measure (held hold a) }
{
    round_profile(rows.atoms.nesting.max(atom))
}

/// An atom that nests so deep in what wants it, which is ended then.
fn in_hold(hold: &Hold, atom: u8) -> Profile
    ensures { (a : Syntax) → atom ≡ height_up_to (height a) → result ≡ measure (held (plain_hold hold.now) a) }
{
    match hold {
        Hold::Spawning(_) => round_profile(atom),
        Hold::Rows(rows) => in_rows(rows.get(), atom),
    }
}

/// A comprehension whose last collection nests so deep.
fn in_comprehension(comprehension: &Comprehension, collection: u8) -> Profile
    ensures { (t n i : Token) (e : Syntax) (c : Token) → collection ≡ height_up_to (height e)
        → result ≡ measure (grammar.comprehension comprehension.now.opens (plain_measured comprehension.now.element) (with_generator (plain_generators comprehension.now.generators) t n i e) c) }
{
    let element = comprehension.element.profile.nesting;
    round_profile(
        element
            .max(comprehension.generators.nesting)
            .max(collection),
    )
}

/// A channel whose size and place nest so deep.
fn channel_profile(size: u8, place: u8) -> Profile
    ensures { (c : Channel) (type z o : Token) (s : Syntax) (p m : Token) (e : Syntax) (l : Token) → size ≡ height_up_to (height s) → place ≡ height_up_to (height e)
        → result ≡ measure (remote c type z o s p m e l) }
{
    round_profile(size.saturating_add(2).max(place))
}

/// What stands between the tokens of a construct, which is ended then.
fn inside(fixed: &Fixed, operand: Profile) -> Profile
    ensures { (e : Syntax) → operand ≡ measure e → result ≡ measure (shut (plain_fixed fixed.now) e) }
{
    match fixed {
        Fixed::InBracket(listing) => in_listing(listing, operand),
        Fixed::InMiddle(condition, _) => round_profile(
            condition.profile.nesting.max(operand.nesting),
        ),
        Fixed::InGroup(hold, _) => in_hold(hold, operand.nesting.saturating_add(1)),
        Fixed::InGenerator(comprehension, _) => in_comprehension(
            comprehension.get(),
            operand.nesting,
        ),
        Fixed::InSize(_) => channel_profile(operand.nesting, 0),
        Fixed::InPlace(_, sized) => {
            channel_profile(nesting_of(&sized.get().size), operand.nesting)
        }
    }
}

/// An operand in the construct round it.
fn around(frame: &Frame, operand: Profile) -> Profile
    ensures { (e : Syntax) → operand ≡ measure e → result ≡ measure (wrapped (plain_frame frame.now) e) }
{
    match frame {
        Frame::OpenEnd(head) => behind(head, operand),
        Frame::Fixed(fixed) => inside(fixed, operand),
    }
}

/// How deep an operand nests in all constructs but the innermost ones.
fn depth_from(frames: &Stack<Frame>, from: usize, operand: Profile) -> u8
    ensures { (e : Syntax) → operand ≡ measure e → result ≡ height_up_to (height (wrap (plain_frames (drop from frames.now)) e)) }
{
    let mut at = from;
    let mut operand = operand;
    while let Some(frame) = frames.below(at) {
        operand = around(frame, operand);
        at += 1;
    }
    operand.nesting
}

// ---- what was read last

/// The shallowest operand.
fn zero() -> Profile
    ensures { result ≡ measure zero_leaf }
{
    leaf_profile(Token {
        kind: Kind::Number(0),
        start: 0,
        end: 0,
        spaced: false,
    })
}

/// What only some tokens may follow, which is ended as an operand.
fn words_profile(words: &Words) -> Profile
    ensures { (fs : List machine.Frame) → IsTrue (no_operator (plain_words words.now)) → result ≡ measure (words_ready (plain_words words.now) fs).operand }
{
    match words {
        Words::Operator(_) => zero(),
        Words::Atoms(hold) => in_hold(hold, 0),
        Words::Minus(hold, _) => in_hold(hold, 1),
        Words::GeneratorName(comprehension, _) => in_comprehension(comprehension.get(), 0),
        Words::GeneratorIn(comprehension, _, _) => in_comprehension(comprehension.get(), 0),
        Words::ElementType(_) => channel_profile(0, 0),
        Words::TypeEnd(_, _) => channel_profile(0, 0),
        Words::SizeBegin(_, _, _) => channel_profile(0, 0),
        Words::PlaceBegin(_, size, _) => channel_profile(nesting_of(size.get()), 0),
    }
}

/// The operator that is innermost, where it may still be the argument of a call.
fn argument_in(frames: &Stack<Frame>, sign: Token) -> Option<Token>
    ensures { result ≡ sign_argument (machine.open_end (grammar.unary sign) ∷ plain_frames (drop 1 frames.now)) }
{
    match frames.below(1) {
        Some(Frame::Fixed(Fixed::InBracket(listing))) => match &listing.bracket {
            Bracket::Called(_) => {
                if is_argument(sign.kind) {
                    Some(sign)
                } else {
                    None
                }
            }
            Bracket::Grouped | Bracket::Itemed | Bracket::Indexed(_) => None,
        },
        _ => None,
    }
}

/// The operator that was read as a unary one and may still be an argument.
fn argument_sign(frames: &Stack<Frame>) -> Option<Token>
    ensures { result ≡ sign_argument (plain_frames frames.now) }
{
    match frames.below(0) {
        Some(Frame::OpenEnd(Head::Unary(sign))) => argument_in(frames, *sign),
        _ => None,
    }
}

/// Whether the innermost construct is a call.
fn is_in_call(frames: &Stack<Frame>) -> bool
    ensures { result ≡ in_call (plain_frames frames.now) }
{
    match frames.top() {
        Some(Frame::Fixed(Fixed::InBracket(listing))) => matches!(
            &listing.bracket,
            Bracket::Called(_)
        ),
        _ => false,
    }
}

/// The same behind what only some tokens may follow.
fn words_needs(frames: &Stack<Frame>, words: &Words) -> u8
    ensures { result ≡ height_up_to (needs (machine.await (plain_frames frames.now) (plain_words words.now))) }
{
    match words {
        Words::Operator(sign) => {
            if is_in_call(frames) {
                depth_from(frames, 0, sign_profile(*sign))
            } else {
                depth_from(frames, 0, zero())
            }
        }
        other => depth_from(frames, 0, words_profile(other)),
    }
}

/// The least depth of an expression that begins with what was read, up to 255.
pub fn needs_of(frames: &Stack<Frame>, now: &Now) -> u8
    ensures { result ≡ height_up_to (needs (state frames.now now.now)) }
{
    match now {
        Now::Wanted => {
            let least = depth_from(frames, 0, zero());
            match argument_sign(frames) {
                None => least,
                Some(sign) => depth_from(frames, 1, sign_profile(sign)).min(least),
            }
        }
        Now::Got(operand) => depth_from(frames, 0, operand.profile),
        Now::Pending(words) => words_needs(frames, words),
    }
}
