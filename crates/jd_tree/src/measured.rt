//! Trees that know what is asked of them.
ghost use Rattle.std.specs.Prelude.{◌≡◌, ◌+◌, max, map};
ghost use Rattle.jd_grammar.specs.Depth.{height, height_items, height_cells, height_generators};
ghost use Rattle.jd_grammar.specs.Rows.{first_width, last_width, are_even};
ghost use Rattle.jd_tree.specs.Measures.{measure, height_up_to, are_single};
ghost use Rattle.jd_tree.specs.Plain.{plain, plain_item, plain_cell, plain_generator, items_of, cells_at, generators_of};

use crate::profile::Profile;
use crate::tree::{Cell, Expr, Generator, Item};
use jd_grammar::token::Token;
use sqlite_items::{Boxed, Items};

/// An expression and its profile.
#[derive(Drop)]
pub struct Measured {
    pub expr: Expr,
    pub profile: Profile,
    ghost measured: { profile ≡ measure (plain expr) },
}

/// Expressions with a separator behind each, and the deepest nesting among them, up to 255.
#[derive(Drop)]
pub struct Arguments {
    pub items: Items<Item>,
    pub nesting: u8,
    ghost measured: { nesting ≡ height_up_to (height_items (items_of (map plain_item items))) },
}

/// Generators, and the deepest nesting among their collections, up to 255.
#[derive(Drop)]
pub struct Generators {
    pub items: Items<Generator>,
    pub nesting: u8,
    ghost measured: { nesting ≡ height_up_to (height_generators (generators_of (map plain_generator items))) },
}

/// Atoms that are rows of a matrix, and what the rows are like.
#[derive(Drop)]
pub struct Atoms {
    pub first: Expr,
    /// The others.
    pub items: Items<Cell>,
    /// The deepest nesting among all of them, up to 255.
    pub nesting: u8,
    /// How many atoms the first row has behind its first one.
    pub first_more: usize,
    /// How many atoms the last row has behind its first one.
    pub last_more: usize,
    /// Whether there is one row.
    pub single: bool,
    /// Whether each row but the last is as long as the first.
    pub even: bool,
    ghost measured: { nesting ≡ height_up_to (max (height (plain first)) (height_cells (cells_at (map plain_cell items)))) },
    ghost first_row: { first_width 1 (cells_at (map plain_cell items)) ≡ first_more + 1 },
    ghost last_row: { last_width 1 (cells_at (map plain_cell items)) ≡ last_more + 1 },
    ghost one_row: { single ≡ are_single (cells_at (map plain_cell items)) },
    ghost even_rows: { even ≡ are_even (first_width 1 (cells_at (map plain_cell items))) 1 (cells_at (map plain_cell items)) },
}

/// The beginning of what ends with an operand.
#[derive(Drop)]
pub enum Head {
    Unary(Token),
    Binary(Measured, Token),
    /// `condition ? chosen :`.
    Choice(Boxed<Measured>, Token, Boxed<Measured>, Token),
    /// A name or names in parentheses, and `->`.
    Lambda(Measured, Token),
    /// `@spawnat` or `@fetchfrom`, and an atom.
    Spawn(Token, Measured),
    /// The name of a keyword argument, and `=`.
    Keyword(Token, Token),
}

/// What parentheses or brackets stand behind.
#[derive(Drop)]
pub enum Bracket {
    /// Nothing: an expression in parentheses, or a tuple.
    Grouped,
    /// A function.
    Called(Measured),
    /// Nothing: a list.
    Itemed,
    /// What is indexed.
    Indexed(Measured),
}
