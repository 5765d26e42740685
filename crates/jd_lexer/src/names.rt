//! Numbers the names of a script.
ghost use Rattle.std.specs.Prelude.{◌≡◌, ◌≤◌, ◌<◌, length, position, IfOk, IfSome, OnOk};
ghost use Rattle.std.specs.Str.{bytes_eq};
ghost use Rattle.jd_lexer.specs.Words.{number_in, with_name};
ghost use Rattle.jd_lexer.specs.Names.{texts_of};

use indexmap::IndexSet;
use std::alloc::AllocError;

/// The number of a name: its place among the names before, or behind them all where it is new.
pub fn number_of<'a>(names: &mut IndexSet<&'a [u8]>, name: &'a [u8]) -> Result<usize, AllocError>
    ensures number { IfOk result (λ n. n ≡ number_in (texts_of names.old.keys) name.now) }
    ensures few { IfOk result (λ n. n ≤ length (texts_of names.old.keys)) }
    ensures names { OnOk result (texts_of names.new.keys ≡ with_name (texts_of names.old.keys) name.now) }
{
    let (number, _) = names.insert_full(name)?;
    Ok(number)
}

/// The number of a name that was read before. None of a name that is new.
pub fn known_number(names: &IndexSet<&[u8]>, name: &[u8]) -> Option<usize>
    ensures number { result ≡ position (bytes_eq name.now) (texts_of names.now.keys) }
    ensures few { IfSome result (λ n. n < length (texts_of names.now.keys)) }
{
    names.get_index_of(name)
}
