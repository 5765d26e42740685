//! Values that go out of scope. A call by a type parameter keeps what their kinds are out of the proofs of the callers.
ghost use Rattle.std.specs.Prelude.{◌≡◌};

/// Drops a value.
pub(crate) fn let_go<T: Drop>(_value: T) {}

/// Puts a value in the place of another one, which is dropped.
pub(crate) fn put<T: Drop>(place: &mut T, value: T)
    ensures { place.new ≡ value }
{
    *place = value;
}
