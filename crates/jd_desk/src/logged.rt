//! What a value needs so that threads can take turns at it.

/// A value with a list of entries. Each turn at a desk may only append to it.
pub trait Logged {
    ghost use Rattle.std.specs.Prelude.{List, ◌≡◌, length};

    /// An entry of the list.
    type Entry;

    ghost log: { Self → List Self.Entry };

    /// How many entries the list has. Takes no memory.
    fn entries(&self) -> u64
        ensures { result ≡ length (log self.now) };
}
