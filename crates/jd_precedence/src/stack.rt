//! A stack that contracts see as a list, the newest first.
ghost use Rattle.std.specs.Prelude.{◌≡◌, [], ◌∷◌, OnOk, OnSome, MatchOption, List, length, drop, ◌+◌, ◌<◌, ◌^◌};

use std::alloc::{AllocError, Global};
use std::marker::Model;

#[derive(Drop)]
pub struct Stack<T> {
    items: Vec<T>,
}

impl<T> Model for Stack<T> {
    ghost use Rattle.std.specs.Prelude.{List, reverse};
    ghost use Rattle.std.specs.Coded.{coded_list};

    ghost Value = { List T };

    ghost coded = { coded_list T.code };

    ghost view = { λ s. reverse s.items.items };
}

impl<T: Drop> Stack<T> {
    pub fn new(alloc: Global) -> Stack<T>
        ensures { result ≡ [] }
    {
        Stack {
            items: Vec::new(alloc),
        }
    }

    pub fn push(&mut self, item: T) -> Result<(), AllocError>
        ensures { OnOk result (self.new ≡ item ∷ self.old) }
    {
        self.items.push(item)?;
        Ok(())
    }

    pub fn pop(&mut self) -> Option<T>
        ensures { MatchOption result ((self.old ≡ []) × (self.new ≡ [])) (λ top. self.old ≡ top ∷ self.new) }
    {
        self.items.pop()
    }

    pub fn len(&self) -> usize
        ensures { result ≡ length self.now }
    {
        self.items.len()
    }

    pub fn top(&self) -> Option<&T>
        ensures { MatchOption result (self.now ≡ []) (λ top. (rest : List T) × (self.now ≡ top.now ∷ rest)) }
    {
        self.items.last()
    }

    /// What stands so many items below the top.
    pub fn below(&self, depth: usize) -> Option<&T>
        ensures rest { MatchOption result (drop depth self.now ≡ []) (λ item. drop depth self.now ≡ item.now ∷ drop (depth + 1) self.now) }
        ensures inside { OnSome result (depth < length self.now) }
        ensures room { OnSome result (depth + 1 < 2 ^ 64) }
    {
        let items = self.items.as_slice();
        let len = items.len();
        if depth < len {
            Some(&items[len - 1 - depth])
        } else {
            None
        }
    }
}
