//! What a token of a desk's table knows, the rule that ties all of them together, and the steps.
use crate::logged::Logged;
use crate::seat::Holding;
use atomic_table::{Join, Play, Split, TableRule};
use std::collections::LinkedList;

/// How many shares a desk has, by this project's own choice: the first seat has them all, and each seat has at least one.
pub const SHARES: u64 = 1024;

/// What a token of the table knows. No value of it is made.
pub struct View<E> {
    pub held: Holding<E>,
    /// The whole list, in the one view that has it.
    pub list: Option<LinkedList<E>>,
}

// It takes no parameter, so that callers that are generic in the value get proofs.
pub struct SharedList;

impl<T: Logged> TableRule<T, View<T::Entry>, ()> for SharedList {
    ghost use Rattle.jd_desk.specs.Views.{Kept, first_view};

    ghost holds = { λ _ s. Kept s };

    ghost first = { λ _. first_view };
}

// A reading load: nothing changes, and what the rule says of the view that has the list is learnt.
pub struct Look;

impl<T: Logged> Play<T, View<T::Entry>> for Look {
    ghost use Rattle.jd_desk.specs.Views.{Looks};

    ghost then = { λ step before found after. Looks before after };
}

// The value's list takes the place of the list that the view has, and what it has more becomes entries of the view.
pub struct Add;

impl<T: Logged> Play<T, View<T::Entry>> for Add {
    ghost use Rattle.jd_desk.specs.Views.{Adds};

    ghost then = { λ step before found after. Adds T.log step before after };
}

// All that is held goes to the new view, and the list stays.
pub struct SplitAll;

impl<E> Split<View<E>> for SplitAll {
    ghost use Rattle.jd_desk.specs.Views.{emptied, without_list};

    ghost left = { emptied };

    ghost right = { without_list };
}

// One share goes to the new view.
pub struct SplitShare;

impl<E> Split<View<E>> for SplitShare {
    ghost use Rattle.jd_desk.specs.Views.{less_one, one_share};

    ghost left = { less_one };

    ghost right = { λ _. one_share };
}

// All that the other view holds comes to this one.
pub struct JoinAll;

impl<E> Join<View<E>> for JoinAll {
    ghost use Rattle.jd_desk.specs.Views.{joined, spent};

    ghost both = { joined };

    ghost spent = { spent };
}
