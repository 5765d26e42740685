//! Laws about the entries of seats, for callers that tell what each thread did. Each function does nothing: its
//! contract is the law.
ghost use Rattle.std.specs.Prelude.{◌≡◌, ℕ, List, ◌++◌, Bool, filter, map, length};
ghost use Rattle.std.specs.List.{enumerate_from};
ghost use Rattle.jd_desk.specs.declared.seat.Holding.{Holding};
ghost use Rattle.jd_desk.specs.Holding.{IsWhole, LacksKind, PlacesRise, TakesTurn};

/// The places of a seat's entries keep rising as it takes turns.
pub fn turns_keep_places_rising<E>()
    ensures { (found left : List E) (old new : Holding E)
        → TakesTurn found left old new
        → PlacesRise old.entries
        → PlacesRise new.entries }
{}

/// Entries of one kind that one seat alone made are in the final list in that seat's order: `own` are its entries, and
/// `front` and `back` those of all other seats.
pub fn one_seats_kind_keeps_its_order<E>()
    ensures { (kind : E → Bool) (list : List E) (front own back : List (ℕ × E))
        → IsWhole list (front ++ own ++ back)
        → LacksKind kind front
        → LacksKind kind back
        → PlacesRise own
        → filter kind list ≡ filter kind (map (λ e. e.1) own) }
{}

/// What is appended to the list once the desk is closed can be counted as entries of one seat.
pub fn appended_after_close_is_one_seats<E>()
    ensures { (list more : List E) (front own back : List (ℕ × E))
        → IsWhole list (front ++ own ++ back)
        → IsWhole (list ++ more) (front ++ (own ++ enumerate_from (length list) more) ++ back) }
{}
