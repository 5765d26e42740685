//! Laws of the meaning.
ghost use Rattle.std.specs.Prelude.{◌≡◌, ◌≤◌, ℕ};
ghost use Rattle.jd_expr.specs.Meaning.{meaning};
ghost use Rattle.jd_expr.specs.Variables.{Variables};
ghost use Rattle.jd_value.specs.declared.expr.Expr.{Expr as TheExpr};

/// The number of levels that the meaning carries plays no part where it is no less than the units: the meaning is
/// that of a recursion on the expression alone.
pub fn more_fuel_changes_nothing()
    ensures { (fuel units calls : ℕ) (vars : Variables) (x : TheExpr) → units ≤ fuel → (meaning fuel).eval calls vars x units ≡ (meaning units).eval calls vars x units }
{}
