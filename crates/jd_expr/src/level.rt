//! One level of an expression, where a function value evaluates the parts below it. So each construct is proved by
//! itself, and the recursion is one function.
ghost use Rattle.std.specs.Prelude.{◌≡◌, ℕ, ◌++◌, ◌∷◌, [], true};
ghost use Rattle.jd_value.specs.declared.value.Value.TheVariants.{Text};
ghost use Rattle.jd_expr.specs.Action.{Gives, and_then, lift, pure};
ghost use Rattle.jd_expr.specs.Builtins.{builtin, is_plain as plainly};
ghost use Rattle.jd_expr.specs.Meaning as spec;
ghost use Rattle.jd_expr.specs.Meaning.{meaning};
ghost use Rattle.jd_expr.specs.Nests.{Evaluates};

use crate::arithmetic::{plain_one, plain_two, truth};
use crate::budget::Budget;
use crate::builtins::{apply_builtin, is_plain};
use crate::drops::let_go;
use crate::env::Env;
use crate::named::named;
use crate::stop::Stop;
use jd_value::{Builtin, Expr, Fault, Shared, Txt, Value};
use sqlite_items::Items;
use std::alloc::Global;

/// What a condition gives, which must be a truth value.
fn condition(value: &Value) -> Result<bool, Fault>
    ensures { result ≡ spec.condition value.now }
{
    match value {
        Value::True => Ok(true),
        Value::False => Ok(false),
        _ => Err(Fault::BadType),
    }
}

fn shared_text(text: &Shared<Txt>) -> Result<Value, Stop>
    ensures { (units : ℕ) → Gives (pure (Text text.now) units) result units }
{
    Ok(Value::Text(text.share()?))
}

/// How the parts below a node are evaluated: by `eval`, with `fuel` levels at most.
#[derive(Clone, Copy)]
pub struct Level<E> {
    pub alloc: Global,
    pub fuel: u64,
    pub eval: E,
}

impl<E: Fn(Global, u64, u64, &Env, &Expr, &mut Budget) -> Result<Value, Stop>> Level<E> {
    fn value(&self, calls: u64, vars: &Env, x: &Expr, budget: &mut Budget) -> Result<Value, Stop>
        requires { Evaluates self.now.fuel (E.pre self.now.eval) (E.post self.now.eval) }
        ensures { Gives ((meaning self.now.fuel).eval calls vars.now x.now budget.old) result budget.new }
    {
        (self.eval)(self.alloc, self.fuel, calls, vars, x, budget)
    }

    /// The values that are there, and behind them that of the expression.
    fn with_value(
        &self,
        calls: u64,
        vars: &Env,
        mut done: Items<Value>,
        x: &Expr,
        budget: &mut Budget,
    ) -> Result<Items<Value>, Stop>
        requires { Evaluates self.now.fuel (E.pre self.now.eval) (E.post self.now.eval) }
        ensures { Gives (and_then ((meaning self.now.fuel).eval calls vars.now x.now budget.old) (λ value. pure (done ++ value ∷ []))) result budget.new }
    {
        done.push(self.value(calls, vars, x, budget)?)?;
        Ok(done)
    }

    /// The values of the expressions, from left to right.
    #[tactic(auto, unfolding(crate::specs::Meaning::each))]
    pub fn each(
        &self,
        calls: u64,
        vars: &Env,
        mut all: &[Expr],
        budget: &mut Budget,
    ) -> Result<Items<Value>, Stop>
        requires { Evaluates self.now.fuel (E.pre self.now.eval) (E.post self.now.eval) }
        ensures { Gives (spec.each (meaning self.now.fuel) calls vars.now all.entry.now budget.old) result budget.new }
    {
        let mut done = Items::new(self.alloc);
        while let [x, rest @ ..] = all {
            done = self.with_value(calls, vars, done, x, budget)?;
            all = rest;
        }
        Ok(done)
    }

    #[tactic(auto, unfolding(crate::specs::Meaning::applied, crate::specs::Meaning::each, crate::specs::Builtins::builtin))]
    fn applied_to_one(
        &self,
        calls: u64,
        vars: &Env,
        function: Builtin,
        x: &Expr,
        budget: &mut Budget,
    ) -> Result<Value, Stop>
        requires below { Evaluates self.now.fuel (E.pre self.now.eval) (E.post self.now.eval) }
        requires plain { plainly function ≡ true }
        ensures { Gives (spec.applied (meaning self.now.fuel) calls vars.now function (x.now ∷ []) budget.old) result budget.new }
    {
        let a = self.value(calls, vars, x, budget)?;
        let answer = plain_one(function, &a);
        let_go(a);
        answer.map_err(Stop::Faulted)
    }

    #[tactic(auto, unfolding(crate::specs::Meaning::applied, crate::specs::Meaning::each))]
    fn applied_to_two(
        &self,
        calls: u64,
        vars: &Env,
        function: Builtin,
        x: &Expr,
        y: &Expr,
        budget: &mut Budget,
    ) -> Result<Value, Stop>
        requires below { Evaluates self.now.fuel (E.pre self.now.eval) (E.post self.now.eval) }
        requires plain { plainly function ≡ true }
        ensures { Gives (spec.applied (meaning self.now.fuel) calls vars.now function (x.now ∷ y.now ∷ []) budget.old) result budget.new }
    {
        let a = self.value(calls, vars, x, budget)?;
        let answer = self.applied_to_second(calls, vars, function, &a, y, budget);
        let_go(a);
        answer
    }

    /// The second argument, behind the value of the first, then the function.
    #[tactic(auto, unfolding(crate::specs::Builtins::builtin))]
    fn applied_to_second(
        &self,
        calls: u64,
        vars: &Env,
        function: Builtin,
        a: &Value,
        y: &Expr,
        budget: &mut Budget,
    ) -> Result<Value, Stop>
        requires below { Evaluates self.now.fuel (E.pre self.now.eval) (E.post self.now.eval) }
        requires plain { plainly function ≡ true }
        ensures { Gives (and_then ((meaning self.now.fuel).eval calls vars.now y.now budget.old) (λ b. builtin function (a.now ∷ b ∷ []))) result budget.new }
    {
        let b = self.value(calls, vars, y, budget)?;
        let answer = plain_two(function, a, &b);
        let_go(b);
        answer.map_err(Stop::Faulted)
    }

    #[tactic(auto, unfolding(crate::specs::Meaning::applied))]
    fn applied_to_all(
        &self,
        calls: u64,
        vars: &Env,
        function: Builtin,
        args: &[Expr],
        budget: &mut Budget,
    ) -> Result<Value, Stop>
        requires { Evaluates self.now.fuel (E.pre self.now.eval) (E.post self.now.eval) }
        ensures { Gives (spec.applied (meaning self.now.fuel) calls vars.now function args.now budget.old) result budget.new }
    {
        let values = self.each(calls, vars, args, budget)?;
        apply_builtin(self.alloc, function, values.as_slice(), budget)
    }

    fn applied(
        &self,
        calls: u64,
        vars: &Env,
        function: Builtin,
        args: &[Expr],
        budget: &mut Budget,
    ) -> Result<Value, Stop>
        requires { Evaluates self.now.fuel (E.pre self.now.eval) (E.post self.now.eval) }
        ensures { Gives (spec.applied (meaning self.now.fuel) calls vars.now function args.now budget.old) result budget.new }
    {
        if !is_plain(function) {
            return self.applied_to_all(calls, vars, function, args, budget);
        }
        match args {
            [x] => self.applied_to_one(calls, vars, function, x, budget),
            [x, y] => self.applied_to_two(calls, vars, function, x, y, budget),
            _ => self.applied_to_all(calls, vars, function, args, budget),
        }
    }

    /// The truth value of a condition.
    #[tactic(auto, unfolding(crate::specs::Meaning::decision))]
    fn test(&self, calls: u64, vars: &Env, x: &Expr, budget: &mut Budget) -> Result<bool, Stop>
        requires { Evaluates self.now.fuel (E.pre self.now.eval) (E.post self.now.eval) }
        ensures { Gives (spec.decision (meaning self.now.fuel) calls vars.now x.now budget.old) result budget.new }
    {
        let value = self.value(calls, vars, x, budget)?;
        let holds = condition(&value);
        let_go(value);
        holds.map_err(Stop::Faulted)
    }

    #[tactic(auto, unfolding(crate::specs::Meaning::both))]
    fn both(
        &self,
        calls: u64,
        vars: &Env,
        x: &Expr,
        y: &Expr,
        budget: &mut Budget,
    ) -> Result<Value, Stop>
        requires { Evaluates self.now.fuel (E.pre self.now.eval) (E.post self.now.eval) }
        ensures { Gives (spec.both (meaning self.now.fuel) calls vars.now x.now y.now budget.old) result budget.new }
    {
        if self.test(calls, vars, x, budget)? {
            self.value(calls, vars, y, budget)
        } else {
            Ok(Value::False)
        }
    }

    #[tactic(auto, unfolding(crate::specs::Meaning::either))]
    fn either(
        &self,
        calls: u64,
        vars: &Env,
        x: &Expr,
        y: &Expr,
        budget: &mut Budget,
    ) -> Result<Value, Stop>
        requires { Evaluates self.now.fuel (E.pre self.now.eval) (E.post self.now.eval) }
        ensures { Gives (spec.either (meaning self.now.fuel) calls vars.now x.now y.now budget.old) result budget.new }
    {
        if self.test(calls, vars, x, budget)? {
            Ok(Value::True)
        } else {
            self.value(calls, vars, y, budget)
        }
    }

    #[tactic(auto, unfolding(crate::specs::Meaning::chosen))]
    fn chosen(
        &self,
        calls: u64,
        vars: &Env,
        x: &Expr,
        y: &Expr,
        z: &Expr,
        budget: &mut Budget,
    ) -> Result<Value, Stop>
        requires { Evaluates self.now.fuel (E.pre self.now.eval) (E.post self.now.eval) }
        ensures { Gives (spec.chosen (meaning self.now.fuel) calls vars.now x.now y.now z.now budget.old) result budget.new }
    {
        if self.test(calls, vars, x, budget)? {
            self.value(calls, vars, y, budget)
        } else {
            self.value(calls, vars, z, budget)
        }
    }

    /// What stands at a node, of which the unit is spent.
    #[tactic(auto, unfolding(crate::specs::Meaning::node))]
    pub fn node(&self, calls: u64, vars: &Env, x: &Expr, budget: &mut Budget) -> Result<Value, Stop>
        requires { Evaluates self.now.fuel (E.pre self.now.eval) (E.post self.now.eval) }
        ensures { Gives (spec.node (meaning self.now.fuel) calls vars.now x.now budget.old) result budget.new }
    {
        match x {
            Expr::Int(n) => Ok(Value::Int(*n)),
            Expr::Truth(holds) => Ok(truth(*holds)),
            Expr::Nothing => Ok(Value::Nothing),
            Expr::Text(text) => shared_text(text),
            Expr::Name(name) => named(vars, name),
            Expr::Apply(function, args) => self.applied(
                calls,
                vars,
                *function,
                args.as_slice(),
                budget,
            ),
            Expr::And(x, y) => self.both(calls, vars, x.get(), y.get(), budget),
            Expr::Or(x, y) => self.either(calls, vars, x.get(), y.get(), budget),
            Expr::Choose(x, y, z) => self.chosen(calls, vars, x.get(), y.get(), z.get(), budget),
        }
    }
}
