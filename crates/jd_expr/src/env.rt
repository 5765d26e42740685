//! The variables of a body.
ghost use Rattle.std.specs.Prelude.{◌≡◌, [], length, slice_get, OnOk, OnErr};
ghost use Rattle.std.specs.Option.{option_copied, option_map};
ghost use Rattle.std.specs.Map.Iter.{deref_pair};
ghost use Rattle.jd_expr.specs.Entries.{variable, variables};
ghost use Rattle.jd_expr.specs.Variables.{value_of, with_value, without};

use crate::drops::{let_go, put};
use indexmap::IndexMap;
use jd_value::{OutOfMemory, Txt, Value};
use std::alloc::Global;
use std::marker::Model;

/// The variables of a body that have a value, which contracts see as their list, in the order in which they got their
/// first values.
#[derive(Drop)]
pub struct Env {
    values: IndexMap<Txt, Value>,
}

impl Model for Env {
    ghost use Rattle.std.specs.Prelude.{List};
    ghost use Rattle.std.specs.Coded.{codes};
    ghost use Rattle.jd_expr.specs.declared.variable.Variable.{Variable};
    ghost use Rattle.jd_expr.specs.contracts.variable.Variable as one;
    ghost use Rattle.jd_expr.specs.Entries.{variables};

    ghost Value = { List Variable };

    ghost coded = { Prim.hlevel (codes, one.the_row.coded) };

    ghost view = { λ e. variables e.values.entries };
}

/// Adds a variable at the end.
fn add(values: &mut IndexMap<Txt, Value>, name: Txt, value: Value) -> Result<(), OutOfMemory>
    ensures ok { OnOk result (variables values.new.entries ≡ with_value name value (variables values.old.entries)) }
    ensures err { OnErr result (values.new.entries ≡ values.old.entries) }
{
    let_go(values.insert(name, value)?);
    Ok(())
}

/// Adds a variable of this name at the end.
fn add_copied(
    values: &mut IndexMap<Txt, Value>,
    name: &Txt,
    value: Value,
) -> Result<(), OutOfMemory>
    ensures ok { OnOk result (variables values.new.entries ≡ with_value name.now value (variables values.old.entries)) }
    ensures err { OnErr result (values.new.entries ≡ values.old.entries) }
{
    match name.copy() {
        Ok(name) => add(values, name, value),
        Err(error) => {
            let_go(value);
            Err(error)
        }
    }
}

/// Gives a variable a value, in its place or at the end.
fn set_in(values: &mut IndexMap<Txt, Value>, name: &Txt, value: Value) -> Result<(), OutOfMemory>
    ensures ok { OnOk result (variables values.new.entries ≡ with_value name.now value (variables values.old.entries)) }
    ensures err { OnErr result (values.new.entries ≡ values.old.entries) }
{
    match values.get_mut(name) {
        Some(held) => {
            put(held, value);
            Ok(())
        }
        None => add_copied(values, name, value),
    }
}

impl Env {
    /// No variable has a value.
    pub fn new(alloc: Global) -> Env
        ensures { result ≡ [] }
    {
        Env {
            values: IndexMap::new(alloc),
        }
    }

    /// How many variables have a value.
    pub fn len(&self) -> usize
        ensures { result ≡ length self.now }
    {
        self.values.len()
    }

    /// The variable at this place, from 0, with its value.
    pub fn variable_at(&self, place: usize) -> Option<(&Txt, &Value)>
        ensures { option_map (λ entry. variable (deref_pair entry)) result ≡ slice_get self.now place }
    {
        self.values.get_index(place)
    }

    /// The value of the variable of this name.
    pub fn get(&self, name: &Txt) -> Option<&Value>
        ensures { option_copied result ≡ value_of name.now self.now }
    {
        self.values.get(name)
    }

    /// Gives the variable of this name a value. One that has a value keeps its place, and a new one goes last.
    pub fn set(&mut self, name: &Txt, value: Value) -> Result<(), OutOfMemory>
        ensures ok { OnOk result (self.new ≡ with_value name.now value self.old) }
        ensures err { OnErr result (self.new ≡ self.old) }
    {
        set_in(&mut self.values, name, value)
    }

    /// Takes the value from the variable of this name, and gives it back.
    pub fn unset(&mut self, name: &Txt) -> Option<Value>
        ensures value { result ≡ value_of name.now self.old }
        ensures rest { self.new ≡ without name.now self.old }
    {
        self.values.shift_remove(name)
    }
}
