//! The flat model.
ghost use Rattle.std.specs.Prelude.{◌≡◌, ◌<◌, ◌↔◌, Some, IsSome, IfSome, length, slice_get};
ghost use Rattle.sm_flat.specs.Limits.{IsFlat};
ghost use Rattle.sm_flat.specs.Forms.{IsForm};

use crate::form::Constraint;
use crate::goal::Goal;
use crate::limits::{are_constraints, are_goals, are_vars};
use sm_kinds::Var;
use std::marker::Model;

/// A flat model: variables, constraints and one to four goals, most important first, within all limits.
#[derive(Drop)]
pub struct Flat {
    vars: Vec<Var>,
    constraints: Vec<Constraint>,
    goals: Vec<Goal>,
}

impl Model for Flat {
    ghost use Rattle.sm_flat.specs.Models.{FlatModel};
    ghost use Rattle.sm_flat.specs.Limits.{IsFlat};

    ghost Value = { FlatModel };

    ghost view = { λ f. record { vars = f.vars.items; constraints = f.constraints.items; goals = f.goals.items } };

    ghost invariant = { λ f. IsFlat (record { vars = f.vars.items; constraints = f.constraints.items; goals = f.goals.items }) };
}

impl Flat {
    /// The model of these parts, which are within all limits and fit each other.
    pub fn of(vars: Vec<Var>, constraints: Vec<Constraint>, goals: Vec<Goal>) -> Flat
        requires { IsFlat (record { vars = vars.items; constraints = constraints.items; goals = goals.items }) }
        ensures { result ≡ record { vars = vars.items; constraints = constraints.items; goals = goals.items } }
    {
        Flat {
            vars,
            constraints,
            goals,
        }
    }

    /// The model of these parts, where they are within all limits and fit each other.
    pub fn new(vars: Vec<Var>, constraints: Vec<Constraint>, goals: Vec<Goal>) -> Option<Flat>
        ensures variant { IsSome result ↔ IsFlat (record { vars = vars.items; constraints = constraints.items; goals = goals.items }) }
        ensures value { IfSome result (λ f. f ≡ record { vars = vars.items; constraints = constraints.items; goals = goals.items }) }
    {
        if !are_vars(vars.as_slice()) {
            return None;
        }
        if !are_constraints(vars.as_slice(), constraints.as_slice()) {
            return None;
        }
        if !are_goals(vars.as_slice(), goals.as_slice()) {
            return None;
        }
        Some(Flat::of(vars, constraints, goals))
    }

    /// The variables, by number.
    pub fn vars(&self) -> &[Var]
        ensures value { result.now ≡ self.now.vars }
        ensures limits { IsFlat self.now }
    {
        &self.vars
    }

    /// The constraints, by number.
    pub fn constraints(&self) -> &[Constraint]
        ensures value { result.now ≡ self.now.constraints }
        ensures limits { IsFlat self.now }
    {
        &self.constraints
    }

    /// The constraint of a number.
    pub fn constraint(&self, k: u32) -> &Constraint
        requires { k < length self.now.constraints }
        ensures value { slice_get self.now.constraints k ≡ Some result.now }
        ensures limits { IsForm self.now.vars result.now.form }
    {
        &self.constraints[k as usize]
    }

    /// The goals, most important first.
    pub fn goals(&self) -> &[Goal]
        ensures value { result.now ≡ self.now.goals }
        ensures limits { IsFlat self.now }
    {
        &self.goals
    }
}
