ghost use Rattle.std.specs.Prelude.{◌≡◌, not, IfOk, OnErr, OnOk};
ghost use Rattle.std.specs.Option.{option_map};
ghost use Rattle.c_types_operators.specs.Scopes.{found, inner, outer, with_variable};
ghost use Rattle.c_types_operators.specs.ScopeViews.{functions_of, meant_of};
ghost use Rattle.c_scopes.specs.Scopes.{is_own, outermost};

use c_layout::Shape;
use c_scopes::{Scopes, Table};
use c_typed::{Storage, ValueType};
use std::alloc::{AllocError, Global};
use std::marker::Model;

/// Where a variable lives: in a slot of the environment, or in memory.
#[derive(Clone, Copy)]
pub enum Lives {
    InSlot(u32),
    InMemory(Storage),
}

#[derive(Clone, Copy)]
pub struct Variable {
    pub shape: Shape,
    pub lives: Lives,
}

/// What a call of a function runs: a body, by its number among the bodies, or what is built in.
#[derive(Clone, Copy)]
pub enum Callee {
    Body(u32),
    GetChar,
    PutChar,
    PutInt,
}

/// A function as its callers see it.
#[derive(Clone, Copy)]
pub struct Function<'s> {
    pub result: ValueType,
    pub params: &'s [ValueType],
    pub callee: Callee,
}

/// What a name means.
#[derive(Clone, Copy)]
pub enum Meant<'s> {
    Variable(Variable),
    Function(Function<'s>),
}

/// The variables of the scopes that are open, and the functions of the file.
#[derive(Drop)]
pub struct Scope<'a, 's> {
    variables: Scopes<'a, Variable>,
    functions: &'s Table<'a, Function<'s>>,
}

impl<'a, 's> Model for Scope<'a, 's> {
    ghost use Rattle.c_types_operators.specs.Scopes as scopes;
    ghost use Rattle.c_types_operators.specs.ScopeViews.{functions_of};

    ghost Value = { scopes.Scope };

    ghost view = { λ scope. record { scopes = scope.variables; functions = functions_of scope.functions.now } };
}

impl<'a, 's> Scope<'a, 's> {
    /// The functions of a file, whose scope is the outermost.
    pub fn new(alloc: Global, functions: &'s Table<'a, Function<'s>>) -> Scope<'a, 's>
        ensures { result ≡ record { scopes = outermost; functions = functions_of functions.now } }
    {
        Scope {
            variables: Scopes::new(alloc),
            functions,
        }
    }

    /// What a name means that is used or called. A variable hides a function.
    #[tactic(auto, using(crate::proofs::NoteLemmas::function_meaning))]
    pub fn find(&self, name: &[u8]) -> Option<Meant<'s>>
        ensures { option_map meant_of result ≡ found name.now self.now }
    {
        if let Some(variable) = self.variables.find(name) {
            return Some(Meant::Variable(variable));
        }
        match self.functions.find(name) {
            Some(function) => Some(Meant::Function(function)),
            None => None,
        }
    }

    /// Opens a scope within the innermost.
    pub fn enter(&mut self, alloc: Global) -> Result<(), AllocError>
        ensures { OnOk result (self.new ≡ inner self.old) }
    {
        self.variables.enter(alloc)
    }

    /// Closes the innermost scope. The outermost stays open, without its variables.
    pub fn leave(&mut self)
        ensures { self.new ≡ outer self.old }
    {
        self.variables.leave();
    }

    /// Declares a variable in the innermost scope, and says whether its name is new there. A name
    /// that is not new keeps its meaning.
    pub fn declare(&mut self, name: &'a [u8], variable: Variable) -> Result<bool, AllocError>
        ensures new { IfOk result (λ new. new ≡ not (is_own name.now self.old.scopes)) }
        ensures scope { OnOk result (self.new ≡ with_variable name.now variable self.old) }
        ensures same { OnErr result (self.new ≡ self.old) }
    {
        self.variables.declare(name, variable)
    }
}
