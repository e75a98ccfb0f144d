//! Declarations in a function.

ghost use Rattle.std.specs.Prelude.{◌≡◌, ◌++◌, ◌∷◌, map, IfOk, OnOk};
ghost use Rattle.std.specs.Option.{option_map};
ghost use Rattle.c_ast.specs.TreeViews as source;
ghost use Rattle.c_ast.specs.Trees as c;
ghost use Rattle.c_typed.specs.Views.{boxed_of, part_of};
ghost use Rattle.c_types_homes.specs.Declarators.{declared_name, declared_place};
ghost use Rattle.c_typed.specs.declared.rule.Rule.TheVariants.{WrongInitialiser};
ghost use Rattle.c_types_operators.specs.Rules.{breaches};
ghost use Rattle.c_types_operators.specs.Scopes.{with_variable};
ghost use Rattle.c_types_expressions.specs.Expressions.{literals, literals_of, value, values};
ghost use Rattle.c_types_operators.specs.Views.{exprs_of};
ghost use Rattle.c_types_operators.specs.Parts.{breach};
ghost use Rattle.c_types_declarators.specs.Declarations.{declarator_breaches};
ghost use Rattle.c_types_statements.specs.Statements.{past_texts, past_start, literals_init, lives, home_at, redeclared_in, first_value, no_first_value, stored_first, local, locals, start, with_local, with_locals, with_start};
ghost use Rattle.c_types_statements.specs.Keeping.{Seen, Types, Finds, Passes, past_local, past_locals};

use crate::nodes;
use crate::walk::Walk;
use c_ast::{Declarator, ForStart, Init};
use c_layout::Shape;
use c_typed::{Expr, Home, Part, Rule, Storage, ValueType};
use c_types_declarators::is_bad_declarator;
use c_types_homes::shape_of;
use c_types_operators::scope::{Lives, Variable};
use ib_base::Place;
use std::alloc::AllocError;

/// Where a variable with this home lives.
pub fn lives(home: Home) -> Lives
    ensures { result ≡ lives home }
{
    match home {
        Home::Slot(slot) => Lives::InSlot(slot),
        Home::Frame(at) => Lives::InMemory(Storage::Frame(at)),
    }
}

/// The home of a variable, by its number; a number that has none gives slot 0.
pub fn home_at(homes: &[Home], number: u32) -> Home
    ensures { result ≡ home_at homes.now number }
{
    match homes.get(number as usize) {
        Some(home) => *home,
        None => Home::Slot(0),
    }
}

impl<'a, 's> Walk<'a, 's> {
    /// A value that stands where none may.
    pub(crate) fn wrong_value(
        &mut self,
        rule: Rule,
        place: Place,
        e: &'a c_ast::Expr,
    ) -> Result<(), AllocError>
        ensures { let x = source.expr_of e.now in
            OnOk result (Passes self.old self.new self.old.scope (past_texts (literals x) self.old.at)
            (breach rule place ∷ breaches (value self.old.scope self.old.at.texts x))) }
    {
        self.keeps(true, rule, place);
        self.value(e)?;
        Ok(())
    }

    /// Values that stand where none may.
    pub(crate) fn wrong_values(
        &mut self,
        place: Place,
        list: &'a [c_ast::Expr],
    ) -> Result<(), AllocError>
        ensures { let xs = c.exps (map source.expr_of list.now) in
            OnOk result (Passes self.old self.new self.old.scope (past_texts (literals_of xs) self.old.at)
            (breach WrongInitialiser place ∷ breaches (values self.old.scope self.old.at.texts xs))) }
    {
        self.keeps(true, Rule::WrongInitialiser, place);
        self.values(list)?;
        Ok(())
    }

    /// What a scalar holds first.
    fn first_value(
        &mut self,
        place: Place,
        ty: ValueType,
        init: &'a Init,
    ) -> Result<Option<Box<Expr>>, AllocError>
        ensures { let x = source.init_of init.now in
            IfOk result (λ answer. Types self.old self.new self.old.scope (past_texts (literals_init x) self.old.at) (first_value self.old.scope self.old.at.texts place ty x) (option_map boxed_of answer)) }
    {
        match init {
            Init::Nothing => nodes::zero(self.alloc, ty),
            Init::Value(e) => self.stored(ty, e),
            Init::List(list) => {
                self.wrong_values(place, list)?;
                Ok(None)
            }
        }
    }

    /// A local array has no initialiser.
    fn no_first_value(&mut self, place: Place, init: &'a Init) -> Result<Option<Part>, AllocError>
        ensures { let x = source.init_of init.now in
            IfOk result (λ answer. Types self.old self.new self.old.scope (past_texts (literals_init x) self.old.at) (no_first_value self.old.scope self.old.at.texts place x) (option_map part_of answer)) }
    {
        match init {
            Init::Nothing => Ok(Some(Part::Missing)),
            Init::Value(e) => {
                self.wrong_value(Rule::WrongInitialiser, place, e)?;
                Ok(None)
            }
            Init::List(list) => {
                self.wrong_values(place, list)?;
                Ok(None)
            }
        }
    }

    /// What a declaration stores.
    fn stored_first(
        &mut self,
        place: Place,
        shape: Shape,
        home: Home,
        init: &'a Init,
    ) -> Result<Option<Part>, AllocError>
        ensures { let x = source.init_of init.now in
            IfOk result (λ answer. Types self.old self.new self.old.scope (past_texts (literals_init x) self.old.at) (stored_first self.old.scope self.old.at.texts place shape home x) (option_map part_of answer)) }
    {
        match shape {
            Shape::Scalar(ty) => {
                let x = self.first_value(place, ty, init)?;
                let part = nodes::given_stored(self.alloc, ty, home, x)?;
                Ok(part)
            }
            Shape::Array { .. } => self.no_first_value(place, init),
        }
    }

    /// Declares a variable, and says whether its declarator breaks no rule.
    fn declare_local(&mut self, d: &'a Declarator, variable: Variable) -> Result<bool, AllocError>
        ensures { let x = source.decl_of d.now in
            IfOk result (λ fine. Finds self.old self.new (with_variable (declared_name x) variable self.old.scope)
            (redeclared_in self.old.scope (declared_name x) (declared_place x) ++ declarator_breaches x) fine) }
    {
        let bad = is_bad_declarator(d)?;
        let new = self.declare(&d.name, variable)?;
        let own = self.keeps(!new, Rule::Redeclared, d.place);
        let good = self.keeps(bad, Rule::BadType, d.place);
        Ok(own && good)
    }

    /// A variable, which is known in its own initialiser.
    pub(crate) fn local(
        &mut self,
        homes: &[Home],
        d: &'a Declarator,
    ) -> Result<Option<Part>, AllocError>
        ensures { let x = source.decl_of d.now in
            IfOk result (λ answer. Types self.old self.new (with_local homes.now self.old.at.variable x self.old.scope) (past_local x self.old.at)
            (local homes.now self.old.scope self.old.at.variable self.old.at.texts x) (option_map part_of answer)) }
    {
        let shape = shape_of(d)?;
        let number = self.variable()?;
        let home = home_at(homes, number);
        let variable = Variable {
            shape,
            lives: lives(home),
        };
        let fine = self.declare_local(d, variable)?;
        let first = self.stored_first(d.place, shape, home, &d.init)?;
        Ok(nodes::kept_if(fine, first))
    }

    pub(crate) fn locals(
        &mut self,
        homes: &[Home],
        list: &'a [Declarator],
    ) -> Result<Option<Vec<Expr>>, AllocError>
        ensures { let ds = map source.decl_of list.now in
            IfOk result (λ answer. Types self.old self.new (with_locals homes.now self.old.at.variable ds self.old.scope) (past_locals ds self.old.at)
            (locals homes.now self.old.scope self.old.at.variable self.old.at.texts ds) (option_map exprs_of answer)) }
    {
        let mut typed = Some(Vec::new(self.alloc));
        for d in list {
            let part = self.local(homes, d)?;
            typed = nodes::and_given(typed, part)?;
        }
        Ok(typed)
    }

    /// The first part of a `for`.
    pub(crate) fn start(
        &mut self,
        homes: &[Home],
        first: &'a ForStart,
    ) -> Result<Option<Vec<Expr>>, AllocError>
        ensures { let s = source.start_of first.now in
            IfOk result (λ answer. Types self.old self.new (with_start homes.now self.old.at.variable s self.old.scope) (past_start s self.old.at)
            (start homes.now self.old.scope self.old.at.variable self.old.at.texts s) (option_map exprs_of answer)) }
    {
        match first {
            ForStart::Expr(part) => {
                let x = self.effect_part(part)?;
                let list = nodes::as_list(self.alloc, x)?;
                Ok(list)
            }
            ForStart::Local(list) => self.locals(homes, list),
        }
    }
}
