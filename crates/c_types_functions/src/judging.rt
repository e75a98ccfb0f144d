ghost use Rattle.std.specs.Prelude.{◌≡◌, [], map, IfOk, OnOk};
ghost use Rattle.std.specs.Option.{option_map};
ghost use Rattle.c_ast.specs.TreeViews as source;
ghost use Rattle.c_types_operators.specs.ScopeViews.{function_of, functions_of};
ghost use Rattle.c_types_operators.specs.Parts.{broken_if};
ghost use Rattle.c_types_functions.specs.Functions.{signature_of, same_types, same_signature, is_like, has_bad_signature, has_bad_result, head_breaches, params_breaches, is_good_prototype};
ghost use Rattle.c_types_functions.specs.Views.{plain_head};
ghost use Rattle.c_types_functions.specs.Finding.{Finds, is_taken, and_param, found_of_param};

use crate::heads::Head;
use crate::tables::built_in;
use c_ast::{Param, ParamName};
use c_scopes::Table;
use c_typed::{INT, Rule, ValueType};
use c_types_declarators::{is_bad_param, is_on_void};
use c_types_operators::notes::Notes;
use c_types_operators::scope::Function;
use ib_base::Place;
use std::alloc::{AllocError, Global};

/// The most parameters that a function may have.
const MOST_PARAMS: usize = 8;

fn same_types(a: &[ValueType], b: &[ValueType]) -> bool
    ensures { result ≡ same_types a.now b.now }
{
    if a.len() != b.len() {
        return false;
    }
    for (x, y) in a.iter().zip(b) {
        if !x.is_same(*y) {
            return false;
        }
    }
    true
}

fn has_bad_result(ty: ValueType) -> bool
    ensures { result ≡ has_bad_result ty }
{
    match ty {
        ValueType::Base(_) => false,
        ValueType::Pointer { .. } | ValueType::Null => is_on_void(ty),
    }
}

/// Notes a rule where it is broken, and says whether it is kept.
#[tactic(auto, using(crate::proofs::NoteLemmas::noted_nothing))]
pub(crate) fn keeps(notes: &mut Notes<'_>, broken: bool, rule: Rule, place: Place) -> bool
    ensures { Finds notes.old notes.new (broken_if broken rule place) result }
{
    if broken {
        notes.breaks(rule, place);
        return false;
    }
    true
}

/// Declares a parameter among those before it, and says whether one of them has its name.
fn is_repeated<'a>(names: &mut Table<'a, ()>, param: &'a Param) -> Result<bool, AllocError>
    ensures repeated { IfOk result (λ repeated. repeated ≡ is_taken names.old (source.param_of param.now)) }
    ensures names { OnOk result (names.new ≡ and_param (source.param_of param.now) names.old) }
{
    match &param.name {
        ParamName::Unnamed => Ok(false),
        ParamName::Named(name) => {
            let new = names.declare(name.list(), ())?;
            Ok(!new)
        }
    }
}

#[tactic(auto, using(crate::proofs::NoteLemmas::noted_twice, crate::proofs::NoteLemmas::fine_join))]
fn judge_param<'a>(
    notes: &mut Notes<'_>,
    names: &mut Table<'a, ()>,
    param: &'a Param,
) -> Result<bool, AllocError>
    ensures names { OnOk result (names.new ≡ and_param (source.param_of param.now) names.old) }
    ensures finds { IfOk result (λ fine. Finds notes.old notes.new (found_of_param names.old (source.param_of param.now)) fine) }
{
    let repeated = is_repeated(names, param)?;
    let own = keeps(notes, repeated, Rule::Redeclared, param.place);
    let bad = is_bad_param(param)?;
    let good = keeps(notes, bad, Rule::BadType, param.place);
    Ok(own && good)
}

#[tactic(auto, using(crate::proofs::NameLemmas::found_all_params))]
fn judge_params(alloc: Global, notes: &mut Notes<'_>, params: &[Param]) -> Result<bool, AllocError>
    ensures { IfOk result (λ fine. Finds notes.old notes.new (params_breaches [] (map source.param_of params.now)) fine) }
{
    let mut names = Table::new(alloc);
    let mut fine = true;
    for param in params {
        let good = judge_param(notes, &mut names, param)?;
        fine = fine && good;
    }
    Ok(fine)
}

impl<'a> Head<'a> {
    /// Whether it has this result and parameters of these types.
    fn has_signature(&self, ty: ValueType, types: &[ValueType]) -> bool
        ensures { result ≡ same_signature (signature_of (plain_head self.now)) (record { result = ty; params = types.now }) }
    {
        self.result().is_same(ty) && same_types(self.types(), types)
    }

    fn has_bad_signature(&self) -> bool
        ensures { result ≡ has_bad_signature (plain_head self.now) }
    {
        self.params.len() > MOST_PARAMS || (self.is_main() && !self.has_signature(INT, &[]))
    }

    /// Notes the rules that a head breaks by itself, and says whether there are none.
    #[tactic(auto, using(crate::proofs::NoteLemmas::noted_twice, crate::proofs::NoteLemmas::fine_join))]
    pub fn judge(&self, alloc: Global, notes: &mut Notes<'_>) -> Result<bool, AllocError>
        ensures { IfOk result (λ fine. Finds notes.old notes.new (head_breaches (plain_head self.now)) fine) }
    {
        let bad_signature = self.has_bad_signature();
        let signature = keeps(notes, bad_signature, Rule::WrongSignature, self.place);
        let bad_result = has_bad_result(self.result);
        let result = keeps(notes, bad_result, Rule::BadType, self.place);
        let params = judge_params(alloc, notes, self.params)?;
        Ok(signature && result && params)
    }

    fn is_like(&self, other: Option<Function<'_>>) -> bool
        ensures { result ≡ is_like (plain_head self.now) (option_map function_of other.entry) }
    {
        match other {
            None => true,
            Some(f) => self.has_signature(f.result, f.params),
        }
    }

    /// Whether a prototype has a body or is built in, and is like it.
    #[tactic(auto, using(crate::proofs::TableLemmas::meaning_of, crate::proofs::TableLemmas::is_some_of))]
    pub fn is_good_prototype(&self, bodied: &Table<'_, Function<'_>>) -> bool
        ensures { result ≡ is_good_prototype (functions_of bodied.now) (plain_head self.now) }
    {
        let body = bodied.find(self.name);
        let own = built_in(self.name);
        (body.is_some() || own.is_some()) && (self.is_like(body) && self.is_like(own))
    }
}
