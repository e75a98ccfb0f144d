ghost use Rattle.std.specs.Prelude.{◌≡◌, [], ◌∷◌, map, OnOk};
ghost use Rattle.c_ast.specs.TreeViews as source;
ghost use Rattle.c_ast.specs.Trees.{variables};
ghost use Rattle.c_types_homes.specs.Declarators.{declared_name, declared_place};
ghost use Rattle.c_types_operators.specs.Judging.{noted};
ghost use Rattle.c_types_functions.specs.Functions.{a_global, a_prototype, a_body, declared_as, declared_by, redeclared_after, all_declared};
ghost use Rattle.c_types_functions.specs.Finding.{Passes, nothing_seen, clashes_with};

use crate::judging::keeps;
use crate::tables::built_in;
use c_ast::{Declarator, FunctionHead, Item, Unit};
use c_scopes::Table;
use c_typed::Rule;
use c_types_operators::notes::Notes;
use std::alloc::{AllocError, Global};
use std::marker::Model;

/// The names that a file declares so far, by what it declares them as.
#[derive(Drop)]
struct Seen<'a> {
    globals: Table<'a, ()>,
    prototypes: Table<'a, ()>,
    bodies: Table<'a, ()>,
}

impl<'a> Model for Seen<'a> {
    ghost use Rattle.c_types_functions.specs.Finding as finding;

    ghost Value = { finding.Seen };

    ghost view = { λ seen. record { globals = seen.globals; prototypes = seen.prototypes; bodies = seen.bodies } };
}

impl<'a> Seen<'a> {
    fn new(alloc: Global) -> Seen<'a>
        ensures { result ≡ nothing_seen }
    {
        Seen {
            globals: Table::new(alloc),
            prototypes: Table::new(alloc),
            bodies: Table::new(alloc),
        }
    }

    /// Whether a variable of this name would be one declaration too many.
    fn clashes_global(&self, name: &[u8]) -> bool
        ensures { result ≡ clashes_with self.now a_global name.now }
    {
        self.globals.find(name).is_some()
            || (self.prototypes.find(name).is_some() || self.bodies.find(name).is_some())
    }

    /// Whether a body of this name would be one declaration too many.
    fn clashes_body(&self, name: &[u8]) -> bool
        ensures { result ≡ clashes_with self.now a_body name.now }
    {
        self.globals.find(name).is_some() || self.bodies.find(name).is_some()
    }

    fn global(&mut self, notes: &mut Notes<'_>, d: &'a Declarator) -> Result<(), AllocError>
        ensures { let x = source.decl_of d.now in
            OnOk result (Passes self.old self.new notes.old notes.new (declared_as a_global (declared_name x) (declared_place x) ∷ [])) }
    {
        let name = d.name.list();
        let again = self.clashes_global(name) || built_in(name).is_some();
        keeps(notes, again, Rule::Redeclared, d.place);
        self.globals.declare(name, ())?;
        Ok(())
    }

    fn globals(&mut self, notes: &mut Notes<'_>, list: &'a [Declarator]) -> Result<(), AllocError>
        ensures { OnOk result (Passes self.old self.new notes.old notes.new (declared_by (variables (map source.decl_of list.now)))) }
    {
        for d in list {
            self.global(notes, d)?;
        }
        Ok(())
    }

    fn prototype(&mut self, notes: &mut Notes<'_>, head: &'a FunctionHead) -> Result<(), AllocError>
        ensures { OnOk result (Passes self.old self.new notes.old notes.new (declared_as a_prototype head.now.name head.now.place ∷ [])) }
    {
        let name = head.name.list();
        let again = self.globals.find(name).is_some();
        keeps(notes, again, Rule::Redeclared, head.place);
        self.prototypes.declare(name, ())?;
        Ok(())
    }

    fn body(&mut self, notes: &mut Notes<'_>, head: &'a FunctionHead) -> Result<(), AllocError>
        ensures { OnOk result (Passes self.old self.new notes.old notes.new (declared_as a_body head.now.name head.now.place ∷ [])) }
    {
        let name = head.name.list();
        let again = self.clashes_body(name) || built_in(name).is_some();
        keeps(notes, again, Rule::Redeclared, head.place);
        self.bodies.declare(name, ())?;
        Ok(())
    }

    fn item(&mut self, notes: &mut Notes<'_>, item: &'a Item) -> Result<(), AllocError>
        ensures { OnOk result (Passes self.old self.new notes.old notes.new (declared_by (source.item_of item.now))) }
    {
        match item {
            Item::Prototype(head) => self.prototype(notes, head),
            Item::Function { head, .. } => self.body(notes, head),
            Item::Variables(list) => self.globals(notes, list),
        }
    }
}

/// Notes the names that a file declares twice.
pub fn redeclared(alloc: Global, notes: &mut Notes<'_>, unit: &Unit) -> Result<(), AllocError>
    ensures { OnOk result (notes.new ≡ noted notes.old [] (redeclared_after [] (all_declared (source.unit_of unit.now)))) }
{
    let mut seen = Seen::new(alloc);
    for item in &unit.items {
        seen.item(notes, item)?;
    }
    Ok(())
}
