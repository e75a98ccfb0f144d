ghost use Rattle.std.specs.Prelude.{◌≡◌, length, map, [], ◌∷◌, None, IfOk, OnOk};
ghost use Rattle.c_types_operators.specs.Rules.{is_before, same_place, goes_before, with_breach};
ghost use Rattle.c_types_operators.specs.Judging.{Noted, noted, with_place};

use crate::rule::Breach;
use c_typed::Rule;
use ib_base::Place;
use std::alloc::{AllocError, Global};
use std::marker::Model;

/// What is kept while a source is judged: its string literals and the places of its statements so
/// far, and the breach so far that is answered.
#[derive(Drop)]
pub struct Notes<'a> {
    texts: Vec<&'a [u8]>,
    places: Vec<Place>,
    first: Option<Breach>,
}

impl<'a> Model for Notes<'a> {
    ghost use Rattle.std.specs.Prelude.{map};
    ghost use Rattle.c_types_operators.specs.Judging.{Noted};

    ghost Value = { Noted };

    ghost view = { λ notes. record { texts = map (λ text. text.now) notes.texts.items; places = notes.places.items; first = notes.first } };
}

fn is_before(p: Place, q: Place) -> bool
    ensures { result ≡ is_before p q }
{
    p.line < q.line || (p.line == q.line && p.col < q.col)
}

fn is_same(p: Place, q: Place) -> bool
    ensures { result ≡ same_place p q }
{
    p.line == q.line && p.col == q.col
}

fn goes_before(x: Breach, y: Breach) -> bool
    ensures { result ≡ goes_before x y }
{
    is_before(x.place, y.place) || (is_same(x.place, y.place) && x.rule.number() < y.rule.number())
}

fn with_breach(first: Option<Breach>, next: Breach) -> Option<Breach>
    ensures { result ≡ with_breach first next }
{
    match first {
        Some(breach) if !goes_before(next, breach) => first,
        _ => Some(next),
    }
}

impl<'a> Notes<'a> {
    pub fn new(alloc: Global) -> Notes<'a>
        ensures { result ≡ record { texts = []; places = []; first = None } }
    {
        Notes {
            texts: Vec::new(alloc),
            places: Vec::new(alloc),
            first: None,
        }
    }

    /// Notes a rule that is broken.
    #[tactic(auto, using(crate::proofs::NoteLemmas::noted_breach))]
    pub fn breaks(&mut self, rule: Rule, place: Place)
        ensures { self.new ≡ noted self.old [] (record { rule = rule; place = place } ∷ []) }
    {
        self.first = with_breach(self.first, Breach { rule, place });
    }

    /// Notes a string literal, and gives its number. More literals than a `u32` counts find no
    /// memory.
    #[tactic(auto, using(crate::proofs::NoteLemmas::noted_text))]
    pub fn text(&mut self, bytes: &'a [u8]) -> Result<u32, AllocError>
        ensures ordinal { IfOk result (λ ordinal. ordinal ≡ length self.old.texts) }
        ensures notes { OnOk result (self.new ≡ noted self.old (bytes.now ∷ []) []) }
    {
        let ordinal = u32::try_from(self.texts.len()).ok().ok_or(AllocError)?;
        self.texts.push(bytes)?;
        Ok(ordinal)
    }

    /// Notes where a statement begins, and gives the statement's number. More statements than a
    /// `u32` counts find no memory.
    pub fn place(&mut self, place: Place) -> Result<u32, AllocError>
        ensures number { IfOk result (λ number. number ≡ length self.old.places) }
        ensures notes { OnOk result (self.new ≡ with_place place self.old) }
    {
        let number = u32::try_from(self.places.len()).ok().ok_or(AllocError)?;
        self.places.push(place)?;
        Ok(number)
    }

    /// The breach so far that is answered.
    pub fn first(&self) -> Option<Breach>
        ensures { result ≡ self.now.first }
    {
        self.first
    }

    /// The string literals in the order of the source, and the statements' places by their numbers.
    pub fn into_parts(self) -> (Vec<&'a [u8]>, Vec<Place>)
        ensures texts { map (λ text. text.now) result.0.items ≡ self.entry.texts }
        ensures places { result.1.items ≡ self.entry.places }
    {
        (self.texts, self.places)
    }
}
