use crate::code::TacFunc;
use crate::copies::copy_funcs;
use crate::count::with_func_ops;
use crate::shape::{is_named_main, keeps_rules};
use ib_base::Place;
use sqlite_items::Items;
use std::alloc::{AllocError, Global};
use std::marker::Model;

/// A valid three-address program.
#[derive(Drop)]
pub struct TacProgram {
    image: Items<u8>,
    places: Items<Place>,
    funcs: Items<TacFunc>,
}

impl Model for TacProgram {
    ghost use Rattle.tac_core.specs.Program.{Program};
    ghost use Rattle.tac_core.specs.Rules.{IsValid};

    ghost Value = { Program };

    ghost view = { λ p. record { image = p.image; places = p.places; funcs = p.funcs } };

    ghost invariant = { λ p. IsValid (record { image = p.image; places = p.places; funcs = p.funcs }) };
}

impl TacProgram {
    ghost use Rattle.std.specs.Prelude.{◌≡◌, ◌<◌, IfOk, IfSome, MatchOption, length};
    ghost use Rattle.ib_meaning.specs.Agreement.{IsSteady};
    ghost use Rattle.tac_core.specs.Meaning.{tac_meaning};
    ghost use Rattle.tac_core.specs.Program.{Program, main_of, capped, program_ops, with_funcs};
    ghost use Rattle.tac_core.specs.Rules.{IsValid};

    /// The program of these parts, or `None` where they break a rule. Running it for more steps only shows more.
    #[tactic(auto, using(crate::proofs::Steady::tac_steady))]
    pub fn assemble(
        image: Vec<u8>,
        places: Vec<Place>,
        mut funcs: Vec<TacFunc>,
    ) -> Option<TacProgram>
        ensures exact { let parts : Program = record { image = image.items; places = places.items; funcs = funcs.items } in MatchOption result (IsValid parts → ⊥) (λ p. (p ≡ parts) × IsValid parts) }
        ensures steady { IfSome result (λ p. IsSteady (tac_meaning p)) }
    {
        if keeps_rules(image.len(), places.len(), funcs.as_mut_slice()) {
            Some(TacProgram {
                image: Items::from_vec(image),
                places: Items::from_vec(places),
                funcs: Items::from_vec(funcs),
            })
        } else {
            None
        }
    }

    /// The functions by number.
    pub fn funcs(&self) -> &[TacFunc]
        ensures value { result.now ≡ self.now.funcs }
        ensures valid { IsValid self.now }
    {
        self.funcs.as_slice()
    }

    /// The number of `main`.
    pub fn main(&self) -> usize
        ensures is { result ≡ main_of self.now }
        ensures there { result < length self.now.funcs }
    {
        for (i, func) in self.funcs().iter().enumerate() {
            if is_named_main(func) {
                return i;
            }
        }
        unreachable!()
    }

    /// The statements' places.
    pub fn places(&self) -> &[Place]
        ensures { result.now ≡ self.now.places }
    {
        self.places.as_slice()
    }

    /// The memory's bytes from 4096 on, as they are at first.
    pub fn image(&self) -> &[u8]
        ensures { result.now ≡ self.now.image }
    {
        self.image.as_slice()
    }

    /// The number of operations and ends of blocks, or the greatest number where there are more.
    pub fn ops(&self) -> u64
        ensures { result ≡ capped (program_ops self.now) }
    {
        let mut total = 0;
        for func in self.funcs.as_slice() {
            total = with_func_ops(total, func);
        }
        total
    }

    /// This program with other functions, which keep it valid.
    pub(crate) fn with_funcs(
        &self,
        alloc: Global,
        funcs: Items<TacFunc>,
    ) -> Result<TacProgram, AllocError>
        requires { IsValid self.now → IsValid (with_funcs self.now funcs) }
        ensures { IfOk result (λ p. p ≡ with_funcs self.now funcs) }
    {
        let Ok(image) = Items::from_slice(alloc, self.image.as_slice()) else {
            drop(funcs);
            return Err(AllocError);
        };
        let Ok(places) = Items::from_slice(alloc, self.places.as_slice()) else {
            drop(funcs);
            return Err(AllocError);
        };
        Ok(TacProgram {
            image,
            places,
            funcs,
        })
    }

    pub fn copy(&self, alloc: Global) -> Result<TacProgram, AllocError>
        ensures { IfOk result (λ p. p ≡ self.now) }
    {
        let image = Items::from_slice(alloc, self.image.as_slice())?;
        let places = Items::from_slice(alloc, self.places.as_slice())?;
        let funcs = copy_funcs(alloc, self.funcs.as_slice())?;
        Ok(TacProgram {
            image,
            places,
            funcs,
        })
    }
}
