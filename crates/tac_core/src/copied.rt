use crate::chained_origins::all_origins;
use crate::code::TacFunc;
use crate::labels::{labels_of, origin_in};
use crate::origin::Origin;
use crate::program::TacProgram;
use sqlite_items::Items;
use std::alloc::{AllocError, Global};
use std::marker::Model;

/// A copy of a program in which blocks may stand several times. The program that it came from is a value for contracts alone.
#[derive(Drop)]
pub struct Copied {
    tac: TacProgram,
    from: Origin,
    origins: Items<Items<u32>>,
}

impl Model for Copied {
    ghost use Rattle.tac_core.specs.Cover.{CopiedProgram, Covers};

    ghost Value = { CopiedProgram };

    ghost view = { λ c. record { tac = c.tac; from = c.from; origins = c.origins } };

    ghost invariant = { λ c. Covers c.origins c.tac c.from };
}

impl Copied {
    ghost use Rattle.std.specs.Prelude.{◌≡◌, ◌↔◌, None, IfOk, length, slice_get};
    ghost use Rattle.ib_meaning.specs.Agreement.{Agrees, Within};
    ghost use Rattle.tac_core.specs.Program.{Program, with_funcs};
    ghost use Rattle.tac_core.specs.Meaning.{tac_meaning, block_of};
    ghost use Rattle.tac_core.specs.Cover.{Covers, CopiedProgram, Origins, origin_of, own_labels, all_through};

    /// The copy `tac` of `from`, with the origins by function and label.
    pub fn keep(tac: TacProgram, origins: Items<Items<u32>>, from: &TacProgram) -> Copied
        requires { Covers origins tac from.now }
        ensures { result ≡ record { tac = tac; from = from.now; origins = origins } }
    {
        Copied {
            tac,
            from: Origin::of(from),
            origins,
        }
    }

    /// The copy of a program in which each block stands once, under its own label.
    pub fn same(alloc: Global, tac: &TacProgram) -> Result<Copied, AllocError>
        ensures value { IfOk result (λ copied. copied ≡ record { tac = tac.now; from = tac.now; origins = own_labels tac.now.funcs }) }
        ensures agrees { IfOk result (λ copied. Agrees (tac_meaning tac.now) (tac_meaning copied.tac)) }
        ensures within { IfOk result (λ copied. Within (λ n. n) (tac_meaning tac.now) (tac_meaning copied.tac)) }
    {
        let origins = labels_of(alloc, tac.funcs())?;
        let copy = tac.copy(alloc)?;
        Ok(Copied::keep(copy, origins, tac))
    }

    /// A copy of `from` that has these functions, with the origins by function and label. Nothing is tested.
    pub fn of(
        alloc: Global,
        funcs: Items<TacFunc>,
        origins: Items<Items<u32>>,
        from: &TacProgram,
    ) -> Result<Copied, AllocError>
        requires { Covers origins (with_funcs from.now funcs) from.now }
        ensures value { IfOk result (λ copied. copied ≡ record { tac = with_funcs from.now funcs; from = from.now; origins = origins }) }
        ensures agrees { IfOk result (λ copied. Agrees (tac_meaning from.now) (tac_meaning copied.tac)) }
        ensures within { IfOk result (λ copied. Within (λ n. n) (tac_meaning from.now) (tac_meaning copied.tac)) }
    {
        let Ok(tac) = from.with_funcs(alloc, funcs) else {
            drop(origins);
            return Err(AllocError);
        };
        Ok(Copied::keep(tac, origins, from))
    }

    /// The copied program, which means what its origin means, and takes as many steps.
    pub fn tac(&self) -> &TacProgram
        ensures value { result.now ≡ self.now.tac }
        ensures covers { Covers self.now.origins self.now.tac self.now.from }
        ensures agrees { Agrees (tac_meaning self.now.from) (tac_meaning self.now.tac) }
        ensures within { Within (λ n. n) (tac_meaning self.now.from) (tac_meaning self.now.tac) }
    {
        &self.tac
    }

    /// The label that a block was copied from, or `None` where there is no such block.
    pub fn origin(&self, func: u32, label: u32) -> Option<u32>
        ensures value { result ≡ origin_of (slice_get self.now.origins func) label }
        ensures missing { (result ≡ None) ↔ (block_of (slice_get self.now.tac.funcs func) label ≡ None) }
    {
        origin_in(self.origins.as_slice(), func, label)
    }

    /// The origins by function and label.
    pub fn origins(&self) -> &[Items<u32>]
        ensures { result.now ≡ self.now.origins }
    {
        self.origins.as_slice()
    }

    /// The copy of this copy that has these functions, as a copy of the program that this one came from. The origins are
    /// labels of this copy. Nothing is tested.
    pub fn over(
        &self,
        alloc: Global,
        funcs: Items<TacFunc>,
        origins: &[Items<u32>],
    ) -> Result<Copied, AllocError>
        requires { Covers origins.now (with_funcs self.now.tac funcs) self.now.tac }
        ensures value { IfOk result (λ copied. copied ≡ record { tac = with_funcs self.now.tac funcs; from = self.now.from; origins = all_through origins.now self.now.origins }) }
        ensures agrees { IfOk result (λ copied. Agrees (tac_meaning self.now.from) (tac_meaning copied.tac)) }
        ensures within { IfOk result (λ copied. Within (λ n. n) (tac_meaning self.now.from) (tac_meaning copied.tac)) }
    {
        let tac = self.tac.with_funcs(alloc, funcs)?;
        self.again(alloc, tac, origins)
    }

    /// A copy of this copy, as a copy of the program that this one came from.
    pub fn again(
        &self,
        alloc: Global,
        tac: TacProgram,
        origins: &[Items<u32>],
    ) -> Result<Copied, AllocError>
        requires { Covers origins.now tac self.now.tac }
        ensures value { IfOk result (λ copied. copied ≡ record { tac = tac; from = self.now.from; origins = all_through origins.now self.now.origins }) }
        ensures agrees { IfOk result (λ copied. Agrees (tac_meaning self.now.from) (tac_meaning copied.tac)) }
        ensures within { IfOk result (λ copied. Within (λ n. n) (tac_meaning self.now.from) (tac_meaning copied.tac)) }
    {
        let Ok(origins) = all_origins(alloc, origins, self.origins.as_slice()) else {
            drop(tac);
            return Err(AllocError);
        };
        Ok(Copied {
            tac,
            from: self.from.again(),
            origins,
        })
    }
}
