use crate::error::CheckErr;
use crate::frames::{first_frame, frame_sizes, large_frame};
use c_layout::{GlobalData, global_addresses, image, image_size, string_addresses};
use c_typed::{Function, Layout, Typed};
use ib_base::Place;
use std::alloc::{AllocError, Global};
use std::marker::Model;

/// How many bytes globals and string literals may take.
const GLOBALS_LIMIT: u64 = 524_288;

/// The program of a source that breaks no rule: the typed tree, where its parts lie in memory, the
/// bytes that memory holds at first, and the places of the statements.
#[derive(Drop)]
pub struct Program {
    typed: Typed,
    layout: Layout,
    image: Vec<u8>,
    places: Vec<Place>,
    nodes: u64,
}

impl Model for Program {
    ghost use Rattle.std.specs.Coded.{codes};
    ghost use Rattle.c_typed.specs.contracts.stmt.Stmt as stmt;
    ghost use Rattle.c_typed.specs.contracts.expr.Expr as expr;
    ghost use Rattle.c_program.specs.Checked.{Checked, IsSound};

    ghost Value = { Checked };

    ghost coded = { Prim.hlevel (codes, stmt.the_row.coded, expr.the_row.coded) };

    ghost view = { λ p. record { typed = p.typed; layout = p.layout; image = p.image.items; places = p.places.items; nodes = p.nodes } };

    ghost invariant = { λ p. IsSound (record { typed = p.typed; layout = p.layout; image = p.image.items; places = p.places.items; nodes = p.nodes }) };
}

impl Program {
    ghost use Rattle.std.specs.Prelude.{◌≡◌, ◌≤◌, None, All, IfOk, IfErr, find, length, map};
    ghost use Rattle.c_layout.specs.Layout.{image_size};
    ghost use Rattle.c_typed.specs.Views.{function_of};
    ghost use Rattle.c_program.specs.Checked.{IsLayout, program};
    ghost use Rattle.c_program.specs.Keeping.{Keeps, KeepsWithin};
    ghost use Rattle.c_program.specs.Limits.{Refuses, is_large, limited, program_of, within};

    /// The program of what a source means, with the number of the nodes of its tree.
    pub fn lay_out(
        alloc: Global,
        functions: Vec<Function>,
        globals: &[GlobalData],
        texts: &[&[u8]],
        places: Vec<Place>,
        nodes: u64,
    ) -> Result<Program, CheckErr>
        requires keeps { KeepsWithin nodes (limited (map function_of functions.items) globals.now (map (λ text. text.now) texts.now) places.items) }
        ensures program { IfOk result (λ p. program p ≡ program_of (map function_of functions.items) globals.now (map (λ text. text.now) texts.now) places.items) }
        ensures limits { IfOk result (λ p. limited (map function_of functions.items) globals.now (map (λ text. text.now) texts.now) places.items ≡ within (program p)) }
        ensures nodes { IfOk result (λ p. p.nodes ≡ nodes) }
        ensures refused { IfErr result (Refuses (limited (map function_of functions.items) globals.now (map (λ text. text.now) texts.now) places.items)) }
    {
        let bytes = image_size(globals, texts)?;
        if GLOBALS_LIMIT < bytes {
            return Err(CheckErr::Globals(bytes));
        }
        if let Some(bytes) = large_frame(&functions) {
            return Err(CheckErr::Frame(bytes));
        }
        let program = Program::within(alloc, functions, globals, texts, places, nodes)?;
        Ok(program)
    }

    /// The program of parts that are within the limits.
    #[tactic(auto, using(crate::proofs::Sizes::image_within, crate::proofs::Sizes::frames_within))]
    fn within(
        alloc: Global,
        functions: Vec<Function>,
        globals: &[GlobalData],
        texts: &[&[u8]],
        places: Vec<Place>,
        nodes: u64,
    ) -> Result<Program, AllocError>
        requires globals { image_size globals.now (map (λ text. text.now) texts.now) ≤ 524288 }
        requires frames { find is_large (map function_of functions.items) ≡ None }
        requires keeps { Keeps nodes (program_of (map function_of functions.items) globals.now (map (λ text. text.now) texts.now) places.items) }
        ensures program { IfOk result (λ p. program p ≡ program_of (map function_of functions.items) globals.now (map (λ text. text.now) texts.now) places.items) }
        ensures nodes { IfOk result (λ p. p.nodes ≡ nodes) }
    {
        let strings = string_addresses(alloc, globals, texts)?;
        let image = image(alloc, globals, &strings, texts)?;
        let layout = Layout {
            globals: global_addresses(alloc, globals)?,
            strings,
            frames: frame_sizes(alloc, &functions)?,
            first_frame: first_frame(&image)?,
        };
        let program = Program {
            typed: Typed { functions },
            layout,
            image,
            places,
            nodes,
        };
        Ok(program)
    }

    /// The typed tree.
    pub fn typed(&self) -> &Typed
        ensures value { result.now ≡ self.now.typed }
        ensures frames { All (λ f. f.frame ≤ 262144) result.now.functions.items }
        ensures keeps { Keeps self.now.nodes (program self.now) }
    {
        &self.typed
    }

    /// Where its parts lie in memory.
    pub fn layout(&self) -> &Layout
        ensures value { result.now ≡ self.now.layout }
        ensures lies { IsLayout result.now (program self.now) }
    {
        &self.layout
    }

    /// The bytes of memory from 4096 on.
    pub fn image(&self) -> &[u8]
        ensures value { result.now ≡ self.now.image }
        ensures within { length result.now ≤ 524288 }
    {
        &self.image
    }

    /// The places of the statements, by their numbers.
    pub fn statements(&self) -> &[Place]
        ensures { result.now ≡ self.now.places }
    {
        &self.places
    }

    /// How many nodes the source's tree has.
    pub fn nodes(&self) -> u64
        ensures { result ≡ self.now.nodes }
    {
        self.nodes
    }
}
