ghost use Rattle.std.specs.Prelude.{◌≡◌, [], ◌∷◌, map, IfOk, OnOk};
ghost use Rattle.c_layout.specs.Sizes.{aligned};
ghost use Rattle.c_ast.specs.Trees.{stms};
ghost use Rattle.c_ast.specs.TreeViews.{param_of, stmt_of};
ghost use Rattle.c_types_homes.specs.Addressed.{param_shape, with_param, with_params, function_variables, function_taken};
ghost use Rattle.c_types_homes.specs.Declarators.{param_name};
ghost use Rattle.c_types_homes.specs.Homes.{is_array, home_of, behind, homes_from, given_behind, none_given, function_homes, function_given, frame_size};
ghost use Rattle.c_scopes.specs.Scopes.{outermost};
ghost use Rattle.c_types_homes.specs.Walking.{Seen, Walks};

use crate::addressed::Walk;
use crate::declared::param_type;
use crate::marks::marks;
use c_ast::{Param, ParamName, Stmt};
use c_layout::{Shape, aligned};
use c_typed::Home;
use sqlite_items::Items;
use std::alloc::{AllocError, Global};

/// What was given out to variables: slots of the environment, and bytes of the frame.
#[derive(Clone, Copy)]
pub struct Given {
    pub slots: u32,
    pub bytes: u64,
}

/// The homes of a function's variables, by their numbers in the order of declaration; how many
/// slots they take; and the bytes of the function's frame, a multiple of 16.
#[derive(Drop)]
pub struct FunctionHomes {
    pub homes: Items<Home>,
    pub slots: u32,
    pub frame: u64,
}

fn is_array(shape: Shape) -> bool
    ensures { result ≡ is_array shape }
{
    matches!(shape, Shape::Array { .. })
}

impl Given {
    /// The home of the next variable.
    fn home(self, in_frame: bool, shape: Shape) -> Result<Home, AllocError>
        ensures { IfOk result (λ home. home ≡ home_of in_frame shape self) }
    {
        if in_frame {
            Ok(Home::Frame(aligned(shape.element_size(), self.bytes)?))
        } else {
            Ok(Home::Slot(self.slots))
        }
    }

    fn behind(self, in_frame: bool, shape: Shape) -> Result<Given, AllocError>
        ensures { IfOk result (λ given. given ≡ behind in_frame shape self) }
    {
        if in_frame {
            let start = aligned(shape.element_size(), self.bytes)?;
            let bytes = start.checked_add(shape.size()?).ok_or(AllocError)?;
            Ok(Given {
                slots: self.slots,
                bytes,
            })
        } else {
            let slots = self.slots.checked_add(1).ok_or(AllocError)?;
            Ok(Given {
                slots,
                bytes: self.bytes,
            })
        }
    }
}

/// The homes of variables, some of which have their address taken.
fn homes_of(alloc: Global, addressed: &[u32], shapes: &[Shape]) -> Result<FunctionHomes, AllocError>
    ensures homes { IfOk result (λ made. made.homes ≡ homes_from addressed.now 0 none_given shapes.now) }
    ensures slots { IfOk result (λ made. made.slots ≡ (given_behind addressed.now 0 none_given shapes.now).slots) }
    ensures frame { IfOk result (λ made. made.frame ≡ aligned 16 (given_behind addressed.now 0 none_given shapes.now).bytes) }
{
    let marks = marks(alloc, shapes.len(), addressed)?;
    let mut homes = Items::new(alloc);
    let mut given = Given { slots: 0, bytes: 0 };
    for (k, shape) in shapes.iter().enumerate() {
        let in_frame = is_array(*shape) || marks[k];
        homes.push(given.home(in_frame, *shape)?)?;
        given = given.behind(in_frame, *shape)?;
    }
    Ok(FunctionHomes {
        homes,
        slots: given.slots,
        frame: aligned(16, given.bytes)?,
    })
}

impl<'a> Walk<'a> {
    fn param(&mut self, param: &'a Param) -> Result<(), AllocError>
        ensures { let x = param_of param.now in
            OnOk result (Walks self.old self.new (with_param (param_name x) self.old.next self.old.names) (param_shape x ∷ []) []) }
    {
        let shape = Shape::Scalar(param_type(param)?);
        match &param.name {
            ParamName::Unnamed => self.add(shape),
            ParamName::Named(name) => self.declare(name, shape),
        }
    }

    fn params(&mut self, params: &'a [Param]) -> Result<(), AllocError>
        ensures { let xs = map param_of params.now in
            OnOk result (Walks self.old self.new (with_params xs self.old.next self.old.names) (map param_shape xs) []) }
    {
        for param in params {
            self.param(param)?;
        }
        Ok(())
    }

    fn function(&mut self, params: &'a [Param], body: &'a [Stmt]) -> Result<(), AllocError>
        requires { self.old ≡ record { names = outermost; next = 0; shapes = []; taken = [] } }
        ensures shapes { OnOk result (self.new.shapes ≡ function_variables (map param_of params.now) (stms (map stmt_of body.now))) }
        ensures taken { OnOk result (self.new.taken ≡ function_taken (map param_of params.now) (stms (map stmt_of body.now))) }
    {
        self.params(params)?;
        self.stmts(body)
    }
}

/// The homes of the variables of a function.
pub fn function_homes(
    alloc: Global,
    params: &[Param],
    body: &[Stmt],
) -> Result<FunctionHomes, AllocError>
    ensures homes { IfOk result (λ made. made.homes ≡ function_homes (map param_of params.now) (stms (map stmt_of body.now))) }
    ensures slots { IfOk result (λ made. made.slots ≡ (function_given (map param_of params.now) (stms (map stmt_of body.now))).slots) }
    ensures frame { IfOk result (λ made. made.frame ≡ frame_size (map param_of params.now) (stms (map stmt_of body.now))) }
{
    let mut walk = Walk::new(alloc);
    walk.function(params, body)?;
    let (shapes, addressed) = walk.finish();
    homes_of(alloc, addressed.as_slice(), shapes.as_slice())
}
