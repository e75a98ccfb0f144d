//! Types, declarators, initialisers and parameters.

ghost use Rattle.std.specs.Prelude.{◌≡◌, ◌++◌, ◌∷◌, [], IfOk, map};
ghost use Rattle.c_ast.specs.Trees.{declarator, param, no_init};
ghost use Rattle.c_ast.specs.TreeViews.{type_of, expr_of, init_of, decl_of, param_of, param_name_of, item_of};
ghost use Rattle.c_parse_machine.specs.Machine as M;
ghost use Rattle.c_parse_states.specs.Views.{head_of, target_of, declaring_of, made_of, use_of, sizing_of, frames_of, state_of, IsNext};

use crate::operands::{begin, begins_assign};
use crate::statements::with_local;
use c_ast::{
    Base, CType, Declarator, Expr, ForStart, FunctionHead, Init, Item, Keyword, Length, Mark,
    Param, ParamName, Stmt, Tok, Token,
};
use c_parse_states::frames::{
    Declaring, Frame, Frames, Goal, Head, Inside, Made, Role, Sizing, State, Target, Use,
};
use c_parse_states::nodes;
use c_parse_states::signs::{is, says};
use c_parse_states::stacks::{outermost, under};
use ib_base::{Place, Text};
use std::alloc::{AllocError, Global};

/// `char`, `int` or `long`.
pub fn begin_type(why: Use, token: &Token) -> Option<State>
    ensures { IsNext result (M.begin_type (use_of why) token.now) }
{
    if says(Keyword::Char, token) {
        return Some(State::Typed(why, Base::Char, CType::Base(Base::Char)));
    }
    if says(Keyword::Int, token) {
        return Some(State::Typed(why, Base::Int, CType::Base(Base::Int)));
    }
    if says(Keyword::Long, token) {
        return Some(State::AfterLong(why));
    }
    drop(why);
    None
}

/// The declarators with one more.
fn with_decl(declaring: Declaring, last: Declarator) -> Result<Declaring, AllocError>
    ensures { IfOk result (λ made. declaring_of made ≡ M.with_decl (declaring_of declaring) (decl_of last)) }
{
    let Declaring {
        target,
        base,
        front,
    } = declaring;
    let mut front = front;
    front.push(last)?;
    Ok(Declaring {
        target,
        base,
        front,
    })
}

/// The declarators with one more, which has its initialiser.
pub fn with_init(made: Made, init: Init) -> Result<Declaring, AllocError>
    ensures { IfOk result (λ all. declaring_of all ≡ M.with_init (made_of made) (init_of init)) }
{
    let Made {
        declaring,
        place,
        kind,
        name,
        length,
    } = made;
    with_decl(
        declaring,
        Declarator {
            place,
            kind,
            name,
            length,
            init,
        },
    )
}

fn no_function(alloc: Global, target: Box<Target>) -> Result<Box<Target>, AllocError>
    ensures { IfOk result (λ made. target_of made.value ≡ M.no_function (target_of target.value)) }
{
    let target = match Box::into_inner(target) {
        Target::Top(items) => Target::Global(items),
        Target::Global(items) => Target::Global(items),
        Target::Block(place, inside) => Target::Block(place, inside),
        Target::For(place, outer) => Target::For(place, outer),
    };
    Ok(Box::new(alloc, target)?)
}

fn with_variables(front: Vec<Item>, declarators: Vec<Declarator>) -> Result<State, AllocError>
    ensures { IfOk result (λ next. state_of next ≡ M.end_declaration (M.global (map item_of front.items)) (map decl_of declarators.items)) }
{
    let mut front = front;
    front.push(Item::Variables(declarators))?;
    Ok(State::Items(front))
}

fn end_declaration(target: Target, declarators: Vec<Declarator>) -> Result<State, AllocError>
    ensures { IfOk result (λ next. state_of next ≡ M.end_declaration (target_of target) (map decl_of declarators.items)) }
{
    match target {
        Target::Top(items) => with_variables(items, declarators),
        Target::Global(items) => with_variables(items, declarators),
        Target::Block(place, inside) => Ok(State::Inside(with_local(inside, place, declarators)?)),
        Target::For(place, outer) => Ok(State::Awaits(Role::Second(
            place,
            ForStart::Local(declarators),
            outer,
        ))),
    }
}

/// Behind a declarator.
pub fn step_declared(
    alloc: Global,
    declaring: Declaring,
    token: &Token,
) -> Result<Option<State>, AllocError>
    ensures { IfOk result (λ next. IsNext next (M.step_declared (declaring_of declaring) token.now)) }
{
    let Declaring {
        target,
        base,
        front,
    } = declaring;
    if is(Mark::Comma, token) {
        let why = Use::Declarator(no_function(alloc, target)?, front);
        return Ok(Some(State::Typed(why, base, CType::Base(base))));
    }
    if is(Mark::Semicolon, token) {
        return Ok(Some(end_declaration(Box::into_inner(target), front)?));
    }
    Ok(None)
}

fn with_param(head: Head, last: Param) -> Result<Head, AllocError>
    ensures { IfOk result (λ made. head_of made ≡ M.with_param (head_of head) (param_of last)) }
{
    let Head { front, head } = head;
    let FunctionHead {
        place,
        result,
        name,
        params,
    } = head;
    let mut params = params;
    params.push(last)?;
    let head = FunctionHead {
        place,
        result,
        name,
        params,
    };
    Ok(Head { front, head })
}

/// Behind a parameter.
fn step_param(head: Head, token: &Token) -> Option<State>
    ensures { IsNext result (M.step_param (head_of head) token.now) }
{
    if is(Mark::Comma, token) {
        return Some(State::ParamNext(head));
    }
    if is(Mark::RightParen, token) {
        return Some(State::ParamsDone(head));
    }
    drop(head);
    None
}

fn sized_declarator(
    alloc: Global,
    declaring: Declaring,
    place: Place,
    kind: CType,
    name: Text,
    length: Length,
    token: &Token,
) -> Result<Option<State>, AllocError>
    ensures { IfOk result (λ next. IsNext next (M.step_sized (M.of_declarator (declaring_of declaring) place (type_of kind) name) length token.now)) }
{
    let made = Made {
        declaring,
        place,
        kind,
        name,
        length,
    };
    if is(Mark::Assign, token) {
        return Ok(Some(State::InitOpen(Box::new(alloc, made)?)));
    }
    let declaring = with_init(made, Init::Nothing)?;
    step_declared(alloc, declaring, token)
}

/// Behind the brackets of a declarator or a parameter, or where there are none.
pub fn step_sized(
    alloc: Global,
    sizing: Sizing,
    length: Length,
    token: &Token,
) -> Result<Option<State>, AllocError>
    ensures { IfOk result (λ next. IsNext next (M.step_sized (sizing_of sizing) length token.now)) }
{
    match sizing {
        Sizing::OfDeclarator(declaring, place, kind, name) => {
            sized_declarator(alloc, declaring, place, kind, name, length, token)
        }
        Sizing::OfParameter(head, place, kind, name) => {
            let head = with_param(
                head,
                Param {
                    place,
                    kind,
                    name,
                    length,
                },
            )?;
            Ok(step_param(head, token))
        }
    }
}

/// Where brackets may stand.
pub fn step_sizes(alloc: Global, sizing: Sizing, token: &Token) -> Result<Option<State>, AllocError>
    ensures { IfOk result (λ next. IsNext next (M.step_sizes (sizing_of sizing) token.now)) }
{
    if is(Mark::LeftBracket, token) {
        return Ok(Some(State::SizeOpen(sizing)));
    }
    step_sized(alloc, sizing, Length::Scalar, token)
}

/// Behind a `[` of a declarator or a parameter.
pub fn step_size_open(sizing: Sizing, token: &Token) -> Option<State>
    ensures { IsNext result (M.step (M.size_open (sizing_of sizing)) token.now) }
{
    if is(Mark::RightBracket, token) {
        return Some(State::Sized(sizing, Length::Missing));
    }
    match &token.kind {
        Tok::Number { value, long } => Some(State::SizeGiven(
            sizing,
            Length::Given {
                value: *value,
                long: *long,
            },
        )),
        _ => {
            drop(sizing);
            None
        }
    }
}

/// Behind the number in such brackets.
pub fn step_size_given(sizing: Sizing, length: Length, token: &Token) -> Option<State>
    ensures { IsNext result (M.step (M.size_given (sizing_of sizing) length) token.now) }
{
    if is(Mark::RightBracket, token) {
        return Some(State::Sized(sizing, length));
    }
    drop(sizing);
    None
}

fn type_of_param(
    alloc: Global,
    place: Place,
    head: Head,
    base: Base,
    kind: CType,
    token: &Token,
) -> Result<Option<State>, AllocError>
    ensures { IfOk result (λ next. IsNext next (M.step_type (M.a_parameter place (head_of head)) base (type_of kind) token.now)) }
{
    match &token.kind {
        Tok::Name(name) => {
            let name = ParamName::Named(name.copy(alloc)?);
            Ok(Some(State::Sizes(Sizing::OfParameter(head, token.place, kind, name))))
        }
        _ => step_sizes(
            alloc,
            Sizing::OfParameter(head, place, kind, ParamName::Unnamed),
            token,
        ),
    }
}

fn type_of_declarator(
    alloc: Global,
    target: Box<Target>,
    front: Vec<Declarator>,
    base: Base,
    kind: CType,
    token: &Token,
) -> Result<Option<State>, AllocError>
    ensures { IfOk result (λ next. IsNext next (M.step_type (M.a_declarator (target_of target.value) (map decl_of front.items)) base (type_of kind) token.now)) }
{
    match &token.kind {
        Tok::Name(name) => {
            let name = name.copy(alloc)?;
            let declaring = Declaring {
                target,
                base,
                front,
            };
            Ok(Some(State::NamedAt(declaring, token.place, kind, name)))
        }
        _ => Ok(None),
    }
}

fn type_of_cast(
    place: Place,
    frames: Frames,
    base: Base,
    kind: CType,
    token: &Token,
) -> Result<Option<State>, AllocError>
    ensures { IfOk result (λ next. IsNext next (M.step_type (M.a_cast place (frames_of frames)) base (type_of kind) token.now)) }
{
    if is(Mark::RightParen, token) {
        let cast = under(frames, Frame::CastTo(place, kind))?;
        return Ok(Some(State::Operand(true, cast)));
    }
    Ok(None)
}

/// Behind a type and its stars.
pub fn step_typed(
    alloc: Global,
    why: Use,
    base: Base,
    kind: CType,
    token: &Token,
) -> Result<Option<State>, AllocError>
    ensures { IfOk result (λ next. IsNext next (M.step_typed (use_of why) base (type_of kind) token.now)) }
{
    if is(Mark::Star, token) {
        return Ok(Some(State::Typed(why, base, nodes::pointer(alloc, kind)?)));
    }
    match why {
        Use::Declarator(target, front) => type_of_declarator(
            alloc, target, front, base, kind, token,
        ),
        Use::Parameter(place, head) => type_of_param(alloc, place, head, base, kind, token),
        Use::Cast(place, frames) => type_of_cast(place, frames, base, kind, token),
    }
}

/// Behind `long`.
pub fn step_long(alloc: Global, why: Use, token: &Token) -> Result<Option<State>, AllocError>
    ensures { IfOk result (λ next. IsNext next (M.step (M.after_long (use_of why)) token.now)) }
{
    if says(Keyword::Int, token) {
        return Ok(Some(State::Typed(why, Base::Long, CType::Base(Base::Long))));
    }
    step_typed(alloc, why, Base::Long, CType::Base(Base::Long), token)
}

fn begin_params(
    alloc: Global,
    declaring: Declaring,
    place: Place,
    result_type: CType,
    name: Text,
) -> Option<State>
    ensures { IsNext result (M.begin_params (declaring_of declaring) place (type_of result_type) name) }
{
    match Box::into_inner(declaring.target) {
        Target::Top(front) => {
            let params: Vec<Param> = Vec::new(alloc);
            let head = FunctionHead {
                place,
                result: result_type,
                name,
                params,
            };
            Some(State::ParamsOpen(Head { front, head }))
        }
        other => {
            drop(other);
            None
        }
    }
}

/// Behind the name of a declarator.
pub fn step_named(
    alloc: Global,
    declaring: Declaring,
    place: Place,
    kind: CType,
    name: Text,
    token: &Token,
) -> Result<Option<State>, AllocError>
    ensures { IfOk result (λ next. IsNext next (M.step (M.named_at (declaring_of declaring) place (type_of kind) name) token.now)) }
{
    if is(Mark::LeftParen, token) {
        return Ok(begin_params(alloc, declaring, place, kind, name));
    }
    step_sizes(
        alloc,
        Sizing::OfDeclarator(declaring, place, kind, name),
        token,
    )
}

/// Behind the `=` of a declarator.
pub fn step_init(alloc: Global, made: Box<Made>, token: &Token) -> Result<Option<State>, AllocError>
    ensures { IfOk result (λ next. IsNext next (M.step (M.init_open (made_of made.value)) token.now)) }
{
    if is(Mark::LeftBrace, token) {
        let front: Vec<Expr> = Vec::new(alloc);
        let element = begins_assign(outermost(alloc, Goal::Element(made, front))?)?;
        return Ok(Some(State::Operand(true, element)));
    }
    let value = begins_assign(outermost(alloc, Goal::InitValue(made))?)?;
    begin(alloc, true, value, token)
}

/// Behind a comma of an initialiser's list.
pub fn step_element(
    alloc: Global,
    made: Box<Made>,
    front: Vec<Expr>,
    token: &Token,
) -> Result<Option<State>, AllocError>
    ensures { IfOk result (λ next. IsNext next (M.step (M.element_next (made_of made.value) (map expr_of front.items)) token.now)) }
{
    if is(Mark::RightBrace, token) {
        return Ok(Some(State::Declared(with_init(Box::into_inner(made), Init::List(front))?)));
    }
    let element = begins_assign(outermost(alloc, Goal::Element(made, front))?)?;
    begin(alloc, true, element, token)
}

/// Behind the `(` of a function's parameters.
pub fn step_params_open(head: Head, token: &Token) -> Option<State>
    ensures { IsNext result (M.step (M.params_open (head_of head)) token.now) }
{
    if is(Mark::RightParen, token) {
        return Some(State::ParamsDone(head));
    }
    if says(Keyword::Void, token) {
        return Some(State::ParamsVoid(head));
    }
    begin_type(Use::Parameter(token.place, head), token)
}

/// Behind the `void` of a function without parameters.
pub fn step_params_void(head: Head, token: &Token) -> Option<State>
    ensures { IsNext result (M.step (M.params_void (head_of head)) token.now) }
{
    if is(Mark::RightParen, token) {
        return Some(State::ParamsDone(head));
    }
    drop(head);
    None
}

/// Behind the `)` of a function's parameters.
pub fn step_params_done(
    alloc: Global,
    head: Head,
    token: &Token,
) -> Result<Option<State>, AllocError>
    ensures { IfOk result (λ next. IsNext next (M.step (M.params_done (head_of head)) token.now)) }
{
    if is(Mark::Semicolon, token) {
        let Head { front, head } = head;
        let mut front = front;
        front.push(Item::Prototype(head))?;
        return Ok(Some(State::Items(front)));
    }
    if is(Mark::LeftBrace, token) {
        let stmts: Vec<Stmt> = Vec::new(alloc);
        return Ok(Some(State::Inside(Inside::Body(Box::new(alloc, head)?, stmts))));
    }
    drop(head);
    Ok(None)
}

/// Where an item begins.
pub fn begin_item(
    alloc: Global,
    front: Vec<Item>,
    token: &Token,
) -> Result<Option<State>, AllocError>
    ensures { IfOk result (λ next. IsNext next (M.begin_item (map item_of front.items) token.now)) }
{
    let why = declares(alloc, Target::Top(front))?;
    if says(Keyword::Void, token) {
        return Ok(Some(State::Typed(why, Base::Void, CType::Base(Base::Void))));
    }
    Ok(begin_type(why, token))
}

/// The type of a declaration that begins here.
pub fn declares(alloc: Global, target: Target) -> Result<Use, AllocError>
    ensures { IfOk result (λ why. use_of why ≡ M.a_declarator (target_of target) []) }
{
    let target = Box::new(alloc, target)?;
    let declarators: Vec<Declarator> = Vec::new(alloc);
    Ok(Use::Declarator(target, declarators))
}
