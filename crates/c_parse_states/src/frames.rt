use c_ast::{
    AssignOp, Base, BinaryOp, CType, Declarator, Expr, ForStart, FunctionHead, Item, Length,
    ParamName, Part, Stmt, UnaryOp,
};
use ib_base::{Place, Text};

/// A function of which the parameters are read, and the items before it.
#[derive(Drop)]
pub struct Head {
    pub front: Vec<Item>,
    pub head: FunctionHead,
}

/// A statement in which another stands.
#[derive(Drop)]
pub enum Arm {
    Braces(Place, Vec<Stmt>),
    Then(Place, Box<Expr>),
    Else(Place, Box<Expr>, Box<Stmt>),
    While(Place, Box<Expr>),
    Do(Place),
    For(Place, ForStart, Part, Part),
}

/// What a statement is for: the body of a function, and the statements that are open in it, the
/// innermost last.
#[derive(Drop)]
pub struct Outer {
    pub head: Box<Head>,
    pub front: Vec<Stmt>,
    pub arms: Vec<Arm>,
}

/// A block that is open.
#[derive(Drop)]
pub enum Inside {
    Braces(Place, Vec<Stmt>, Outer),
    Body(Box<Head>, Vec<Stmt>),
}

/// Where a declaration stands. What begins at the top may be a function; behind its first comma it is none.
#[derive(Drop)]
pub enum Target {
    Top(Vec<Item>),
    Global(Vec<Item>),
    Block(Place, Inside),
    For(Place, Outer),
}

/// The declarators of a declaration that are read.
#[derive(Drop)]
pub struct Declaring {
    pub target: Box<Target>,
    pub base: Base,
    pub front: Vec<Declarator>,
}

/// A declarator without its initialiser.
#[derive(Drop)]
pub struct Made {
    pub declaring: Declaring,
    pub place: Place,
    pub kind: CType,
    pub name: Text,
    pub length: Length,
}

/// What an expression that may be missing is for.
#[derive(Drop)]
pub enum Role {
    Statement(Place, Outer),
    Value(Place, Outer),
    First(Place, Outer),
    Second(Place, ForStart, Outer),
    Third(Place, ForStart, Part, Outer),
}

/// What an expression in the parentheses of a statement is for.
#[derive(Drop)]
pub enum Test {
    If(Place, Outer),
    While(Place, Outer),
    Do(Place, Box<Stmt>, Outer),
}

/// An expression in which another stands.
#[derive(Drop)]
pub enum Frame {
    Prefix(Place, UnaryOp),
    CastTo(Place, CType),
    /// A conditional expression begins here, or, if the flag says so, an assignment.
    Cond(bool),
    /// The operator and its left operand.
    Right(Place, BinaryOp, Box<Expr>),
    Assigned(Place, AssignOp, Box<Expr>),
    Middle(Place, Box<Expr>),
    Other(Place, Box<Expr>, Box<Expr>),
    First,
    List(Place, Vec<Expr>),
    Parens,
    Subscript(Place, Box<Expr>),
    Arg(Place, Text, Vec<Expr>),
}

/// What an outermost expression is for.
#[derive(Drop)]
pub enum Goal {
    Part(Role),
    Tested(Test),
    InitValue(Box<Made>),
    Element(Box<Made>, Vec<Expr>),
}

/// What an expression is for: the outermost is for the goal, and the frames lie in each other, the
/// innermost last.
#[derive(Drop)]
pub struct Frames {
    pub goal: Box<Goal>,
    pub frames: Vec<Frame>,
}

/// What a type is for.
#[derive(Drop)]
pub enum Use {
    Declarator(Box<Target>, Vec<Declarator>),
    Parameter(Place, Head),
    Cast(Place, Frames),
}

/// What brackets are for.
#[derive(Drop)]
pub enum Sizing {
    OfDeclarator(Declaring, Place, CType, Text),
    OfParameter(Head, Place, CType, ParamName),
}

/// Where the parser stands between two tokens.
#[derive(Drop)]
pub enum State {
    Items(Vec<Item>),
    AfterLong(Use),
    Typed(Use, Base, CType),
    NamedAt(Declaring, Place, CType, Text),
    Sizes(Sizing),
    SizeOpen(Sizing),
    SizeGiven(Sizing, Length),
    Sized(Sizing, Length),
    InitOpen(Box<Made>),
    ElementNext(Box<Made>, Vec<Expr>),
    Declared(Declaring),
    ParamsOpen(Head),
    ParamsVoid(Head),
    ParamNext(Head),
    ParamsDone(Head),
    Inside(Inside),
    Stmt(Outer),
    After(Box<Stmt>, Outer),
    Test(Test),
    Awaits(Role),
    Semi(Box<Stmt>, Outer),
    ForOpen(Place, Outer),
    ForStart(Place, Outer),
    /// Whether a cast may stand here.
    Operand(bool, Frames),
    Paren(bool, Place, Frames),
    Called(Place, Text, Frames),
    Opened(Place, Text, Frames),
    Have(Box<Expr>, Frames),
}

/// The innermost statement in which another stands, and those around it.
#[derive(Drop)]
pub enum Innermost {
    Body(Box<Head>, Vec<Stmt>),
    Arm(Arm, Outer),
}

/// The innermost expression in which another stands, and those around it.
#[derive(Drop)]
pub enum Inner {
    Goal(Box<Goal>),
    Frame(Frame, Frames),
}

/// What a frame does with an operand that is complete: it takes the token, or none takes it, or it is
/// left, with what it makes of the operand and the frames outside it.
#[derive(Drop)]
pub enum Turn {
    Next(State),
    Stop,
    Falls(Box<Expr>, Frames),
}

/// The same of a statement.
#[derive(Drop)]
pub enum Settling {
    Next(State),
    Stop,
    Falls(Box<Stmt>, Outer),
}
