ghost use Rattle.std.specs.Prelude.{◌≡◌};

use ib_base::Text;
use ib_meaning::Place;
use sqlite_items::Items;

#[derive(Clone, Copy, Drop)]
pub enum SumOp {
    Plus,
    Minus,
}

#[derive(Clone, Copy, Drop)]
pub enum TermOp {
    Times,
    Over,
}

/// A variable is its number in order of declaration. `Negative(n)` is `-n`. A number is at most
/// 2147483647.
#[derive(Clone, Copy, Drop)]
pub enum Factor {
    Variable(u32),
    Number(u32),
    Negative(u32),
}

#[derive(Clone, Copy, Drop)]
pub struct Multiplier {
    pub op: TermOp,
    pub factor: Factor,
}

#[derive(Drop)]
pub struct Term {
    pub first: Factor,
    pub rest: Items<Multiplier>,
}

#[derive(Drop)]
pub struct Addend {
    pub op: SumOp,
    pub term: Term,
}

#[derive(Drop)]
pub struct Sum {
    pub first: Term,
    pub rest: Items<Addend>,
}

/// A statement, with the place of its first token. `Declare` declares the next variable.
#[derive(Drop)]
pub enum Stmt {
    Declare {
        place: Place,
        value: Option<Sum>,
    },
    Assign {
        place: Place,
        variable: u32,
        value: Sum,
    },
    Print {
        place: Place,
        value: Sum,
    },
    Return {
        place: Place,
        value: Sum,
    },
}

impl Stmt {
    ghost use Rattle.first_form.specs.Places.{place_of};

    /// The place of the first token.
    pub fn place(&self) -> Place
        ensures { result ≡ place_of self.now }
    {
        match self {
            Stmt::Declare { place, .. } => *place,
            Stmt::Assign { place, .. } => *place,
            Stmt::Print { place, .. } => *place,
            Stmt::Return { place, .. } => *place,
        }
    }
}

/// The variables' names in order of declaration, and the statements.
#[derive(Drop)]
pub struct Program {
    pub names: Items<Text>,
    pub body: Items<Stmt>,
}
