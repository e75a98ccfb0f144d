ghost use Rattle.std.specs.Prelude.{◌≡◌, [], IfOk, Some};
ghost use Rattle.first_form.specs.Reading as spec;
ghost use Rattle.first_form.specs.Gives.{Gives};

use crate::error::ReadErr;
use crate::kind::{Kind, Word};
use crate::names::Names;
use crate::piece::Piece;
use crate::program::{Addend, Factor, Multiplier, Program, Stmt, Sum, SumOp, Term, TermOp};
use ib_meaning::Place;
use sqlite_items::Items;
use std::alloc::{AllocError, Global};

/// What has been read, and what may come next.
#[derive(Drop)]
pub struct Reader<'a> {
    pub names: Names<'a>,
    pub body: Items<Stmt>,
    pub wait: Wait<'a>,
}

/// What may come next.
#[derive(Drop)]
pub enum Wait<'a> {
    Header(Header),
    Statement,
    /// The name of a declaration.
    Name {
        place: Place,
    },
    /// `=` or `;` of a declaration.
    Initial {
        place: Place,
        name: Piece<'a>,
    },
    /// `=` of an assignment.
    Equals {
        place: Place,
        variable: u32,
    },
    /// `(` of a call.
    Parenthesis {
        place: Place,
    },
    Factor {
        purpose: Purpose<'a>,
        slot: Slot,
    },
    /// The number behind a `-`.
    Digits {
        purpose: Purpose<'a>,
        slot: Slot,
    },
    /// An operator, or the end of the sum.
    Operator {
        purpose: Purpose<'a>,
        lead: Lead,
        term: Term,
    },
    /// `;` behind a call.
    Semicolon {
        place: Place,
        value: Sum,
    },
    Nothing,
}

/// The word of `int main(void) {` that comes next.
#[derive(Clone, Copy)]
pub enum Header {
    Int,
    Main,
    LeftParen,
    Void,
    RightParen,
    LeftBrace,
}

/// The statement that a sum belongs to.
#[derive(Drop)]
pub struct Purpose<'a> {
    pub place: Place,
    pub target: Target<'a>,
}

#[derive(Drop)]
pub enum Target<'a> {
    Declare { name: Piece<'a> },
    Assign { variable: u32 },
    Print,
    Return,
}

/// What stands before a term of a sum.
#[derive(Drop)]
pub enum Lead {
    First,
    After { sum: Sum, op: SumOp },
}

/// What the next factor belongs to: a term that it begins, or one that it continues.
#[derive(Drop)]
pub enum Slot {
    Term { lead: Lead },
    Factor { lead: Lead, term: Term, op: TermOp },
}

type Next<'a> = Result<Wait<'a>, ReadErr>;

fn after_header<'a>(header: Header, kind: Kind<'a>) -> Next<'a>
    ensures { Gives (spec.after_header header kind.entry) result }
{
    match header {
        Header::Int => match kind {
            Kind::Int => Ok(Wait::Header(Header::Main)),
            _ => Err(ReadErr::NotFirstForm),
        },
        Header::Main => match kind {
            Kind::Main => Ok(Wait::Header(Header::LeftParen)),
            _ => Err(ReadErr::NotFirstForm),
        },
        Header::LeftParen => match kind {
            Kind::LeftParen => Ok(Wait::Header(Header::Void)),
            _ => Err(ReadErr::NotFirstForm),
        },
        Header::Void => match kind {
            Kind::Void => Ok(Wait::Header(Header::RightParen)),
            _ => Err(ReadErr::NotFirstForm),
        },
        Header::RightParen => match kind {
            Kind::RightParen => Ok(Wait::Header(Header::LeftBrace)),
            _ => Err(ReadErr::NotFirstForm),
        },
        Header::LeftBrace => match kind {
            Kind::LeftBrace => Ok(Wait::Statement),
            _ => Err(ReadErr::NotFirstForm),
        },
    }
}

fn first_of_sum<'a>(place: Place, target: Target<'a>) -> Wait<'a>
    ensures { result ≡ spec.first_of_sum place target.entry }
{
    Wait::Factor {
        purpose: Purpose { place, target },
        slot: Slot::Term { lead: Lead::First },
    }
}

fn statement_start<'a>(names: &Names<'a>, place: Place, kind: Kind<'a>) -> Next<'a>
    ensures { Gives (spec.statement_start names.now place kind.entry) result }
{
    match kind {
        Kind::Int => Ok(Wait::Name { place }),
        Kind::Putint => Ok(Wait::Parenthesis { place }),
        Kind::Return => Ok(first_of_sum(place, Target::Return)),
        Kind::RightBrace => Ok(Wait::Nothing),
        Kind::Name(name) => match names.find(name.bytes()) {
            Some(variable) => Ok(Wait::Equals { place, variable }),
            None => Err(ReadErr::NotFirstForm),
        },
        _ => Err(ReadErr::NotFirstForm),
    }
}

fn after_name<'a>(place: Place, kind: Kind<'a>) -> Next<'a>
    ensures { Gives (spec.after_name place kind.entry) result }
{
    match kind {
        Kind::Name(name) => Ok(Wait::Initial { place, name }),
        _ => Err(ReadErr::NotFirstForm),
    }
}

fn after_equals<'a>(place: Place, variable: u32, kind: Kind<'a>) -> Next<'a>
    ensures { Gives (spec.after_equals place variable kind.entry) result }
{
    match kind {
        Kind::Equals => Ok(first_of_sum(place, Target::Assign { variable })),
        _ => Err(ReadErr::NotFirstForm),
    }
}

fn after_parenthesis<'a>(place: Place, kind: Kind<'a>) -> Next<'a>
    ensures { Gives (spec.after_parenthesis place kind.entry) result }
{
    match kind {
        Kind::LeftParen => Ok(first_of_sum(place, Target::Print)),
        _ => Err(ReadErr::NotFirstForm),
    }
}

/// A factor alone.
fn term_of(alloc: Global, first: Factor) -> Term
    ensures { result ≡ record { first = first; rest = [] } }
{
    Term {
        first,
        rest: Items::new(alloc),
    }
}

fn multiplied(term: Term, op: TermOp, factor: Factor) -> Result<Term, AllocError>
    ensures { IfOk result (λ t. t ≡ spec.multiplied term op factor) }
{
    let Term { first, mut rest } = term;
    rest.push(Multiplier { op, factor })?;
    Ok(Term { first, rest })
}

fn joined(alloc: Global, lead: Lead, term: Term) -> Result<Sum, AllocError>
    ensures { IfOk result (λ s. s ≡ spec.joined lead term) }
{
    match lead {
        Lead::First => Ok(Sum {
            first: term,
            rest: Items::new(alloc),
        }),
        Lead::After { sum, op } => {
            let Sum { first, mut rest } = sum;
            rest.push(Addend { op, term })?;
            Ok(Sum { first, rest })
        }
    }
}

fn behind_factor<'a>(
    alloc: Global,
    purpose: Purpose<'a>,
    slot: Slot,
    factor: Factor,
) -> Result<Wait<'a>, AllocError>
    ensures { IfOk result (λ w. w ≡ spec.behind_factor purpose.entry slot factor) }
{
    match slot {
        Slot::Term { lead } => Ok(Wait::Operator {
            purpose,
            lead,
            term: term_of(alloc, factor),
        }),
        Slot::Factor { lead, term, op } => {
            let term = multiplied(term, op, factor)?;
            Ok(Wait::Operator {
                purpose,
                lead,
                term,
            })
        }
    }
}

fn factor_of(names: &Names<'_>, kind: Kind<'_>) -> Option<Factor>
    ensures { result ≡ spec.factor_of names.now kind.entry }
{
    match kind {
        Kind::Number(n) => Some(Factor::Number(n)),
        Kind::Name(name) => match names.find(name.bytes()) {
            Some(variable) => Some(Factor::Variable(variable)),
            None => None,
        },
        _ => None,
    }
}

fn after_factor<'a>(
    alloc: Global,
    names: &Names<'a>,
    purpose: Purpose<'a>,
    slot: Slot,
    kind: Kind<'a>,
) -> Next<'a>
    ensures { Gives (spec.after_factor names.now purpose.entry slot kind.entry) result }
{
    if matches!(&kind, Kind::Minus) {
        return Ok(Wait::Digits { purpose, slot });
    }
    match factor_of(names, kind) {
        Some(factor) => Ok(behind_factor(alloc, purpose, slot, factor)?),
        None => Err(ReadErr::NotFirstForm),
    }
}

fn after_digits<'a>(alloc: Global, purpose: Purpose<'a>, slot: Slot, kind: Kind<'a>) -> Next<'a>
    ensures { Gives (spec.after_digits purpose.entry slot kind.entry) result }
{
    match kind {
        Kind::Number(n) => Ok(behind_factor(alloc, purpose, slot, Factor::Negative(n))?),
        _ => Err(ReadErr::NotFirstForm),
    }
}

fn waiting<'a>(names: Names<'a>, body: Items<Stmt>, wait: Wait<'a>) -> Reader<'a>
    ensures { result ≡ record { names = names.entry; body = body; wait = wait.entry } }
{
    Reader { names, body, wait }
}

fn with_statement<'a>(
    names: Names<'a>,
    body: Items<Stmt>,
    stmt: Stmt,
) -> Result<Reader<'a>, ReadErr>
    ensures { Gives (Some (spec.with_statement names.entry body stmt)) result }
{
    let mut body = body;
    body.push(stmt)?;
    Ok(waiting(names, body, Wait::Statement))
}

fn with_declaration<'a>(
    names: Names<'a>,
    body: Items<Stmt>,
    name: Piece<'a>,
    stmt: Stmt,
) -> Result<Reader<'a>, ReadErr>
    ensures { Gives (spec.with_declaration names.entry body name.entry stmt) result }
{
    let mut names = names;
    if !names.add(name.bytes())? {
        return Err(ReadErr::NotFirstForm);
    }
    with_statement(names, body, stmt)
}

fn after_initial<'a>(
    names: Names<'a>,
    body: Items<Stmt>,
    place: Place,
    name: Piece<'a>,
    kind: Kind<'a>,
) -> Result<Reader<'a>, ReadErr>
    ensures { Gives (spec.after_initial names.entry body place name.entry kind.entry) result }
{
    match kind {
        Kind::Semicolon => {
            with_declaration(names, body, name, Stmt::Declare { place, value: None })
        }
        Kind::Equals => {
            let wait = first_of_sum(place, Target::Declare { name });
            Ok(waiting(names, body, wait))
        }
        _ => Err(ReadErr::NotFirstForm),
    }
}

fn after_semicolon<'a>(
    names: Names<'a>,
    body: Items<Stmt>,
    place: Place,
    value: Sum,
    kind: Kind<'a>,
) -> Result<Reader<'a>, ReadErr>
    ensures { Gives (spec.after_semicolon names.entry body place value kind.entry) result }
{
    match kind {
        Kind::Semicolon => with_statement(names, body, Stmt::Print { place, value }),
        _ => Err(ReadErr::NotFirstForm),
    }
}

/// `;` behind a sum.
fn closed<'a>(
    names: Names<'a>,
    body: Items<Stmt>,
    purpose: Purpose<'a>,
    value: Sum,
) -> Result<Reader<'a>, ReadErr>
    ensures { Gives (spec.closed names.entry body purpose.entry value) result }
{
    let Purpose { place, target } = purpose;
    match target {
        Target::Declare { name } => {
            let value = Some(value);
            with_declaration(names, body, name, Stmt::Declare { place, value })
        }
        Target::Assign { variable } => {
            let stmt = Stmt::Assign {
                place,
                variable,
                value,
            };
            with_statement(names, body, stmt)
        }
        Target::Return => with_statement(names, body, Stmt::Return { place, value }),
        Target::Print => Err(ReadErr::NotFirstForm),
    }
}

/// `)` behind a sum.
fn parenthesised<'a>(purpose: Purpose<'a>, value: Sum) -> Next<'a>
    ensures { Gives (spec.parenthesised purpose.entry value) result }
{
    let Purpose { place, target } = purpose;
    match target {
        Target::Print => Ok(Wait::Semicolon { place, value }),
        _ => Err(ReadErr::NotFirstForm),
    }
}

/// `+` or `-` behind a sum.
fn next_term<'a>(alloc: Global, purpose: Purpose<'a>, lead: Lead, term: Term, op: SumOp) -> Next<'a>
    ensures { Gives (Some (spec.next_term purpose.entry lead term op)) result }
{
    let sum = joined(alloc, lead, term)?;
    let lead = Lead::After { sum, op };
    let slot = Slot::Term { lead };
    Ok(Wait::Factor { purpose, slot })
}

/// `*` or `/` behind a term.
fn next_factor<'a>(purpose: Purpose<'a>, lead: Lead, term: Term, op: TermOp) -> Wait<'a>
    ensures { result ≡ spec.next_factor purpose.entry lead term op }
{
    let slot = Slot::Factor { lead, term, op };
    Wait::Factor { purpose, slot }
}

fn after_operator<'a>(
    alloc: Global,
    purpose: Purpose<'a>,
    lead: Lead,
    term: Term,
    kind: Kind<'a>,
) -> Next<'a>
    ensures { Gives (spec.after_operator purpose.entry lead term kind.entry) result }
{
    match kind {
        Kind::Plus => next_term(alloc, purpose, lead, term, SumOp::Plus),
        Kind::Minus => next_term(alloc, purpose, lead, term, SumOp::Minus),
        Kind::Star => Ok(next_factor(purpose, lead, term, TermOp::Times)),
        Kind::Slash => Ok(next_factor(purpose, lead, term, TermOp::Over)),
        Kind::RightParen => {
            let sum = joined(alloc, lead, term)?;
            parenthesised(purpose, sum)
        }
        _ => Err(ReadErr::NotFirstForm),
    }
}

/// A word behind a factor.
fn behind_sum<'a>(
    alloc: Global,
    names: Names<'a>,
    body: Items<Stmt>,
    purpose: Purpose<'a>,
    lead: Lead,
    term: Term,
    kind: Kind<'a>,
) -> Result<Reader<'a>, ReadErr>
    ensures { Gives (spec.behind_sum names.entry body purpose.entry lead term kind.entry) result }
{
    if matches!(&kind, Kind::Semicolon) {
        let sum = joined(alloc, lead, term)?;
        return closed(names, body, purpose, sum);
    }
    let wait = after_operator(alloc, purpose, lead, term, kind)?;
    Ok(waiting(names, body, wait))
}

impl<'a> Reader<'a> {
    pub fn new(alloc: Global) -> Reader<'a>
        ensures { result ≡ spec.start_reader }
    {
        waiting(
            Names::new(alloc),
            Items::new(alloc),
            Wait::Header(Header::Int),
        )
    }

    /// Takes the next word.
    #[tactic(auto, unfolding(crate::specs::Reading::step))]
    pub fn take(self, alloc: Global, word: Word<'a>) -> Result<Reader<'a>, ReadErr>
        ensures { Gives (spec.step self.entry word.entry) result }
    {
        let Word { place: at, kind } = word;
        let Reader { names, body, wait } = self;
        match wait {
            Wait::Header(header) => {
                let next = after_header(header, kind)?;
                Ok(waiting(names, body, next))
            }
            Wait::Statement => {
                let next = statement_start(&names, at, kind)?;
                Ok(waiting(names, body, next))
            }
            Wait::Name { place } => {
                let next = after_name(place, kind)?;
                Ok(waiting(names, body, next))
            }
            Wait::Initial { place, name } => after_initial(names, body, place, name, kind),
            Wait::Equals { place, variable } => {
                let next = after_equals(place, variable, kind)?;
                Ok(waiting(names, body, next))
            }
            Wait::Parenthesis { place } => {
                let next = after_parenthesis(place, kind)?;
                Ok(waiting(names, body, next))
            }
            Wait::Factor { purpose, slot } => {
                let next = after_factor(alloc, &names, purpose, slot, kind)?;
                Ok(waiting(names, body, next))
            }
            Wait::Digits { purpose, slot } => {
                let next = after_digits(alloc, purpose, slot, kind)?;
                Ok(waiting(names, body, next))
            }
            Wait::Operator {
                purpose,
                lead,
                term,
            } => behind_sum(alloc, names, body, purpose, lead, term, kind),
            Wait::Semicolon { place, value } => after_semicolon(names, body, place, value, kind),
            Wait::Nothing => Err(ReadErr::NotFirstForm),
        }
    }

    /// The program, once all words were taken.
    pub fn finish(self, alloc: Global) -> Result<Program, ReadErr>
        ensures { Gives (spec.finished self.entry) result }
    {
        let Reader { names, body, wait } = self;
        match wait {
            Wait::Nothing => {
                let names = names.to_items(alloc)?;
                Ok(Program { names, body })
            }
            _ => Err(ReadErr::NotFirstForm),
        }
    }
}
