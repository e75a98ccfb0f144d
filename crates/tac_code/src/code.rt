use ib_act::Act;
use tac_core::Regs;

/// How a part of a body is left early.
#[derive(Clone, Copy)]
pub enum Exit {
    Breaks,
    Continues,
    /// Returns a register's value, or 0.
    Returns(Option<u32>),
}

/// Structured code. Each part that does something has the number of its statement.
#[derive(Drop)]
#[cycle(code)]
pub enum Code {
    Nothing,
    Does {
        stmt: u32,
        act: Act,
    },
    Both(Box<Code>, Box<Code>),
    /// Code one after the other, of which only the last may end elsewhere than at its end.
    Row {
        first: Vec<Code>,
        last: Box<Code>,
    },
    Calls {
        stmt: u32,
        to: Option<u32>,
        func: u32,
        args: Regs,
    },
    When {
        stmt: u32,
        test: Box<Test>,
        then: Box<Code>,
    },
    Choose {
        stmt: u32,
        test: Box<Test>,
        then: Box<Code>,
        other: Box<Code>,
    },
    /// A body, and what is done behind each turn. Where that is a block of its own, `continue` leads to it.
    Repeat {
        stmt: u32,
        own: bool,
        test: Box<Test>,
        body: Box<Code>,
        last: Box<Code>,
    },
    /// The test behind the body is a block of its own, or goes on where the body ends.
    Until {
        stmt: u32,
        own: bool,
        body: Box<Code>,
        test: Box<Test>,
    },
    Leave {
        stmt: u32,
        exit: Exit,
    },
}

/// Where control goes. No number is made for a test.
#[derive(Drop)]
#[cycle(code)]
pub enum Test {
    Settled {
        stmt: u32,
        holds: bool,
    },
    On {
        stmt: u32,
        code: Box<Code>,
        register: u32,
    },
    AllOf(Box<Test>, Box<Test>),
    OneOf(Box<Test>, Box<Test>),
    Inverse(Box<Test>),
}
