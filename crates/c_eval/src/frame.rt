use c_typed::{Expr, Operation, Rank, Reach, Sign, Stmt, Storage, ValueType};
use ib_base::{FaultKind, Outcome};
use sqlite_items::Items;

/// A loop of the statement with this number. A test that is missing holds.
#[derive(Clone, Copy)]
pub(crate) struct Turns<'a> {
    pub number: u32,
    pub test: Option<&'a Expr>,
    pub last: Option<&'a Expr>,
    pub body: &'a Stmt,
}

/// Where an `if` or a loop stands.
#[derive(Clone, Copy)]
pub(crate) enum Phase {
    /// The test of an `if` waits for a value.
    Choice,
    /// The first part of a loop is to be left.
    Begin,
    /// The test of a loop waits for a value.
    Test,
    /// The last part of a loop does.
    Last,
    /// The body of a loop is to be left.
    Body,
}

/// A call that waits for another.
#[derive(Drop)]
pub(crate) struct Caller {
    pub depth: u32,
    pub base: u32,
    pub top: u32,
    pub slots: Items<i64>,
}

/// What waits: for a value, for arguments, or for a statement to be left. The numbers are those of the statements.
#[derive(Drop)]
pub(crate) enum Frame<'a> {
    Element {
        array: Storage,
        length: u64,
        size: u32,
        reach: Reach,
        number: u32,
    },
    Load {
        ty: ValueType,
        number: u32,
    },
    Convert {
        ty: ValueType,
    },
    Unary {
        op: Sign,
        rank: Rank,
    },
    Not,
    Left {
        op: Operation,
        right: &'a Expr,
        number: u32,
    },
    Right {
        op: Operation,
        left: i64,
        number: u32,
    },
    Both {
        right: &'a Expr,
        number: u32,
    },
    Either {
        right: &'a Expr,
        number: u32,
    },
    Truth,
    Choice {
        here: &'a Expr,
        other: &'a Expr,
        number: u32,
    },
    SetSlot {
        slot: u32,
    },
    StoreAt {
        ty: ValueType,
        value: &'a Expr,
        number: u32,
    },
    StoreValue {
        ty: ValueType,
        address: i64,
        number: u32,
    },
    UpdateSlot {
        ty: ValueType,
        slot: u32,
        within: ValueType,
        op: Operation,
        old: i64,
        number: u32,
    },
    UpdateAt {
        ty: ValueType,
        within: ValueType,
        op: Operation,
        value: &'a Expr,
        number: u32,
    },
    UpdateValue {
        ty: ValueType,
        address: i64,
        within: ValueType,
        op: Operation,
        old: i64,
        number: u32,
    },
    StepAt {
        ty: ValueType,
        within: ValueType,
        op: Operation,
        number: u32,
    },
    Argument {
        rest: &'a [Expr],
        number: u32,
    },
    PutByte,
    PutNumber,
    Comma {
        rest: &'a [Expr],
        last: &'a Expr,
        number: u32,
    },
    Discard,
    Parts {
        rest: &'a [Expr],
        number: u32,
    },
    GiveBack,
    Held {
        value: i64,
    },
    Callee {
        function: u32,
        number: u32,
    },
    Rest {
        stmts: &'a [Stmt],
    },
    /// An `if` or a loop.
    Control {
        phase: Phase,
        stmt: &'a Stmt,
    },
    Called {
        caller: Caller,
    },
}

/// How control leaves a statement.
#[derive(Clone, Copy)]
pub(crate) enum Exit {
    Next,
    OnBreak,
    OnContinue,
    OnReturn { value: i64 },
}

/// What is at hand.
#[derive(Clone, Copy)]
pub(crate) enum Task<'a> {
    Eval { expr: &'a Expr, number: u32 },
    Give { value: i64 },
    /// The arguments are complete.
    Pass,
    Exec { stmt: &'a Stmt },
    Leave { exit: Exit },
}

/// What the host is asked for.
#[derive(Clone, Copy)]
pub(crate) enum Ask {
    GetByte,
    PutByte { value: i64 },
    PutNumber { value: i64 },
}

/// What needs a unit of the budget.
#[derive(Clone, Copy)]
pub(crate) enum Want<'a> {
    /// A call of a function of the source, whose arguments are complete.
    Call { function: u32, number: u32 },
    /// A turn of a loop.
    Turn { stmt: &'a Stmt },
}

/// What a move comes to.
#[derive(Clone, Copy)]
pub(crate) enum Move<'a> {
    Goes { task: Task<'a> },
    Asks { ask: Ask },
    Wants { want: Want<'a> },
    Faults { number: u32, kind: FaultKind },
    Ends { result: i64 },
    /// A function is missing, which no typed program has.
    Stops,
}

/// Where a run stops, until a unit of the budget is there or for good.
#[derive(Clone, Copy)]
pub(crate) enum Halt<'a> {
    Wants { want: Want<'a> },
    Over { outcome: Outcome },
}

/// Where a run stops that asks no host.
#[derive(Clone, Copy)]
pub(crate) enum Pause<'a> {
    Asks { ask: Ask },
    Halts { halt: Halt<'a> },
}
