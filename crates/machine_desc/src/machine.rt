ghost use Rattle.std.specs.Prelude.{◌≡◌, ℕ};
ghost use Rattle.machine_desc.specs.Machine.{IsTable};

/// The kinds of units that execute operations.
#[derive(Clone, Copy, PartialEq, Eq, Debug)]
pub enum OpClass {
    Alu,
    Mul,
    Mem,
    Io,
    Control,
}

/// A machine's table: how much it does in one cycle, and when results are ready.
pub trait Machine {
    /// How many operations a word holds.
    const WIDTH: usize;

    /// How many registers each call has.
    const REGS: usize;

    ghost WIDTH: { ℕ };

    ghost REGS: { ℕ };

    ghost use Rattle.machine_desc.specs.declared.machine.OpClass.{OpClass};

    ghost units_of: { OpClass → ℕ };

    ghost latency_of: { OpClass → ℕ };

    /// How many operations of a class a word holds.
    fn units(class: OpClass) -> usize
        ensures { result ≡ units_of class };

    /// How many cycles after its start a result is ready.
    fn latency(class: OpClass) -> u64
        ensures { result ≡ latency_of class };

    ghost is_table: { IsTable WIDTH REGS units_of latency_of };
}
