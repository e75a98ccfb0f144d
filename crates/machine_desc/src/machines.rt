use crate::machine::{Machine, OpClass};

/// One operation in a word.
pub struct Narrow;

/// Four operations in a word.
pub struct Four;

/// Eight operations in a word.
pub struct Eight;

impl Machine for Narrow {
    ghost use Rattle.machine_desc.specs.Machine.{narrow_units, narrow_latency};
    ghost use Rattle.machine_desc.specs.Laws.{narrow_is_table};

    const WIDTH: usize = 1;

    const REGS: usize = 16;

    ghost WIDTH = { 1 };

    ghost REGS = { 16 };

    ghost units_of = { narrow_units };

    ghost latency_of = { narrow_latency };

    ghost is_table = { narrow_is_table };

    fn units(_class: OpClass) -> usize {
        1
    }

    fn latency(class: OpClass) -> u64 {
        match class {
            OpClass::Alu | OpClass::Io | OpClass::Control => 1,
            OpClass::Mul => 3,
            OpClass::Mem => 2,
        }
    }
}

impl Machine for Four {
    ghost use Rattle.machine_desc.specs.Machine.{four_units, four_latency};
    ghost use Rattle.machine_desc.specs.Laws.{four_is_table};

    const WIDTH: usize = 4;

    const REGS: usize = 32;

    ghost WIDTH = { 4 };

    ghost REGS = { 32 };

    ghost units_of = { four_units };

    ghost latency_of = { four_latency };

    ghost is_table = { four_is_table };

    fn units(class: OpClass) -> usize {
        match class {
            OpClass::Alu => 4,
            OpClass::Mul | OpClass::Mem => 2,
            OpClass::Io | OpClass::Control => 1,
        }
    }

    fn latency(class: OpClass) -> u64 {
        match class {
            OpClass::Alu | OpClass::Io | OpClass::Control => 1,
            OpClass::Mul => 4,
            OpClass::Mem => 2,
        }
    }
}

impl Machine for Eight {
    ghost use Rattle.machine_desc.specs.Machine.{eight_units, eight_latency};
    ghost use Rattle.machine_desc.specs.Laws.{eight_is_table};

    const WIDTH: usize = 8;

    const REGS: usize = 64;

    ghost WIDTH = { 8 };

    ghost REGS = { 64 };

    ghost units_of = { eight_units };

    ghost latency_of = { eight_latency };

    ghost is_table = { eight_is_table };

    fn units(class: OpClass) -> usize {
        match class {
            OpClass::Alu => 8,
            OpClass::Mul | OpClass::Mem => 4,
            OpClass::Io | OpClass::Control => 1,
        }
    }

    fn latency(class: OpClass) -> u64 {
        match class {
            OpClass::Alu | OpClass::Io | OpClass::Control => 1,
            OpClass::Mul => 6,
            OpClass::Mem => 3,
        }
    }
}
