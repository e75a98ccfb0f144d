ghost use Rattle.std.specs.Prelude.{◌≡◌, ◌<◌, unwrap_or, ℕ, List, [], ◌∷◌, Some, None, pos, length, map, IfOk, OnErr, IfSome, IsErrOf, Result, ℤ};
ghost use Rattle.std.specs.Int.{w64, cast_unsigned};
ghost use Rattle.ib_mem.specs.Memory.{stored};
ghost use Rattle.ib_base.specs.Cause.{HasCause};
ghost use Rattle.ib_act.specs.Acts.{given, target, bytes_in};
ghost use Rattle.ib_run.specs.OverHost.{OverHost};
ghost use Rattle.ib_meaning.specs.Agreement.{IsPrefix};
ghost use Rattle.tac_core.specs.Meaning.{Does, number_in, set_in, writes, takes, byte_of, effect_by, effect_of};
ghost use Rattle.tac_core.specs.Rules.{IsRegister, IsGoodAct};
ghost use Rattle.profile.specs.Running.{Takes, TakesPart, access_fault, next_of, rest_of};

use ib_act::{Act, address, bytes_in};
use ib_base::{FaultKind, Host, HostErr, Width};
use ib_mem::Memory;
use itoa::Buffer;
use sqlite_items::Items;

/// The number in a register, or 0 where there is none.
pub(crate) fn number_in(regs: &[i64], register: Option<u32>) -> i64
    requires { IsRegister (length regs.now) register }
    ensures { result ≡ number_in regs.now register }
{
    match register {
        None => 0,
        Some(register) => regs[register as usize],
    }
}

pub(crate) fn set_in(regs: &mut Items<i64>, register: Option<u32>, number: i64)
    requires { IsRegister (length regs.old) register }
    ensures { regs.new ≡ set_in regs.old register number }
{
    match register {
        None => {}
        Some(register) => regs.set(register as usize, number),
    }
}

/// Writes a value, or hands its fault on.
fn write(regs: &mut Items<i64>, to: Option<u32>, value: Result<i64, FaultKind>) -> Option<FaultKind>
    requires { IsRegister (length regs.old) to }
    ensures done { (memory input : List ℕ) → Takes (λ left. writes to value regs.old memory left) regs.new memory result input input [] }
    ensures many { length regs.new ≡ length regs.old }
{
    match value {
        Ok(number) => {
            set_in(regs, to, number);
            None
        }
        Err(kind) => Some(kind),
    }
}

/// Stores a register's number, or says that the address faults.
fn store(memory: &mut Memory, width: Width, at: i64, number: i64) -> Option<FaultKind>
    ensures fault { result ≡ access_fault (stored memory.old at (bytes_in width) (cast_unsigned w64 number)) }
    ensures memory { memory.new ≡ unwrap_or (stored memory.old at (bytes_in width) (cast_unsigned w64 number)) memory.old }
{
    if memory.store(at, bytes_in(width), number.cast_unsigned()) {
        None
    } else {
        Some(FaultKind::BadAddress)
    }
}

/// The number of the next byte of the input, or -1 at its end.
fn next_number<H: Host>(host: &mut H) -> Result<i64, HostErr>
    ensures ok { IfOk result (λ number. OverHost (λ input left out. (number ≡ next_of input) × (left ≡ rest_of input) × (out ≡ [])) (H.world host.old) (H.world host.new)) }
    ensures err { OnErr result (H.world host.new ≡ H.world host.old) }
    ensures cause { HasCause (H.faults host.old) (H.faults host.new) result }
    ensures still_sure { H.sure host.old → H.sure host.new }
    ensures never { H.sure host.old → IsErrOf result HostErr.Failed → ⊥ }
{
    match host.get_byte()? {
        None => Ok(-1),
        Some(byte) => Ok(i64::from(byte)),
    }
}

/// The lowest byte of a number.
fn byte_of(number: i64) -> u8
    ensures { result ≡ byte_of number }
{
    number.rem_euclid(256) as u8
}

/// Reads a byte of the input into a register.
fn get<H: Host>(regs: &mut Items<i64>, to: u32, host: &mut H) -> Result<Option<FaultKind>, HostErr>
    requires { to < length regs.old }
    ensures ok { IfOk result (λ fault. (memory : List ℕ) → OverHost (Takes (takes to regs.old memory) regs.new memory fault) (H.world host.old) (H.world host.new)) }
    ensures err { OnErr result (H.world host.new ≡ H.world host.old) }
    ensures many { length regs.new ≡ length regs.old }
    ensures cause { HasCause (H.faults host.old) (H.faults host.new) result }
    ensures still_sure { H.sure host.old → H.sure host.new }
    ensures never { H.sure host.old → IsErrOf result HostErr.Failed → ⊥ }
{
    let number = next_number(host)?;
    regs.set(to as usize, number);
    Ok(None)
}

fn print<H: Host>(host: &mut H, bytes: &[u8]) -> Result<Option<FaultKind>, HostErr>
    ensures ok { IfOk result (λ fault. (regs : List ℤ) (memory : List ℕ) → OverHost (Takes (λ left. Does regs memory left bytes.now) regs memory fault) (H.world host.old) (H.world host.new)) }
    ensures err { OnErr result (OverHost (λ input left part. (input ≡ left) × IsPrefix part bytes.now) (H.world host.old) (H.world host.new)) }
    ensures cause { HasCause (H.faults host.old) (H.faults host.new) result }
    ensures still_sure { H.sure host.old → H.sure host.new }
    ensures never { H.sure host.old → IsErrOf result HostErr.Failed → ⊥ }
{
    host.put(bytes)?;
    Ok(None)
}

/// Does an operation whose sources hold `x` and `y`.
fn do_with<H: Host>(
    act: Act,
    x: i64,
    y: i64,
    base: u32,
    regs: &mut Items<i64>,
    memory: &mut Memory,
    host: &mut H,
) -> Result<Option<FaultKind>, HostErr>
    requires { IsRegister (length regs.old) (target act) }
    ensures ok { IfOk result (λ fault. OverHost (Takes (λ left. effect_by act base regs.old memory.old left x y) regs.new memory.new fault) (H.world host.old) (H.world host.new)) }
    ensures broken { OnErr result (OverHost (TakesPart (λ left. effect_by act base regs.old memory.old left x y)) (H.world host.old) (H.world host.new)) }
    ensures many { length regs.new ≡ length regs.old }
    ensures cause { HasCause (H.faults host.old) (H.faults host.new) result }
    ensures still_sure { H.sure host.old → H.sure host.new }
    ensures never { H.sure host.old → IsErrOf result HostErr.Failed → ⊥ }
{
    match act {
        Act::Store { width, offset, .. } => Ok(store(memory, width, address(x, offset), y)),
        Act::Get { to } => get(regs, to, host),
        Act::PutByte { .. } => print(host, &[byte_of(x)]),
        Act::PutNumber { .. } => print(host, Buffer::new().format(x).as_bytes()),
        _ => Ok(write(regs, act.target(), act.value(base, memory, x, y))),
    }
}

/// Does an operation of a call whose frame begins at `base`. `None` says that it did not fault.
pub(crate) fn do_act<H: Host>(
    act: Act,
    base: u32,
    regs: &mut Items<i64>,
    memory: &mut Memory,
    host: &mut H,
) -> Result<Option<FaultKind>, HostErr>
    requires { IsGoodAct (length regs.old) act }
    ensures ok { IfOk result (λ fault. OverHost (Takes (effect_of act base regs.old memory.old) regs.new memory.new fault) (H.world host.old) (H.world host.new)) }
    ensures broken { OnErr result (OverHost (TakesPart (effect_of act base regs.old memory.old)) (H.world host.old) (H.world host.new)) }
    ensures many { length regs.new ≡ length regs.old }
    ensures cause { HasCause (H.faults host.old) (H.faults host.new) result }
    ensures still_sure { H.sure host.old → H.sure host.new }
    ensures never { H.sure host.old → IsErrOf result HostErr.Failed → ⊥ }
{
    let x = number_in(regs.as_slice(), act.first_source());
    let y = number_in(regs.as_slice(), act.second_source());
    do_with(act, x, y, base, regs, memory, host)
}
