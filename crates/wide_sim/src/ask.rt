ghost use Rattle.std.specs.Prelude.{◌≡◌, ◌≤◌, true, length, IfOk, IsOk, OnOk, OnErr, IsErrOf};
ghost use Rattle.std.specs.List.{list_all, list_any};
ghost use Rattle.ib_base.specs.Cause.{HasCause};
ghost use Rattle.ib_run.specs.OverHost.{OverHost};
ghost use Rattle.wide_sim.specs.Effects.{Asked, AskedOne, PrintsSome, asking, asks, number_of_byte, text, text_of};
ghost use Rattle.wide_sim.specs.Quiet.{is_quiet_plan};

use crate::planned::Planned;
use ib_base::{Host, HostErr};
use itoa::Buffer;
use wide_core::{Loc, Tagged};

/// Prints what the effects print, and puts the bytes that they take in their place.
#[tactic(auto, using(crate::proofs::Asks::none_asked))]
pub(crate) fn ask<H: Host>(host: &mut H, plan: &mut [Planned]) -> Result<(), HostErr>
    requires { asking plan.old ≤ 1 }
    ensures ok { OnOk result (Asked plan.old plan.new (H.world host.old) (H.world host.new)) }
    ensures err { OnErr result (OverHost (PrintsSome (text plan.old)) (H.world host.old) (H.world host.new)) }
    ensures len { length plan.new ≡ length plan.old }
    ensures quiet { list_all is_quiet_plan plan.old ≡ true → IsOk result }
    ensures cause { HasCause (H.faults host.old) (H.faults host.new) result }
    ensures still_sure { H.sure host.old → H.sure host.new }
    ensures never { H.sure host.old → IsErrOf result HostErr.Failed → ⊥ }
{
    if !any_asks(plan) {
        return Ok(());
    }
    for i in 0..plan.len() {
        match ask_one(host, plan[i]) {
            Ok(effect) => plan[i] = effect,
            Err(error) => return Err(error),
        }
    }
    Ok(())
}

fn any_asks(plan: &[Planned]) -> bool
    ensures { result ≡ list_any asks plan.now }
{
    for effect in plan {
        if asks(effect) {
            return true;
        }
    }
    false
}

fn asks(effect: &Planned) -> bool
    ensures { result ≡ asks effect.now }
{
    match effect {
        Planned::Take { .. } => true,
        Planned::PutByte(_) => true,
        Planned::PutNumber(_) => true,
        _ => false,
    }
}

fn ask_one<'a, H: Host>(host: &mut H, effect: Planned<'a>) -> Result<Planned<'a>, HostErr>
    ensures ok { IfOk result (λ given. AskedOne effect.entry given (H.world host.old) (H.world host.new)) }
    ensures err { OnErr result (OverHost (PrintsSome (text_of effect.entry)) (H.world host.old) (H.world host.new)) }
    ensures asks { OnErr result (asks effect.entry ≡ true) }
    ensures quiet { is_quiet_plan effect.entry ≡ true → IsOk result }
    ensures cause { HasCause (H.faults host.old) (H.faults host.new) result }
    ensures still_sure { H.sure host.old → H.sure host.new }
    ensures never { H.sure host.old → IsErrOf result HostErr.Failed → ⊥ }
{
    match effect {
        Planned::Take { to } => match host.get_byte() {
            Ok(byte) => Ok(taken(to, byte)),
            Err(error) => Err(error),
        },
        Planned::PutByte(byte) => match host.put(&[byte]) {
            Ok(()) => Ok(effect),
            Err(error) => Err(error),
        },
        Planned::PutNumber(number) => match host.put(Buffer::new().format(number).as_bytes()) {
            Ok(()) => Ok(effect),
            Err(error) => Err(error),
        },
        _ => Ok(effect),
    }
}

fn taken(to: u32, byte: Option<u8>) -> Planned<'static>
    ensures { result ≡ Planned.Write (Loc.Reg to) (Tagged.Clear (number_of_byte byte)) }
{
    Planned::Write {
        to: Loc::Reg(to),
        value: Tagged::Clear(number_of_byte(byte)),
    }
}

fn number_of_byte(byte: Option<u8>) -> i64
    ensures { result ≡ number_of_byte byte }
{
    match byte {
        Some(byte) => i64::from(byte),
        None => -1,
    }
}
