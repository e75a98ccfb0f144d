ghost use Rattle.std.specs.Prelude.{◌≡◌};
ghost use Rattle.wide_core.specs.Classes.{traps, traps_act};

use tac_core::Act;
use wide_core::WideAct;

fn traps_act(act: Act) -> bool
    ensures { result ≡ traps_act act }
{
    match act {
        Act::Bounds { .. } | Act::Div { .. } | Act::Rem { .. } | Act::Load { .. } => true,
        _ => false,
    }
}

/// Whether it is a register operation that may fault.
pub fn traps(act: &WideAct) -> bool
    ensures { result ≡ traps act.now }
{
    match act {
        WideAct::Do(act) => traps_act(*act),
        _ => false,
    }
}
