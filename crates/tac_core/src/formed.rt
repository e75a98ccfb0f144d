use crate::chain::Traces;
use crate::copied::Copied;
use std::marker::Model;

/// A copied program in chains that control enters only at their first blocks.
#[derive(Drop)]
pub struct Formed {
    copied: Copied,
    traces: Traces,
}

impl Model for Formed {
    ghost use Rattle.tac_core.specs.Traces.{FormedProgram, AreFormed};

    ghost Value = { FormedProgram };

    ghost view = { λ f. record { copied = f.copied; traces = f.traces } };

    ghost invariant = { λ f. AreFormed f.copied.tac.funcs f.traces };
}

impl Formed {
    ghost use Rattle.std.specs.Prelude.{◌≡◌};
    ghost use Rattle.tac_core.specs.Traces.{FormedProgram, AreFormed};

    pub fn keep(copied: Copied, traces: Traces) -> Formed
        requires { AreFormed copied.tac.funcs traces }
        ensures { result ≡ record { copied = copied; traces = traces } }
    {
        Formed { copied, traces }
    }

    /// The copied program.
    pub fn copied(&self) -> &Copied
        ensures value { result.now ≡ self.now.copied }
        ensures formed { AreFormed self.now.copied.tac.funcs self.now.traces }
    {
        &self.copied
    }

    /// Its chains.
    pub fn traces(&self) -> &Traces
        ensures value { result.now ≡ self.now.traces }
        ensures formed { AreFormed self.now.copied.tac.funcs self.now.traces }
    {
        &self.traces
    }
}
