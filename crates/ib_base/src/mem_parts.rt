ghost use Rattle.std.specs.Prelude.{◌≡◌, ◌++◌, None, take, IfSome, IfOk, OnOk, OnErr, IsErr, IsErrOf};
ghost use Rattle.ib_base.specs.Cause.{HasCause};
ghost use Rattle.ib_base.specs.World.{IsBeginning, AppendsPart};
ghost use Rattle.ib_base.specs.FaultPlan.{next_kept, after_call};

use crate::fault_plan::FaultPlan;
use crate::host::HostErr;
use crate::text::Text;
use std::alloc::Global;

/// The content, or its first `limit + 1` bytes where it is longer than `limit`.
pub(crate) fn beginning(alloc: Global, content: &[u8], limit: usize) -> Result<Vec<u8>, HostErr>
    ensures ok { IfOk result (λ bytes. IsBeginning content.now limit bytes.items) }
    ensures never { IsErrOf result HostErr.Failed → ⊥ }
{
    match Vec::from_slice(alloc, first_bytes(content, limit)) {
        Ok(bytes) => Ok(bytes),
        Err(_) => Err(HostErr::NoMemory),
    }
}

fn first_bytes(content: &[u8], limit: usize) -> &[u8]
    ensures { IsBeginning content.now limit result.now }
{
    if limit < content.len() {
        &content[..limit + 1]
    } else {
        content
    }
}

/// Appends to a text, or a part of the bytes where the plan lists the call.
pub(crate) fn append(plan: &mut FaultPlan, text: &mut Text, bytes: &[u8]) -> Result<(), HostErr>
    ensures ok { OnOk result (text.new ≡ text.old ++ bytes.now) }
    ensures err { OnErr result (AppendsPart text.old text.new bytes.now) }
    ensures cause { HasCause plan.old.faults plan.new.faults result }
    ensures plan { plan.new ≡ after_call result plan.old }
    ensures listed { IfSome (next_kept plan.old) (λ kept. IsErr result) }
    ensures kept { IfSome (next_kept plan.old) (λ kept. IsErrOf result HostErr.Failed → text.new ≡ text.old ++ take kept bytes.now) }
    ensures unlisted { next_kept plan.old ≡ None → IsErrOf result HostErr.Failed → ⊥ }
{
    match plan.begin() {
        None => push(text, bytes),
        Some(kept) => {
            match push(text, &bytes[..kept.min(bytes.len())]) {
                Ok(()) => {
                    plan.raise();
                    Err(HostErr::Failed)
                }
                Err(error) => Err(error),
            }
        }
    }
}

fn push(text: &mut Text, bytes: &[u8]) -> Result<(), HostErr>
    ensures ok { OnOk result (text.new ≡ text.old ++ bytes.now) }
    ensures err { OnErr result (text.new ≡ text.old) }
    ensures never { IsErrOf result HostErr.Failed → ⊥ }
{
    match text.push_bytes(bytes) {
        Ok(()) => Ok(()),
        Err(_) => Err(HostErr::NoMemory),
    }
}
