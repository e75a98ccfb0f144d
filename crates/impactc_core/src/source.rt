ghost use Rattle.std.specs.Prelude.{◌≡◌, IfOk, IfErr, IsErrOf};
ghost use Rattle.ib_base.specs.World.{LacksFile};
ghost use Rattle.impactc_core.specs.Answers.{WorkCause};
ghost use Rattle.impactc_core.specs.Sources.{IsSource};
ghost use Rattle.impactc_core.specs.Work.{IsReadErr};

use crate::{CoreErr, Limit};
use ib_base::{Host, HostErr};
use impactc_words::FileName;
use std::alloc::Global;

/// The greatest size of a source, in bytes.
const SOURCE_LIMIT: usize = 1_048_576;

/// The bytes of a source within the limit.
pub fn read_source<H: Host>(
    alloc: Global,
    file: &FileName,
    host: &mut H,
) -> Result<Vec<u8>, CoreErr>
    ensures source { IfOk result (λ bytes. IsSource file.now (H.world host.old) bytes.items) }
    ensures refused { IfErr result (IsReadErr file.now (H.world host.old)) }
    ensures same_world { H.world host.new ≡ H.world host.old }
    ensures cause { WorkCause (H.faults host.old) (H.faults host.new) result }
    ensures still_sure { H.sure host.old → H.sure host.new }
    ensures missing { H.sure host.old → IsErrOf result CoreErr.HostFault → LacksFile
        (H.world host.old) file.now }
{
    match host.read_file(alloc, file.as_str(), SOURCE_LIMIT) {
        Ok(bytes) => {
            if bytes.len() > SOURCE_LIMIT {
                Err(CoreErr::TooLarge {
                    limit: Limit::Source,
                })
            } else {
                Ok(bytes)
            }
        }
        Err(HostErr::Failed) => Err(CoreErr::HostFault),
        Err(HostErr::NoMemory) => Err(CoreErr::NoMemory),
    }
}
