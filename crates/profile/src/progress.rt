use ib_base::{FaultKind, Place};

/// Whether a run goes on behind a step.
#[derive(Clone, Copy)]
pub(crate) enum Progress {
    Going,
    /// `main` returned.
    Done(i32),
    /// The program faulted.
    Broken { place: Place, kind: FaultKind },
}
