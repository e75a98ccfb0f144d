use c_typed::Rule;
use ib_base::Place;

/// A rule that is broken, at its anchor.
#[derive(Clone, Copy)]
pub struct Breach {
    pub rule: Rule,
    pub place: Place,
}
