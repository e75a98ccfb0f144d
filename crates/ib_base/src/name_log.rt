ghost use Rattle.std.specs.Prelude.{◌≡◌, ◌++◌, [], ◌∷◌};
ghost use Rattle.ib_base.specs.NameLog.{letters};

use std::marker::Model;
use std::mem;
use std::snapshot::Snapshot;

/// A byte of a name that contracts alone see, before the rest of that name.
#[derive(Drop)]
struct Letter {
    rest: Snapshot<Option<Letter>>,
    byte: u8,
}

/// A name that contracts alone see, behind the earlier ones.
#[derive(Drop)]
struct Entry {
    earlier: Snapshot<Option<Entry>>,
    name: Snapshot<Option<Letter>>,
}

/// A list of names that contracts alone see: it takes no memory.
#[derive(Drop)]
pub(crate) struct NameLog {
    newest: Snapshot<Option<Entry>>,
}

impl Model for NameLog {
    ghost use Rattle.std.specs.Prelude.{List, ℕ, reverse};

    ghost Value = { List (List ℕ) };

    ghost use Rattle.ib_base.specs.NameLog.{names};

    ghost view = { λ log. reverse (names log.newest.value) };
}

fn letters_of(name: &[u8]) -> Snapshot<Option<Letter>>
    ensures { letters result.value ≡ name.now }
{
    let mut rest = None;
    for byte in name.iter().rev() {
        rest = Some(Letter {
            rest: Snapshot::of(&rest),
            byte: *byte,
        });
    }
    Snapshot::of(&rest)
}

impl NameLog {
    pub(crate) fn new() -> NameLog
        ensures { result ≡ [] }
    {
        NameLog {
            newest: Snapshot::of(&None),
        }
    }

    /// Appends a name.
    pub(crate) fn push(&mut self, name: &[u8])
        ensures { self.new ≡ self.old ++ name.now ∷ [] }
    {
        let earlier = mem::replace(&mut self.newest, Snapshot::of(&None));
        let name = letters_of(name);
        self.newest = Snapshot::of(&Some(Entry { earlier, name }));
    }
}
