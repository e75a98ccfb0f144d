ghost use Rattle.std.specs.Prelude.{◌≡◌, OnOk, OnErr};
ghost use Rattle.std.specs.Option.{option_map};
ghost use Rattle.std.specs.FinMap as map;

use crate::text::Text;
use std::alloc::{AllocError, Global};
use std::collections::VecDeque;
use std::marker::Model;

/// The writes of files, the newest first, seen as the contents by the files' names.
#[derive(Drop)]
pub(crate) struct FileTable {
    writes: VecDeque<(Text, Text)>,
}

impl Model for FileTable {
    ghost use Rattle.std.specs.Coded.{coded_ℕ, coded_list};
    ghost use Rattle.std.specs.FinMap as map;
    ghost use Rattle.ib_base.specs.World.{Files};

    ghost Value = { Files };

    ghost coded = { map.code (coded_list coded_ℕ) (coded_list coded_ℕ) };

    ghost view = { λ table. map.from_entries table.writes.items };
}

impl FileTable {
    pub(crate) fn new(alloc: Global) -> FileTable
        ensures { result ≡ map.empty }
    {
        FileTable {
            writes: VecDeque::new(alloc),
        }
    }

    /// The file's content, where there is one of this name.
    #[tactic(auto, using(crate::proofs::Found::found_here, crate::proofs::Found::found_later))]
    pub(crate) fn get(&self, name: &[u8]) -> Option<&[u8]>
        ensures { option_map (λ content. content.now) result ≡ map.get self.now name.now }
    {
        for (written, content) in &self.writes {
            if written.is(name) {
                return Some(content.list());
            }
        }
        None
    }

    /// Makes a file, or gives it another content.
    pub(crate) fn set(
        &mut self,
        alloc: Global,
        name: &[u8],
        content: &[u8],
    ) -> Result<(), AllocError>
        ensures ok { OnOk result (self.new ≡ map.insert self.old name.now content.now) }
        ensures err { OnErr result (self.new ≡ self.old) }
    {
        let name = Text::from_bytes(alloc, name)?;
        let content = Text::from_bytes(alloc, content)?;
        self.writes.push_front((name, content))?;
        Ok(())
    }
}
