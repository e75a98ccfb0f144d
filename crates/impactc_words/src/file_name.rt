ghost use Rattle.std.specs.Prelude.{◌≡◌, IfOk};

use std::alloc::{AllocError, Global};
use std::fmt;
use std::marker::Model;

/// A file's name, which contracts see as the list of its bytes.
#[derive(Debug, Drop)]
pub struct FileName {
    name: String,
}

impl Model for FileName {
    ghost use Rattle.std.specs.Prelude.{List, ℕ, string_bytes};

    ghost Value = { List ℕ };

    ghost view = { λ file. string_bytes file.name };
}

impl FileName {
    pub fn new(alloc: Global, name: &str) -> Result<FileName, AllocError>
        ensures { IfOk result (λ file. file ≡ name.now) }
    {
        let name = String::from_str(alloc, name)?;
        Ok(FileName { name })
    }

    pub fn as_str(&self) -> &str
        ensures { result.now ≡ self.now }
    {
        self.name.as_str()
    }
}

impl fmt::Display for FileName {
    ghost use Rattle.std.specs.Prelude.{Some};

    ghost output = { λ file. Some file };

    fn fmt<W: fmt::Write>(&self, f: &mut fmt::Formatter<W>) -> fmt::Result {
        f.write_str(self.as_str())
    }
}
