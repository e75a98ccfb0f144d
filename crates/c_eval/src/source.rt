ghost use Rattle.std.specs.Prelude.{◌≡◌, slice_index_or};

use c_program::Program;
use c_typed::{Function, Storage};
use c_values::in_frame;
use ib_base::Place;

/// What of a program a run needs: its functions with a body, the addresses of its globals and of the strings that are
/// laid out, the memory's bytes from 4096 on, and the places of its statements by their numbers.
#[derive(Drop)]
pub(crate) struct Source<'a> {
    pub functions: &'a [Function],
    pub globals: &'a [u32],
    pub strings: &'a [u32],
    pub image: &'a [u8],
    pub places: &'a [Place],
}

/// The number at an index, or 0.
fn number_at(numbers: &[u32], at: u32) -> u32
    ensures { result ≡ slice_index_or numbers.now at 0 }
{
    match numbers.get(at as usize) {
        Some(number) => *number,
        None => 0,
    }
}

impl<'a> Source<'a> {
    ghost use Rattle.std.specs.Prelude.{◌≡◌, ◌≤◌, pos, length, slice_index_or};
    ghost use Rattle.std.specs.List.{All};
    ghost use Rattle.c_typed.specs.Program.{place_of};
    ghost use Rattle.c_meaning.specs.Doing.{storage};
    ghost use Rattle.c_program.specs.Checked as c;
    ghost use Rattle.c_eval.specs.Programs.{program_of};

    pub(crate) fn new(program: &'a Program) -> Source<'a>
        ensures value { program_of result ≡ c.program program.now }
        ensures image { length result.image.now ≤ 524288 }
        ensures frames { All (λ f. f.frame ≤ 262144) result.functions.now }
    {
        let layout = program.layout();
        Source {
            functions: program.typed().functions.as_slice(),
            globals: layout.globals.as_slice(),
            strings: layout.strings.as_slice(),
            image: program.image(),
            places: program.statements(),
        }
    }

    /// The place of a statement.
    pub(crate) fn place(&self, number: u32) -> Place
        ensures { result ≡ place_of (program_of self.now) number }
    {
        match self.places.get(number as usize) {
            Some(place) => *place,
            None => Place { line: 1, col: 1 },
        }
    }

    /// The address of a string that is laid out.
    pub(crate) fn string(&self, ordinal: u32) -> i64
        ensures { result ≡ pos (slice_index_or (program_of self.now).strings ordinal 0) }
    {
        i64::from(number_at(self.strings, ordinal))
    }

    /// The address of what lies in memory, for a call whose frame begins at `base`.
    pub(crate) fn storage(&self, base: u32, of: Storage) -> i64
        ensures { result ≡ storage (program_of self.now) base of }
    {
        match of {
            Storage::Global(n) => i64::from(number_at(self.globals, n)),
            Storage::Frame(offset) => in_frame(base, offset),
        }
    }
}
