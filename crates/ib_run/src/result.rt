ghost use Rattle.std.specs.Prelude.{◌≡◌};
ghost use Rattle.ib_base.specs.declared.integers.Width.TheVariants.{W4};
ghost use Rattle.ib_base.specs.Integers.{wrapped};

use ib_base::{Width, wrap};

/// The result of a program whose `main` returns a number.
pub fn result_of(number: i64) -> i32
    ensures { result ≡ wrapped W4 number }
{
    wrap(Width::W4, i128::from(number)) as i32
}
