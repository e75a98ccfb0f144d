ghost use Rattle.std.specs.Prelude.{◌≡◌, IfOk};
ghost use Rattle.c_typed.specs.declared.types.ValueType.TheVariants as v;
ghost use Rattle.c_typed.specs.ValueTypes.{int, long, pointer_to, pointee, base_size, size_of, is_void, is_integer, is_pointer, leads, base_number, same_type, is_long, promoted_rank, common_rank, ranked};

use crate::operation::Rank;
use c_ast::Base;
use std::alloc::AllocError;

/// The type of a value.
#[derive(Clone, Copy)]
pub enum ValueType {
    /// `void` is the type of calls alone.
    Base(Base),
    /// At least one star.
    Pointer { to: Base, stars: u32 },
    /// `NULL`, where nothing gives it a pointer's type.
    Null,
}

pub const INT: ValueType = ValueType::Base(Base::Int);

pub const LONG: ValueType = ValueType::Base(Base::Long);

fn base_size(base: Base) -> u32
    ensures { result ≡ base_size base }
{
    match base {
        Base::Void | Base::Char => 1,
        Base::Int => 4,
        Base::Long => 8,
    }
}

fn base_number(base: Base) -> u8
    ensures { result ≡ base_number base }
{
    match base {
        Base::Void => 0,
        Base::Char => 1,
        Base::Int => 2,
        Base::Long => 3,
    }
}

impl ValueType {
    /// One star more. More stars than a `u32` counts find no memory.
    pub fn pointer_to(self) -> Result<ValueType, AllocError>
        ensures { IfOk result (λ ty. ty ≡ pointer_to self) }
    {
        match self {
            ValueType::Base(to) => Ok(ValueType::Pointer { to, stars: 1 }),
            ValueType::Pointer { to, stars } => Ok(ValueType::Pointer {
                to,
                stars: stars.checked_add(1).ok_or(AllocError)?,
            }),
            ValueType::Null => Ok(ValueType::Null),
        }
    }

    /// One star less; any other type stays as it is.
    pub fn pointee(self) -> ValueType
        ensures { result ≡ pointee self }
    {
        match self {
            ValueType::Pointer { to, stars } if stars > 1 => ValueType::Pointer {
                to,
                stars: stars - 1,
            },
            ValueType::Pointer { to, .. } => ValueType::Base(to),
            other => other,
        }
    }

    /// In bytes.
    pub fn size(self) -> u32
        ensures { result ≡ size_of self }
    {
        match self {
            ValueType::Base(base) => base_size(base),
            ValueType::Pointer { .. } | ValueType::Null => 8,
        }
    }

    /// Whether it is the type of calls that give no value.
    pub fn is_void(self) -> bool
        ensures { result ≡ is_void self }
    {
        matches!(self, ValueType::Base(Base::Void))
    }

    pub fn is_integer(self) -> bool
        ensures { result ≡ is_integer self }
    {
        matches!(self, ValueType::Base(Base::Char | Base::Int | Base::Long))
    }

    /// Whether it is a pointer, `NULL` included.
    pub fn is_pointer(self) -> bool
        ensures { result ≡ is_pointer self }
    {
        !matches!(self, ValueType::Base(_))
    }

    /// Whether it is a pointer that leads to a type.
    pub fn leads(self) -> bool
        ensures { result ≡ leads self }
    {
        matches!(self, ValueType::Pointer { .. })
    }

    pub fn is_same(self, other: ValueType) -> bool
        ensures { result ≡ same_type self other }
    {
        match self {
            ValueType::Base(base) => is_base(base, other),
            ValueType::Pointer { to, stars } => is_pointer_to(to, stars, other),
            ValueType::Null => matches!(other, ValueType::Null),
        }
    }

    pub fn is_long(self) -> bool
        ensures { result ≡ is_long self }
    {
        matches!(self, ValueType::Base(Base::Long))
    }

    /// What an integer is promoted to.
    pub fn promoted(self) -> Rank
        ensures { result ≡ promoted_rank self }
    {
        if self.is_long() {
            Rank::Long
        } else {
            Rank::Int
        }
    }

    /// What two integers are converted to (the usual arithmetic conversions).
    pub fn common(self, other: ValueType) -> Rank
        ensures { result ≡ common_rank self other }
    {
        if self.is_long() || other.is_long() {
            Rank::Long
        } else {
            Rank::Int
        }
    }
}

fn is_base(base: Base, other: ValueType) -> bool
    ensures { result ≡ same_type (v.Base base) other }
{
    match other {
        ValueType::Base(b) => base_number(base) == base_number(b),
        _ => false,
    }
}

fn is_pointer_to(base: Base, stars: u32, other: ValueType) -> bool
    ensures { result ≡ same_type (v.Pointer base stars) other }
{
    match other {
        ValueType::Pointer { to, stars: n } => base_number(base) == base_number(to) && stars == n,
        _ => false,
    }
}

impl Rank {
    pub fn value_type(self) -> ValueType
        ensures { result ≡ ranked self }
    {
        match self {
            Rank::Int => INT,
            Rank::Long => LONG,
        }
    }
}
