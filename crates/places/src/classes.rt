// What the class of a byte means to a place. `byte_class` alone decides the class.
ghost use Rattle.std.specs.Prelude.{◌≡◌, cond, ◌+◌, ◌<◌, ◌^◌};
ghost use Rattle.byte_class.specs.Bytes.{is_continuation};
ghost use Rattle.places.specs.Columns.{column_by};
ghost use Rattle.places.specs.Places.{run_class};
ghost use Rattle.places.specs.InternalFind.{passed_by};

use byte_class::{Class, is_continuation};

// The column behind a byte of a class.
pub(crate) fn column_by(class: Class, column: u32) -> u32
    requires { column + 8 < 2 ^ 32 }
    ensures { result ≡ column_by class column }
{
    match class {
        Class::Break => 0,
        Class::Tab => (column / 8 + 1) * 8,
        Class::Continuation => column,
        _ => column + 1,
    }
}

// Whether a byte of a class belongs to a run.
pub(crate) fn run_class(class: Class) -> bool
    ensures { result ≡ run_class class }
{
    matches!(class, Class::Digit | Class::Run | Class::Continuation)
}

// The columns of a byte of a run.
pub(crate) fn run_width(b: u8) -> u32
    ensures { result ≡ cond (is_continuation b) 0 1 }
{
    u32::from(!is_continuation(b))
}

// Whether a byte of a class begins and ends no token, where the line has had a token or not.
pub(crate) fn passed_by(class: Class, mark: bool) -> bool
    ensures { result ≡ passed_by class mark }
{
    match class {
        Class::Break => !mark,
        Class::Tab | Class::Blank | Class::Refused => true,
        _ => false,
    }
}
