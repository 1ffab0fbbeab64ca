//! What errors call the classes of values and the number types, and an argument that may be missing.

use std::fmt;

/// The class of a value. It prints the class's name.
#[derive(Clone, Copy, Debug, PartialEq, Eq)]
pub enum ClassName {
    NoneType,
    Bool,
    Int,
    Str,
    Bytes,
    Tuple,
    List,
    Dict,
    /// The class of every handle.
    Object,
}

impl fmt::Display for ClassName {
    ghost use Rattle.std.specs.Prelude.{Some};
    ghost use Rattle.py_base.specs.Error.TypeNames.{class_text};

    ghost output = { λ class. Some (class_text class) };

    fn fmt<W: fmt::Write>(&self, f: &mut fmt::Formatter<W>) -> fmt::Result {
        match self {
            ClassName::NoneType => f.write_str("NoneType"),
            ClassName::Bool => f.write_str("bool"),
            ClassName::Int => f.write_str("int"),
            ClassName::Str => f.write_str("str"),
            ClassName::Bytes => f.write_str("bytes"),
            ClassName::Tuple => f.write_str("tuple"),
            ClassName::List => f.write_str("list"),
            ClassName::Dict => f.write_str("dict"),
            ClassName::Object => f.write_str("object"),
        }
    }
}

/// An integer type of Rust. It prints the type's name.
#[derive(Clone, Copy, Debug, PartialEq, Eq)]
pub enum PrimitiveName {
    I8,
    I16,
    I32,
    I64,
    I128,
    U8,
    U16,
    U32,
    U64,
    U128,
    Isize,
    Usize,
}

impl fmt::Display for PrimitiveName {
    ghost use Rattle.std.specs.Prelude.{Some};
    ghost use Rattle.py_base.specs.Error.TypeNames.{primitive_text};

    ghost output = { λ name. Some (primitive_text name) };

    fn fmt<W: fmt::Write>(&self, f: &mut fmt::Formatter<W>) -> fmt::Result {
        match self {
            PrimitiveName::I8 => f.write_str("i8"),
            PrimitiveName::I16 => f.write_str("i16"),
            PrimitiveName::I32 => f.write_str("i32"),
            PrimitiveName::I64 => f.write_str("i64"),
            PrimitiveName::I128 => f.write_str("i128"),
            PrimitiveName::U8 => f.write_str("u8"),
            PrimitiveName::U16 => f.write_str("u16"),
            PrimitiveName::U32 => f.write_str("u32"),
            PrimitiveName::U64 => f.write_str("u64"),
            PrimitiveName::U128 => f.write_str("u128"),
            PrimitiveName::Isize => f.write_str("isize"),
            PrimitiveName::Usize => f.write_str("usize"),
        }
    }
}

/// An argument that a caller may leave out.
#[derive(Clone, Copy, Debug, Drop, PartialEq, Eq)]
pub enum OptionalArg<T> {
    Present(T),
    Missing,
}
