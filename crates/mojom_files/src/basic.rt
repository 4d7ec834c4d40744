//! The basic kinds, which need no definition.

ghost use Rattle.std.specs.Prelude.{◌≡◌};
ghost use Rattle.mojom_files.specs.Basics.{basic_of, basic_name};

/// A kind that is named by one identifier and needs no definition.
#[derive(Clone, Copy, PartialEq, Eq)]
pub enum Basic {
    Bool,
    Int8,
    Int16,
    Int32,
    Int64,
    Uint8,
    Uint16,
    Uint32,
    Uint64,
    Text,
    Float,
    Double,
}

impl Basic {
    ghost use Rattle.std.specs.Prelude.{◌≡◌};
    ghost use Rattle.mojom_files.specs.Basics.{basic_of, basic_name};

    /// The basic kind of this name; none exactly where no basic kind has it.
    pub fn of_name(name: &str) -> Option<Basic>
        ensures { result ≡ basic_of name.now }
    {
        match name {
            "bool" => Some(Basic::Bool),
            "int8" => Some(Basic::Int8),
            "int16" => Some(Basic::Int16),
            "int32" => Some(Basic::Int32),
            "int64" => Some(Basic::Int64),
            "uint8" => Some(Basic::Uint8),
            "uint16" => Some(Basic::Uint16),
            "uint32" => Some(Basic::Uint32),
            "uint64" => Some(Basic::Uint64),
            "string" => Some(Basic::Text),
            "float" => Some(Basic::Float),
            "double" => Some(Basic::Double),
            _ => None,
        }
    }

    /// The name of the kind, as types have it.
    pub fn name(self) -> &'static str
        ensures { result.now ≡ basic_name self }
    {
        match self {
            Basic::Bool => "bool",
            Basic::Int8 => "int8",
            Basic::Int16 => "int16",
            Basic::Int32 => "int32",
            Basic::Int64 => "int64",
            Basic::Uint8 => "uint8",
            Basic::Uint16 => "uint16",
            Basic::Uint32 => "uint32",
            Basic::Uint64 => "uint64",
            Basic::Text => "string",
            Basic::Float => "float",
            Basic::Double => "double",
        }
    }
}
