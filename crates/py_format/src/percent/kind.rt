//! What a template is of.

ghost use Rattle.std.specs.Prelude.{◌≡◌};
ghost use Rattle.py_format.specs.Percent.Values.{is_binary};

/// What a template is of: its units are code points or bytes.
#[derive(Clone, Copy, Debug)]
pub enum Kind {
    Text,
    Binary,
}

impl Kind {
    /// Whether the template is of bytes.
    pub fn is_binary(self) -> bool
        ensures { result ≡ is_binary self }
    {
        match self {
            Kind::Text => false,
            Kind::Binary => true,
        }
    }
}
