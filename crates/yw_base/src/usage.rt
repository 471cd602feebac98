// How variables are used.
ghost use Rattle.std.specs.Prelude.{◌≡◌};
ghost use Rattle.yw_base.specs.Usages.{comes_in, goes_out};

/// Whether a variable's value comes from outside its net, and whether it is handed back. The passing of values is our own.
#[derive(Clone, Copy, Debug, PartialEq, Eq)]
pub enum Usage {
    /// A value comes in.
    In,
    /// The value goes out.
    Out,
    /// A value comes in, and the value goes out.
    InOut,
    /// Neither.
    Local,
}

impl Usage {
    /// A value comes in when the net begins.
    pub fn comes_in(self) -> bool
        ensures { result ≡ comes_in self }
    {
        match self {
            Usage::In | Usage::InOut => true,
            Usage::Out | Usage::Local => false,
        }
    }

    /// The value is handed back when the net ends.
    pub fn goes_out(self) -> bool
        ensures { result ≡ goes_out self }
    {
        match self {
            Usage::Out | Usage::InOut => true,
            Usage::In | Usage::Local => false,
        }
    }
}
