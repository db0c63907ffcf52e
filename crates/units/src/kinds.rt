ghost use Rattle.std.specs.Prelude.{◌≡◌};
ghost use Rattle.units.specs.Kinds.{ones};

// "Tables get a kind, "plain" or "with one"." (Document 02, L5.) What a kind is stands in specs/Kinds.antt.
#[derive(Clone, Copy, Debug, PartialEq, Eq)]
pub enum Kind {
    Plain,
    WithOne,
}

impl Kind {
    // How many fields it has besides those of m bits: 1 where field 2^m is allowed, and else 0.
    pub fn ones(self) -> u32
        ensures { result ≡ ones self }
    {
        match self {
            Kind::Plain => 0,
            Kind::WithOne => 1,
        }
    }
}
