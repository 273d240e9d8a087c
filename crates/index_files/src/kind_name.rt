/// Tells the four kinds apart that label their own codes.
#[derive(Clone, Copy, Debug, PartialEq, Eq)]
pub enum KindName {
    Flat,
    Ivf,
    Hash,
    Multi,
}

impl KindName {
    ghost use Rattle.std.specs.Prelude.{◌≡◌};
    ghost use Rattle.index_files.specs.declared.start.Start.TheVariants.{Plain};
    ghost use Rattle.index_files.specs.Letters.{is_flat};

    pub(crate) fn is_flat(self) -> bool
        ensures { result ≡ is_flat (Plain self) }
    {
        match self {
            KindName::Flat => true,
            KindName::Ivf | KindName::Hash | KindName::Multi => false,
        }
    }
}
