// How a function is linked, with the name of the module that it is imported from.
ghost use Rattle.std.specs.Prelude.{◌≡◌};
ghost use Rattle.zir_astgen.specs.Entering.{linked_core};
ghost use Rattle.zir_astgen.specs.Writing.{linkage_of};

use crate::source::Linkage;
use zw_base::Bytes;

/// How a function is linked.
#[derive(Debug, Drop)]
pub enum Linked {
    /// Within the module alone.
    Within,
    /// It is exported.
    Exported,
    /// It is imported from this module.
    External(Bytes),
}

impl Linked {
    /// The same by reference.
    pub fn linkage(&self) -> Linkage<'_>
        ensures { linkage_of result ≡ linked_core self.now }
    {
        match self {
            Linked::Within => Linkage::Within,
            Linked::Exported => Linkage::Exported,
            Linked::External(library) => Linkage::External(library.as_slice()),
        }
    }
}
