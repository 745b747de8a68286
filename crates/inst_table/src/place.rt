// Where an instance belongs, and what stands there.
ghost use Rattle.std.specs.Prelude.{◌≡◌};
ghost use Rattle.inst_table.specs.Places.{is_free};

/// An instance of a node, by its number. A node's shared instance has the number 0 and serves every worker. Any other
/// instance serves the worker of its number alone.
#[derive(Clone, Copy, Debug, PartialEq, Eq, Hash)]
pub struct Place {
    pub node: u32,
    pub instance: u32,
    pub shared: bool,
}

/// What stands at a place: the instance, or the worker that has it.
#[derive(Drop)]
pub enum Slot<I> {
    Free(I),
    Leased { by: u32 },
}

impl<I> Slot<I> {
    pub(crate) fn is_free(&self) -> bool
        ensures { result ≡ is_free self.now }
    {
        match self {
            Slot::Free(_) => true,
            Slot::Leased { by: _ } => false,
        }
    }
}
