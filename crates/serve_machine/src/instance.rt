// Which instance of a node a worker uses.
ghost use Rattle.std.specs.Prelude.{◌≡◌};
ghost use Rattle.serve_machine.specs.Events.{instance_in};

/// The number of the instance that a worker uses at a node of this mode: 0 in mode 3, MT_SERIALIZED, where one instance
/// serves all workers, and else the worker's own.
pub fn instance_for(mode: u8, worker: u32) -> u32
    ensures { result ≡ instance_in mode worker }
{
    if mode == 3 { 0 } else { worker }
}
