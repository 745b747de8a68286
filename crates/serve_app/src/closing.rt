// What is closed after a run: the sources of instances.
ghost use Rattle.std.specs.Prelude.{◌≡◌, ◌-◌, length};
ghost use Rattle.avs_files.specs.Closed.{CountsFaults};
ghost use Rattle.serve_core.specs.Tables.{AllFree};
ghost use Rattle.serve_worker.specs.Furnishing.{sources_in};

use avs_files::HeldFiles;
use inst_table::InstTable;
use serve_worker::Instance;

/// Closes the sources of a table that lends nothing. The faults of each are then among those of the files.
pub(crate) fn close_table<H: HeldFiles>(files: &mut H, mut table: InstTable<Instance<H::Src>>)
    requires free { AllFree table }
    ensures given { H.given files.new ≡ H.given files.old - length (sources_in table) }
    ensures faults { CountsFaults H.Src.Source (sources_in table) (H.faults files.old) (H.faults files.new) }
    ensures fetched { H.fetched files.new ≡ H.fetched files.old }
    ensures world { H.world files.new ≡ H.world files.old }
    ensures borrow { H.borrow files.new ≡ H.borrow files.old }
{
    while let Some(instance) = table.take_any() {
        match instance {
            Instance::Source(source) => files.close(source.into_source()),
            Instance::Scratch(_scratch) => {}
            Instance::Plain => {}
        }
    }
    table.destroy_empty();
}
