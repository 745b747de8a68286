// The end of a run over files.
ghost use Rattle.std.specs.Prelude.{◌≡◌, ◌-◌, length};
ghost use Rattle.avs_files.specs.Closed.{CountsFaults};

use crate::files::HeldFiles;
use seq_source::SeqSource;

/// Closes sources. The faults of each are then among those of the files.
pub fn close_all<H: HeldFiles>(files: &mut H, mut sources: Vec<SeqSource<H::Src>>)
    ensures fetched { H.fetched files.new ≡ H.fetched files.old }
    ensures given { H.given files.new ≡ H.given files.old - length sources.items }
    ensures faults { CountsFaults H.Src.Source sources.items (H.faults files.old) (H.faults files.new) }
    ensures world { H.world files.new ≡ H.world files.old }
    ensures borrow { H.borrow files.new ≡ H.borrow files.old }
{
    while let Some(source) = sources.pop() {
        files.close(source.into_source());
    }
    sources.destroy_empty();
}
