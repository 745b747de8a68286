// Laws of the definitions, each the contract of a function with an empty body.
ghost use Rattle.fv_io.specs.Laws.{ReadsStopAtTrips};

/// No read of a source in memory passes the place of a failure that waits after the present number of rewinds, and a
/// read fails exactly where one waits at its place or before.
pub fn reads_stop_at_trips()
    ensures { ReadsStopAtTrips }
{}
