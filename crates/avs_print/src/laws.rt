// Laws of the text of scripts, each the contract of a function with an empty body.
ghost use Rattle.avs_print.specs.Laws.{PrintedIsRead};

/// The text of a script that was read is read as that script again, apart from lines.
pub fn printed_is_read()
    ensures { PrintedIsRead }
{}
