// What holds of each run of a text, whether or not it is the program's.
ghost use Rattle.buffer_measure.specs.Alone.{RunsAlone};
ghost use Rattle.buffer_measure.specs.Print.{PrintDetermines};

/// A run with at most one caller is the fold of its buffers: each is added unless the list already
/// has the same entry.
pub fn runs_alone()
    ensures { RunsAlone }
{}

/// Two runs of one text that are printed alike are one run.
pub fn print_determines()
    ensures { PrintDetermines }
{}
