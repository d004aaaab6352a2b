// The law that the line of a measured call has the place of its entry.

ghost use Rattle.kernel_read.specs.Listed.{MeasuredReadsAreListed};

/// In each run that may be shown: if a module or firmware call is answered with `ok`, and the last
/// check before its grant measures, then the place in the call's line isn't `-`, and the entry
/// there is no violation and has the digest of the very content that the call has read.
pub fn measured_reads_are_listed()
    ensures { MeasuredReadsAreListed }
{}
