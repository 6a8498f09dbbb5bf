// Laws of the lines.
ghost use Rattle.prefix_text.specs.Printing.{DumpsAreRead};

/// The lines that `dump` prints of entries are lines of `build`, and they give these entries, in their order.
pub fn dumps_are_read()
    ensures { DumpsAreRead }
{}
