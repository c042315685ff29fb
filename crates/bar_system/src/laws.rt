//! What follows from histories of calls on files.
ghost use Rattle.bar_system.specs.Fitting.{SomeContentFits};

/// If each file was read only before it was written, and every read of it gave the same bytes, then some initial content of the files fits
/// all reads.
pub fn some_content_fits()
    ensures { SomeContentFits }
{}
