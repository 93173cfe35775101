// The dispatcher of a file at its start.
ghost use Rattle.std.specs.Prelude.{◌≡◌};
ghost use Rattle.moments.specs.Moments.{at_moment};
ghost use Rattle.workfile.specs.Work.{work};

use dispatcher::Dispatcher;

pub(crate) fn start(file: &[u8]) -> Dispatcher
    ensures { result ≡ at_moment (work file.now) 0 }
{
    let h = workfile::header_of(file);
    dispatcher::at_start(listing::sheet_of(file, h))
}
