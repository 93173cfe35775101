// The arrivals of an accepted file, read where they lie.
ghost use Rattle.std.specs.Prelude.{◌≡◌, ◌<◌};
ghost use Rattle.books.proofs.Accepted.{Accepted, next_stop};
ghost use Rattle.clock.specs.Clock.{moment};
ghost use Rattle.workfile.specs.Work.{work};

use arrival::Arrival;
use clock::Moment;

// Arrival k.
pub(crate) fn arrival_of(file: &[u8], k: usize) -> Arrival
    requires accepted { Accepted file.now }
    requires k_bound { k < (work file.now).arrivals }
    ensures { result ≡ (work file.now).arrival k }
{
    let h = workfile::header_of(file);
    listing::arrival_of(file, h, k)
}

// How far a run goes at most without an arrival, when it is told to end at `until`: up to the moment of arrival j.
pub(crate) fn next_stop(file: &[u8], until: Moment, j: usize) -> Moment
    requires { Accepted file.now }
    ensures { result ≡ moment (next_stop (work file.now) until.tick j) }
{
    let h = workfile::header_of(file);
    if j < h.arrivals.count {
        listing::arrival_of(file, h, j).moment.min(until)
    } else {
        until
    }
}
