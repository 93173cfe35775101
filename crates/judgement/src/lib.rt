// The judgement of a work file by the refusals 1 to 9, in the order of the rules.
#![tactic(auto)]

ghost use Rattle.std.specs.Prelude.{◌≡◌, leb, ltb};
ghost use Rattle.refusal.specs.Refusals.{on_paper};
ghost use Rattle.workfile.specs.Work.{work_under};
ghost use Rattle.judgement.specs.Judgement.{length_out_of_range, sizes_out_of_range, layout_broken, judged};
ghost use Rattle.judgement.specs.Working.Arrivals.{list_judged};

use clock::Moment;
use refusal::Refusal;
use workfile::Header;

// The judgement of a file by 1 to 9, beside a finish list of so many places: its layout, then its table, then its arrivals.
pub fn judge(file: &[u8], places: usize) -> Result<(), Refusal>
    ensures { on_paper result ≡ judged file.now places }
{
    let bytes = file.len();
    if is_length_out_of_range(bytes) {
        return Err(Refusal::FileLength);
    }
    let h = workfile::header_of(file);
    if is_size_out_of_range(h) {
        return Err(Refusal::Sizes);
    }
    if is_layout_broken(h, bytes) {
        return Err(Refusal::Layout);
    }
    // A `match` and no `?`: the edit `other_faulty_server` spoils the refusal alone.
    match booking::admit(listing::sheet_of(file, h)) {
        Ok(()) => judge_arrivals(file, h, places),
        Err(why) => Err(why),
    }
}

// The arrivals in order, each by 6, 7, 8, then 9.
#[tactic(auto, using(crate::proofs::PassedLaws::passed_none, crate::proofs::PassedLaws::passed_faulty, crate::proofs::PassedLaws::passed_over, crate::proofs::PassedLaws::passed_whole))]
fn judge_arrivals(file: &[u8], h: Header, places: usize) -> Result<(), Refusal>
    ensures { on_paper result ≡ list_judged (work_under h file.now) places }
{
    let arrivals = h.arrivals.count;
    let mut before = Moment::default();
    for k in 0..arrivals {
        let a = listing::arrival_of(file, h, k);
        let now = a.moment;
        let faulty = arrival::is_faulty(h.servers.count, a.server, a.cost);
        if faulty {
            return Err(Refusal::FaultyArrival(k));
        }
        if is_backward(now, before) {
            return Err(Refusal::BackwardArrival(k));
        }
        if is_late(now, h.horizon) {
            return Err(Refusal::LateArrival(k));
        }
        before = now;
    }
    if places < arrivals {
        return Err(Refusal::FinishList);
    }
    Ok(())
}

// The test for 7. It and the test for 8 are functions of their own: the proof of the loop above then stands, whichever comparison is in them.
#[tactic(auto, using(clock::proofs::OrderLaws::less_is, clock::proofs::OrderLaws::at_most_is))]
fn is_backward(now: Moment, before: Moment) -> bool
    ensures { result ≡ ltb now.tick before.tick }
{
    now < before
}

// The test for 8.
#[tactic(auto, using(clock::proofs::OrderLaws::less_is, clock::proofs::OrderLaws::at_most_is))]
fn is_late(now: Moment, horizon: Moment) -> bool
    ensures { result ≡ leb horizon.tick now.tick }
{
    horizon <= now
}

// The test for 1.
fn is_length_out_of_range(bytes: usize) -> bool
    ensures { result ≡ length_out_of_range bytes }
{
    bytes < sizes::HEADER_BYTES || sizes::MOST_FILE < bytes
}

// The test for 2.
fn is_size_out_of_range(h: Header) -> bool
    ensures { result ≡ sizes_out_of_range h }
{
    h.frame.ticks < 1
        || sizes::MOST_FRAME < h.frame.ticks
        || sizes::CLOCK_END < h.horizon.tick
        || sizes::MOST_SERVERS < h.servers.count
        || sizes::MOST_ARRIVALS < h.arrivals.count
}

// The test for 3.
fn is_layout_broken(h: Header, bytes: usize) -> bool
    ensures { result ≡ layout_broken h bytes }
{
    h.servers.offset < sizes::HEADER_BYTES
        || listing::bookings_beyond(h, h.arrivals.offset)
        || listing::arrivals_beyond(h, bytes)
}
