// A booking, Q ticks in every T, against the frame: whether it is faulty, and its share where it is not; and the booking sheet of a table,
// by which it is admitted.
#![tactic(auto)]

ghost use Rattle.std.specs.Prelude.{◌≤◌, ◌<◌, false, SomeIff, ◌≡◌};
ghost use Rattle.refusal.specs.Refusals.{on_paper};
ghost use Rattle.booking.specs.Admission.{admission, first_faulty};
ghost use Rattle.booking.specs.Share.{faulty_booking, share};
ghost use Rattle.booking.specs.Sheet.{left_of, table_on};
ghost use Rattle.booking.specs.Working.Foot.{foot_of};

use clock::Length;
use refusal::Refusal;

#[derive(Clone, Copy, PartialEq, Eq, Default, Debug)]
pub struct Booking {
    // Q
    pub budget: Length,
    // T
    pub period: Length,
}

// A booking sheet: the frame, and the bookings of a table one below the other. No Vec: the project has fixed memory, and no heap.
#[derive(Clone, Copy, PartialEq, Eq, Debug)]
pub struct Sheet {
    // H
    pub frame: Length,
    // How many bookings are on it.
    pub count: usize,
    pub bookings: [Booking; sizes::MOST_SERVERS],
}

// The verdict on the table of a sheet: 4 at the first faulty server, then 5.
pub fn admit(sheet: Sheet) -> Result<(), Refusal>
    ensures { on_paper result ≡ admission sheet.frame (table_on sheet) }
{
    foot_of(&sheet).map(|_| ())
}

// What the shares on a sheet leave of its frame; nothing where the table is not admitted, by its promise.
pub fn left_on(sheet: Sheet) -> Length
    ensures { result ≡ left_of sheet.frame (table_on sheet) }
{
    foot_of(&sheet).unwrap_or_default()
}

// The foot of a sheet: what is left of the frame, or the refusal. All bookings are looked at for a fault before the first share is taken
// off, so that an overrun hides none.
fn foot_of(sheet: &Sheet) -> Result<Length, Refusal>
    ensures { result ≡ foot_of sheet.now.frame (table_on sheet.now) }
{
    match first_faulty(sheet) {
        Some(first) => Err(Refusal::FaultyServer(first)),
        None => take_off(sheet),
    }
}

// The first booking that is faulty, where one is.
fn first_faulty(sheet: &Sheet) -> Option<usize>
    ensures { let first = first_faulty sheet.now.frame (table_on sheet.now) in SomeIff result (first < sheet.now.count) first }
{
    (0..sheet.count).find(|k| is_faulty(sheet.frame, booking_on(sheet, *k)))
}

// As the clerks do: they start from the frame and take each share off what is left.
fn take_off(sheet: &Sheet) -> Result<Length, Refusal>
    requires { sheet.now.count ≤ first_faulty sheet.now.frame (table_on sheet.now) }
    ensures { result ≡ foot_of sheet.now.frame (table_on sheet.now) }
{
    let mut left = sheet.frame.ticks;
    for at in 0..sheet.count {
        let share = share_of(sheet.frame, booking_on(sheet, at));
        left = left.checked_sub(share.ticks).ok_or(Refusal::Shares)?;
    }
    Ok(Length { ticks: left })
}

// The booking on line k of a sheet; behind the last one both numbers are 0.
fn booking_on(sheet: &Sheet, k: usize) -> Booking
    ensures { result ≡ (table_on sheet.now).booking k }
{
    sheet.bookings.get(k).copied().unwrap_or_default()
}

// The share of a booking that is not faulty. Q is at most T, so it is at most H, and nothing can overflow.
fn share_of(frame: Length, b: Booking) -> Length
    requires { faulty_booking frame b ≡ false }
    ensures { result ≡ share frame b }
{
    Length {
        ticks: b.budget.ticks * (frame.ticks / b.period.ticks),
    }
}

fn is_faulty(frame: Length, b: Booking) -> bool
    ensures { result ≡ faulty_booking frame b }
{
    let (h, q, t) = (frame.ticks, b.budget.ticks, b.period.ticks);
    t == 0 || h % t != 0 || q == 0 || t < q
}
