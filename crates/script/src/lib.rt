// A list of calls, made of a seat one after another.
#![tactic(auto)]

ghost use Rattle.std.specs.Prelude.{◌≡◌, ◌≤◌, min, [], length, take, drop};
ghost use Rattle.plain_seat.specs.Reading.{Steps, GoesOn};
ghost use Rattle.seat.specs.Seats.{view_of, counted};
ghost use Rattle.script.specs.Scripts.{call_of, handed as handedBy, moved_by, Replayed};

use dialect::dialect::Dialect;
use input_types::event::KeyEvent;
use layout::Layout;
use seat::refusal::Refusal;
use seat::seat::Seat;
use wire::Wire;

// A call with its arguments; a drain says how many bytes it asks for.
// Whole numbers, as a caller sends them, so that an unlisted setting, mode or screen can come and is refused.
#[derive(Drop)]
pub enum Call<'a> {
    Key(KeyEvent<'a>),
    Push(u32),
    Pop(usize),
    Set(u32, u32),
    Screen(usize),
    Query,
    Drain(usize),
}

// Makes one call, and answers its count; what a drain hands over stands at the front of the buffer, whose rest
// stays.
pub fn make<W: Wire, L: Layout, D: Dialect>(
    seat: &mut Seat<W, L, D>,
    call: &Call,
    buffer: &mut [u8],
) -> Result<usize, Refusal>
    ensures steps { Steps (view_of W.Wire L.Layout D.Dialect seat.old) (call_of (length buffer.old) call.now) (counted result) (moved_by call.now result buffer.new) (view_of W.Wire L.Layout D.Dialect seat.new) }
    ensures reading { GoesOn (view_of W.Wire L.Layout D.Dialect seat.old) (call_of (length buffer.old) call.now) (counted result) (moved_by call.now result buffer.new) (view_of W.Wire L.Layout D.Dialect seat.new) }
    ensures rest { drop (handedBy call.now result) buffer.new ≡ drop (handedBy call.now result) buffer.old }
    ensures room { handedBy call.now result ≤ length buffer.old }
    ensures keeps { W.keeps seat.old.wire seat.new.wire }
{
    match call {
        Call::Key(event) => seat.key(event),
        Call::Push(flags) => seat.push(*flags).map(|()| 0),
        Call::Pop(n) => seat.pop(*n).map(|()| 0),
        Call::Set(flags, mode) => seat.set(*flags, *mode).map(|()| 0),
        Call::Screen(screen) => seat.screen(*screen).map(|()| 0),
        Call::Query => seat.query(),
        Call::Drain(room) => {
            let n = buffer.len().min(*room);
            Ok(seat.drain(&mut buffer[..n]))
        }
    }
}

// How many bytes an answered call handed over.
pub fn handed(call: &Call, answer: Result<usize, Refusal>) -> usize
    ensures { result ≡ handedBy call.now answer }
{
    match call {
        Call::Drain(_) => answer.unwrap_or(0),
        Call::Key(_)
        | Call::Push(_)
        | Call::Pop(_)
        | Call::Set(_, _)
        | Call::Screen(_)
        | Call::Query => 0,
    }
}

// What a list of calls leaves: the seat, how many calls were made, and how many bytes they drained.
// Counts beside the rows that the caller lends: a seat allocates nothing.
#[derive(Drop)]
pub struct Finished<W, L, D> {
    pub seat: Seat<W, L, D>,
    pub made: usize,
    pub drained: usize,
}

// Opens a seat and makes the calls in order, as many as there is room for answers. The answers stand in the front
// of their row, the drained bytes one after another in the front of the buffer, and the rest of both stays. Over an
// empty wire, the bytes of the whole history have one reading then.
pub fn replay<W: Wire, L: Layout, D: Dialect>(
    wire: W,
    layout: L,
    dialect: D,
    calls: &[Call],
    answers: &mut [Result<usize, Refusal>],
    buffer: &mut [u8],
) -> Finished<W, L, D>
    ensures made { result.made ≡ min (length calls.now) (length answers.old) }
    ensures terms { (view_of W.Wire L.Layout D.Dialect result.seat).terms ≡ record { base = L.base layout; bytes = D.bytes dialect; capacity = W.capacity wire } }
    ensures reading { W.waiting wire ≡ [] → Replayed (view_of W.Wire L.Layout D.Dialect result.seat) (length buffer.old) (take result.made calls.now) (take result.made answers.new) (take result.drained buffer.new) }
    ensures within { result.drained ≤ length buffer.old }
    ensures answers_rest { drop result.made answers.new ≡ drop result.made answers.old }
    ensures buffer_rest { drop result.drained buffer.new ≡ drop result.drained buffer.old }
{
    let mut seat = Seat::open(wire, layout, dialect);
    let made = calls.len().min(answers.len());
    let mut drained = 0;
    for (i, call) in calls[..made].iter().enumerate() {
        let answer = make(&mut seat, call, &mut buffer[drained..]);
        drained += handed(call, answer);
        // Written by its place: what is written through a zip with iter_mut is not known afterwards.
        answers[i] = answer;
    }
    Finished {
        seat,
        made,
        drained,
    }
}
