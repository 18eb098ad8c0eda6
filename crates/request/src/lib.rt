// A host's requests, read one byte at a time.
#![tactic(auto)]

ghost use Rattle.std.specs.Prelude.{◌≡◌, ℕ, List, [], ◌∷◌, ◌++◌, MatchOption};
ghost use Rattle.request.specs.declared.State.{State};
ghost use Rattle.request.specs.Steps.{more, stands as standing, ends as ending, spoiled, step};
ghost use Rattle.request.specs.Reading.{Ended, Hears, OneWay, ended};

pub mod resuming;

// What a host asks for: flags, a count, flags with a mode, or the setting in force.
// Whole numbers, as a host sends them, so that unlisted flags or an unlisted mode can come.
#[derive(Clone, Copy, Debug, PartialEq, Eq)]
pub enum Request {
    Push(u16),
    Pop(u16),
    Set(u16, u16),
    Query,
}

// The byte goes on with no request.
#[derive(Clone, Copy, Debug, PartialEq, Eq)]
pub enum Fault {
    Misfit = 12,
}

impl Fault {
    // The number by which documents and programs know the fault.
    pub fn number(self) -> u8
        ensures { result ≡ 12 }
    {
        self as u8
    }
}

// How much of a request has been read.
#[derive(Clone, Copy, Debug, PartialEq, Eq)]
enum State {
    Start,
    Escape,
    Bracket,
    Query,
    Push(Option<u16>),
    Pop(Option<u16>),
    Set(Option<u16>),
    Mode(u16, Option<u16>),
}

// One more digit at the end of a number that may not be there yet.
// Not by `parse`: digits come one at a time, make up to sixteen bits, and have no sign in front.
fn with_digit(n: Option<u16>, byte: u8) -> Option<u16>
    ensures { result ≡ more n byte }
{
    if !byte.is_ascii_digit() {
        return None;
    }
    n.unwrap_or(0)
        .checked_mul(10)?
        .checked_add(u16::from(byte - b'0'))
}

#[derive(Drop)]
pub struct Reader {
    state: State,
}

impl Reader {
    // No byte read. A string of bytes holds its requests in one way only.
    pub fn new() -> Reader
        ensures hears { Hears result.state [] [] }
        ensures one_way { OneWay }
    {
        Reader {
            state: State::Start,
        }
    }

    // More is to come.
    fn stands(&mut self, state: State) -> Result<Option<Request>, Fault>
        ensures { (self.new.state, result) ≡ standing state }
    {
        self.state = state;
        Ok(None)
    }

    // A request ends.
    fn ends(&mut self, request: Request) -> Result<Option<Request>, Fault>
        ensures { (self.new.state, result) ≡ ending request }
    {
        self.state = State::Start;
        Ok(Some(request))
    }

    // A misfit starts over; a misfit ESC begins a request.
    fn misfit(&mut self, byte: u8) -> Result<Option<Request>, Fault>
        ensures { (self.new.state, result) ≡ spoiled byte }
    {
        self.state = if byte == 0x1b {
            State::Escape
        } else {
            State::Start
        };
        Err(Fault::Misfit)
    }

    // One digit more of a number, in the state that holds it; any other byte is a misfit.
    fn digit<F: FnOnce(Option<u16>) -> State>(
        &mut self,
        n: Option<u16>,
        byte: u8,
        holds: F,
    ) -> Result<Option<Request>, Fault>
        requires { F.IsAlwaysCallable holds }
        ensures { MatchOption (more n byte) ((self.new.state, result) ≡ spoiled byte) (λ m. (state : State) × F.post holds (Some m) state × ((self.new.state, result) ≡ standing state)) }
    {
        match with_digit(n, byte) {
            Some(m) => self.stands(holds(Some(m))),
            None => self.misfit(byte),
        }
    }

    // By the state and the byte together.
    fn step(&mut self, byte: u8) -> Result<Option<Request>, Fault>
        ensures { (self.new.state, result) ≡ step self.old.state byte }
    {
        match (self.state, byte) {
            (State::Start, 0x1b) => self.stands(State::Escape),
            (State::Escape, b'[') => self.stands(State::Bracket),
            (State::Bracket, b'>') => self.stands(State::Push(None)),
            (State::Bracket, b'<') => self.stands(State::Pop(None)),
            (State::Bracket, b'=') => self.stands(State::Set(None)),
            (State::Bracket, b'?') => self.stands(State::Query),
            (State::Query, b'u') => self.ends(Request::Query),
            (State::Push(n), b'u') => self.ends(Request::Push(n.unwrap_or(0))),
            (State::Pop(n), b'u') => self.ends(Request::Pop(n.unwrap_or(1))),
            (State::Set(n), b'u') => self.ends(Request::Set(n.unwrap_or(0), 1)),
            (State::Set(n), b';') => self.stands(State::Mode(n.unwrap_or(0), None)),
            (State::Mode(f, n), b'u') => self.ends(Request::Set(f, n.unwrap_or(1))),
            (State::Push(n), _) => self.digit(n, byte, State::Push),
            (State::Pop(n), _) => self.digit(n, byte, State::Pop),
            (State::Set(n), _) => self.digit(n, byte, State::Set),
            (State::Mode(f, n), _) => self.digit(n, byte, |m| State::Mode(f, m)),
            _ => self.misfit(byte),
        }
    }

    // Takes one byte in: nothing yet, the request that it ends, or a misfit. After every string of bytes, what
    // ended is what the string holds.
    pub fn feed(&mut self, byte: u8) -> Result<Option<Request>, Fault>
        ensures step { (self.new.state, result) ≡ step self.old.state byte }
        ensures hears { (bs : List ℕ) (es : List Ended) → Hears self.old.state bs es → Hears self.new.state (bs ++ byte ∷ []) (es ++ ended result) }
    {
        self.step(byte)
    }
}
