// The step of the main theorem, for every wire, layout and dialect.
ghost use Rattle.plain_seat.specs.Reading.{CallsGoOn};

// What a call does as the plain seat's step goes on from every history.
pub fn calls_go_on()
    ensures { CallsGoOn }
{}
