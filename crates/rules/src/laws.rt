// The laws of what is told, for every layout, setting and event.
ghost use Rattle.rules.specs.Laws.{ToldClear, OwnNumber, FixedTell, KeysApart};

// Where escape codes are disambiguated, what is told is clear.
pub fn told_clear()
    ensures { ToldClear }
{}

// The number of a character key's sequence is its own base, and stands for no other key.
pub fn own_number()
    ensures { OwnNumber }
{}

// Arrows, Home, End, the editing keys and F1 to F24 are told apart by number and final, direction and modifier sum.
pub fn keys_apart()
    ensures sequences { FixedTell }
    ensures apart { KeysApart }
{}
