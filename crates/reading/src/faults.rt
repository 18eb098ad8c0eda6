// The faults of a reader.
ghost use Rattle.std.specs.Prelude.{◌≡◌};
ghost use Rattle.reading.specs.Faults.{fault_number, read_fault};

use pieces::found::Fault;

// `Short` where the bytes only begin a report, `Unknown` where no report begins so, `Narrow` where its text has no room.
#[derive(Clone, Copy, Debug, PartialEq, Eq)]
pub enum ReadFault {
    Short = 11,
    Unknown = 12,
    Narrow = 13,
}

impl ReadFault {
    // The number of the refusal: a method, as other faults have it, since it is no other form of the fault.
    pub fn number(self) -> u8
        ensures { result ≡ fault_number self }
    {
        self as u8
    }
}

// `number`, as a function.
pub fn fault_number(fault: ReadFault) -> u8
    ensures { result ≡ fault_number fault }
{
    fault.number()
}

impl From<Fault> for ReadFault {
    ghost from_gives = { λ e r. r ≡ read_fault e };

    fn from(fault: Fault) -> ReadFault {
        match fault {
            Fault::Short => ReadFault::Short,
            Fault::Unknown => ReadFault::Unknown,
        }
    }
}
