// Why a C function refuses, whether reading its record stopped it or the operation did.
use cluster::refusal::Refusal;
use fields::Refused;
use layouts::check::Fault;

// A refusal, with the byte where reading gives it, and with the place where the operation does; the other is 0.
#[derive(Clone, Copy, PartialEq, Eq)]
pub struct Stopped {
    pub refusal: Refusal,
    pub byte: usize,
    pub place: u32,
}

// The numbers that every answer has: the refusal, 0 for none, its byte and its place.
#[derive(Clone, Copy)]
pub struct Told {
    pub refusal: u32,
    pub byte: u64,
    pub place: u32,
}

impl From<Refused> for Stopped {
    ghost use Rattle.std.specs.Prelude.{◌≡◌};
    ghost use Rattle.answers.specs.TermsStopped.{by_reading};

    ghost from_gives = { λ refused stopped. stopped ≡ by_reading refused };

    fn from(refused: Refused) -> Stopped {
        Stopped {
            refusal: refused.refusal,
            byte: refused.at,
            place: 0,
        }
    }
}

impl From<Fault> for Stopped {
    ghost use Rattle.std.specs.Prelude.{◌≡◌};
    ghost use Rattle.answers.specs.TermsStopped.{by_operation};

    ghost from_gives = { λ fault stopped. stopped ≡ by_operation fault };

    fn from(fault: Fault) -> Stopped {
        Stopped {
            refusal: fault.refusal,
            byte: 0,
            place: fault.place,
        }
    }
}

impl Told {
    ghost use Rattle.std.specs.Prelude.{◌≡◌};
    ghost use Rattle.answers.specs.TermsStopped.{told_of};

    // What is told of an operation's answer.
    pub fn of<T>(found: &Result<T, Stopped>) -> Told
        ensures { result ≡ told_of found.now }
    {
        match found {
            Ok(_) => Told {
                refusal: 0,
                byte: 0,
                place: 0,
            },
            Err(stopped) => Told {
                refusal: stopped.refusal.into(),
                byte: stopped.byte as u64,
                place: stopped.place,
            },
        }
    }
}
