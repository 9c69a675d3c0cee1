// Why a call is refused, at which byte, the mark beside an answer, and the one function that meets a lent buffer.
// Every public call answers a value or one of the refusals, in an order that `refusing` of specs/ says.
#![tactic(auto)]

ghost use Rattle.std.specs.Prelude.{◌≡◌, [], false, Err};
ghost use Rattle.answer.specs.Faults.{unplaced};
ghost use Rattle.answer.specs.Refusals.{number};
ghost use Rattle.answer.specs.Marks.{marked, marks};
ghost use Rattle.answer.specs.Buffers.{written, buffer_after};

// The scope's thirteen in its order, and those that requests added.
#[derive(Clone, Copy, Debug, PartialEq, Eq)]
pub enum Refusal {
    Room,
    Shape,
    Year,
    Date,
    Clock,
    NoSecond,
    Range,
    Ask,
    Cut,
    Groups,
    Table,
    Tail,
    Number,
    Kernel,
    Card,
}

// The scope's number of a refusal.
impl From<Refusal> for u32 {
    ghost from_gives = { λ why n. n ≡ number why };

    fn from(why: Refusal) -> u32 {
        match why {
            Refusal::Room => 1,
            Refusal::Shape => 2,
            Refusal::Year => 3,
            Refusal::Date => 4,
            Refusal::Clock => 5,
            Refusal::NoSecond => 6,
            Refusal::Range => 7,
            Refusal::Ask => 8,
            Refusal::Cut => 9,
            Refusal::Groups => 10,
            Refusal::Table => 11,
            Refusal::Tail => 12,
            Refusal::Number => 13,
            Refusal::Kernel => 14,
            Refusal::Card => 15,
        }
    }
}

// Why a block or a file is refused, and the place of the byte at which that is seen.
#[derive(Clone, Copy, Debug, PartialEq, Eq)]
pub struct Fault {
    pub why: Refusal,
    pub at: usize,
}

// A refusal that is about no byte has the place 0.
impl From<Refusal> for Fault {
    ghost from_gives = { λ why fault. fault ≡ unplaced why };

    fn from(why: Refusal) -> Fault {
        Fault { why, at: 0 }
    }
}

// An answer and its mark: whether its month lies beyond the one that the table is vouched for.
#[derive(Clone, Copy)]
pub struct Marked<T> {
    pub answer: Result<T, Refusal>,
    pub beyond: bool,
}

impl<T: Copy> Marked<T> {
    // A refusal has no mark.
    pub fn new(answer: Result<T, Refusal>, beyond: bool) -> Marked<T>
        ensures { result ≡ marked answer beyond }
    {
        Marked {
            answer,
            beyond: answer.is_ok() & beyond,
        }
    }

    pub fn refused(why: Refusal) -> Marked<T>
        ensures { result ≡ marked (Err why) false }
    {
        Marked {
            answer: Err(why),
            beyond: false,
        }
    }
}

// The marks beside an answer as one number.
pub fn marks_of(beyond: bool) -> u32
    ensures { result ≡ marks beyond }
{
    u32::from(beyond)
}

// Writes all bytes to the front of a lent buffer, or none where they are too many.
pub fn write(bytes: &[u8], out: &mut [u8]) -> Result<usize, Refusal>
    ensures { (result ≡ written [] bytes.now out.old) × (out.new ≡ buffer_after [] bytes.now out.old) }
{
    if out.len() < bytes.len() {
        return Err(Refusal::Room);
    }
    out[..bytes.len()].copy_from_slice(bytes);
    Ok(bytes.len())
}
