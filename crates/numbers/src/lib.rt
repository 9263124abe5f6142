// The number and the place of each answer.
#![tactic(auto)]

ghost use Rattle.std.specs.Prelude.{◌≡◌, ◌<◌};
ghost use Rattle.refusals.specs.Answer.{refuse};
ghost use Rattle.refusals.specs.Refusals.{refused_as, answer_of};
ghost use Rattle.cycles.specs.Outcome.{turned_as as need_as};
ghost use Rattle.founded.specs.Answers.{turned_as, call_of};

use cycles::NeedError;
use founded::CallError;
use refusals::Refusal;

// What a call that is turned away answers: the refusal's number and its place. A code has 16 bits for the number.
#[derive(Clone, Copy, Debug, PartialEq, Eq)]
pub struct Numbered {
    pub number: usize,
    pub place: usize,
    ghost few: { number < 65536 },
}

impl Numbered {
    // So that a refusal below is one row.
    fn new(number: usize, place: usize) -> Numbered
        requires { number < 65536 }
        ensures { (result.number ≡ number) × (result.place ≡ place) }
    {
        Numbered { number, place }
    }
}

// Document 01's number of each refusal: these rows are the conversion itself, and no derive has them. The casts: there is no `From<u32>` for usize, and `try_from` would want an error that
// can't come.
impl From<Refusal> for Numbered {
    ghost from_gives = { λ e told. refuse told.number told.place ≡ refused_as e };

    fn from(e: Refusal) -> Numbered {
        match e {
            Refusal::Edition => Numbered::new(1, 0),
            Refusal::Counts => Numbered::new(2, 0),
            Refusal::Size => Numbered::new(3, 0),
            Refusal::Node(n) => Numbered::new(4, n as usize),
            Refusal::Producer(p) => Numbered::new(5, p as usize),
            Refusal::Link(l) => Numbered::new(6, l as usize),
            Refusal::Back(i) => Numbered::new(14, i as usize),
            Refusal::Leaf(n) => Numbered::new(7, n as usize),
            Refusal::Head(p) => Numbered::new(8, p as usize),
            Refusal::Entries => Numbered::new(9, 0),
        }
    }
}

impl From<NeedError> for Numbered {
    ghost from_gives = { λ e told. refuse told.number told.place ≡ need_as e };

    fn from(e: NeedError) -> Numbered {
        match e {
            NeedError::Refused(refusal) => Numbered::from(refusal),
            NeedError::Work => Numbered::new(11, 0),
        }
    }
}

impl From<CallError> for Numbered {
    ghost from_gives = { λ e told. refuse told.number told.place ≡ turned_as e };

    fn from(e: CallError) -> Numbered {
        match e {
            CallError::Refused(refusal) => Numbered::from(refusal),
            CallError::Lengths => Numbered::new(10, 0),
            CallError::Work => Numbered::new(11, 0),
            CallError::Absorbed(n) => Numbered::new(12, n),
        }
    }
}

// The same of a whole answer: success has number 0 and place 0.
pub fn checked_number(checked: Result<(), Refusal>) -> usize
    ensures { (result ≡ (answer_of checked).number) × (result < 65536) }
{
    checked.err().map_or(0, |e| Numbered::from(e).number)
}

pub fn checked_place(checked: Result<(), Refusal>) -> usize
    ensures { result ≡ (answer_of checked).place }
{
    checked.err().map_or(0, |e| Numbered::from(e).place)
}

pub fn completed_number(answered: Result<(), CallError>) -> usize
    ensures { (result ≡ (call_of answered).number) × (result < 65536) }
{
    answered.err().map_or(0, |e| Numbered::from(e).number)
}

pub fn completed_place(answered: Result<(), CallError>) -> usize
    ensures { result ≡ (call_of answered).place }
{
    answered.err().map_or(0, |e| Numbered::from(e).place)
}
