// An answer as one number for C: a refusal's number in the high half, its place in the low one; success is 0. The code of a graph on 16-bit words has 32 bits, that of a graph
// on 32-bit words 64.
ghost use Rattle.std.specs.Prelude.{ℕ, ◌<◌, ◌≤◌};
ghost use Rattle.std.proofs.Common.{arith};
ghost use Rattle.refusals.specs.Answer.{refuse};
ghost use Rattle.refusals.specs.Refusals.{answer_of};
ghost use Rattle.compare.specs.Comparison.{comparison_of};
ghost use Rattle.cycles.specs.Outcome.{outcome_of};
ghost use Rattle.founded.specs.Answers.{call_of};
ghost use Rattle.within.specs.WithinAnswers.{within_of};
ghost use Rattle.undecided.specs.Answers.{open_of};
ghost use Rattle.branch.specs.Answers.{branch_of};
ghost use Rattle.abi.specs.Codes.{Tells, NeedTells, Placed, ComparisonTells, ComparisonPlaced};

use branch::BranchError;
use cycles::NeedError;
use founded::CallError;
use numbers::Numbered;
use refusals::Refusal;
use std::cmp::Ordering;
use undecided::OpenError;
use within::WithinError;

pub trait Code: Copy {
    ghost value: { Self → ℕ };

    // A place is below it.
    ghost limit: { ℕ };

    // Number and place are what the header puts in the two halves: a code is made of nothing else.
    fn of(number: usize, place: usize) -> Self
        requires { (number < 65536) × (place < limit) }
        ensures { Tells limit (refuse number place) (value result) };

    ghost three: { 3 ≤ limit };
}

// The C interface has a code of 32 bits and one of 64, so there are two impls, and each is the header's formula with its own base. Their `requires` keeps the sum within the code, so
// the cast is exact; `try_from` would want an error that can't come.
impl Code for u32 {
    ghost value = { λ code. code };

    ghost limit = { 65536 };

    ghost three = { omega arith };

    fn of(number: usize, place: usize) -> u32 {
        (number * 65536 + place) as u32
    }
}

impl Code for u64 {
    ghost value = { λ code. code };

    ghost limit = { 4294967296 };

    ghost three = { omega arith };

    fn of(number: usize, place: usize) -> u64 {
        (number * 4294967296 + place) as u64
    }
}

// This and `call_code` are one call each, over the functions that numbers has for the answer: a trait over both answers would be longer.
pub fn checked_code<C: Code>(checked: Result<(), Refusal>) -> C
    requires { (answer_of checked).place < C.limit }
    ensures { Tells C.limit (answer_of checked) (C.value result) }
{
    C::of(
        numbers::checked_number(checked),
        numbers::checked_place(checked),
    )
}

pub fn needed_code<C: Code>(needed: Result<bool, NeedError>) -> C
    requires { Placed C.limit (outcome_of needed) }
    ensures { NeedTells C.limit (outcome_of needed) (C.value result) }
{
    match needed {
        Ok(false) => C::of(0, 0),
        Ok(true) => C::of(0, 1),
        Err(e) => {
            let told = Numbered::from(e);
            C::of(told.number, told.place)
        }
    }
}

// Preparation and pass.
pub fn call_code<C: Code>(answered: Result<(), CallError>) -> C
    requires { (call_of answered).place < C.limit }
    ensures { Tells C.limit (call_of answered) (C.value result) }
{
    C::of(
        numbers::completed_number(answered),
        numbers::completed_place(answered),
    )
}

// The comparison: a refusal has the check's code.
pub fn compared_code<C: Code>(compared: Result<Ordering, Refusal>) -> C
    requires { ComparisonPlaced C.limit (comparison_of compared) }
    ensures { ComparisonTells C.limit (comparison_of compared) (C.value result) }
{
    match compared {
        Ok(Ordering::Equal) => C::of(0, 0),
        Ok(Ordering::Less) => C::of(0, 1),
        Ok(Ordering::Greater) => C::of(0, 2),
        Err(e) => checked_code(Err(e)),
    }
}

// The pass within an allowance.
pub fn within_code<C: Code>(answered: Result<(), WithinError>) -> C
    requires { (within_of answered).place < C.limit }
    ensures { Tells C.limit (within_of answered) (C.value result) }
{
    match answered {
        Ok(()) => C::of(0, 0),
        Err(WithinError::Call(e)) => {
            let told = Numbered::from(e);
            C::of(told.number, told.place)
        }
        Err(WithinError::Allowance) => C::of(15, 0),
    }
}

// The call over all choices of undecided bits.
pub fn open_code<C: Code>(answered: Result<(), OpenError>) -> C
    requires { (open_of answered).place < C.limit }
    ensures { Tells C.limit (open_of answered) (C.value result) }
{
    match answered {
        Ok(()) => C::of(0, 0),
        Err(OpenError::Refused(e)) => {
            let told = Numbered::from(e);
            C::of(told.number, told.place)
        }
        Err(OpenError::Lengths) => C::of(10, 0),
        Err(OpenError::Both) => C::of(21, 0),
        Err(OpenError::Work) => C::of(11, 0),
        Err(OpenError::Absorbed(n)) => C::of(12, n),
    }
}

// A search branch.
pub fn branched_code<C: Code>(answered: Result<(), BranchError>) -> C
    requires { (branch_of answered).place < C.limit }
    ensures { Tells C.limit (branch_of answered) (C.value result) }
{
    match answered {
        Ok(()) => C::of(0, 0),
        Err(BranchError::Refused(e)) => {
            let told = Numbered::from(e);
            C::of(told.number, told.place)
        }
        Err(BranchError::Pairs) => C::of(13, 0),
        Err(BranchError::Lengths) => C::of(10, 0),
        Err(BranchError::Work) => C::of(11, 0),
        Err(BranchError::Absorbed(n)) => C::of(12, n),
    }
}
