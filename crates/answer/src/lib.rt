// What every public call needs: the answer it gives, the refusals behind it, and the permitted lengths.
#![tactic(auto)]

ghost use Rattle.std.specs.Prelude.{◌≡◌, ◌+◌};
ghost use Rattle.answer.specs.Choice.{answer_of, answered};
ghost use Rattle.answer.specs.Lengths.{exponent_of};

// What a call answers, as C sees it: number and place; 0 and 0 where its work is done.
#[repr(C)]
#[derive(Clone, Copy, Debug, PartialEq, Eq)]
pub struct Answer {
    pub number: u32,
    pub place: usize,
}

// Why a call does nothing.
#[derive(Clone, Copy, Debug, PartialEq, Eq)]
pub enum Refusal {
    // 1: data is not N entries (2N in fixed point) for a permitted N.
    Length,
    // 2: m even, below 3, or above 2^31 - 1.
    Modulus,
    // 3: the table's length is not that of N; when filling or accepting alone, not that of any permitted N.
    TableLength,
    // 4: the first place at which a rule of the table fails.
    Entry(usize),
    // 5: the first place of a sample that is not permitted.
    Sample(usize),
    // 6: scratch not as long as data.
    Scratch,
    // 7: schedule not offered by this call.
    Schedule,
    // 8: stage not below n.
    Stage,
    // 9: no such house row.
    Row,
    // 10: the place at which a request cannot be read.
    Request(usize),
}

// The refusal's number, and its place, which is 0 where it names none.
impl From<Refusal> for Answer {
    ghost from_gives = { λ refusal answer. answer ≡ answer_of refusal };

    fn from(refusal: Refusal) -> Answer {
        let (number, place) = match refusal {
            Refusal::Length => (1, 0),
            Refusal::Modulus => (2, 0),
            Refusal::TableLength => (3, 0),
            Refusal::Entry(place) => (4, place),
            Refusal::Sample(place) => (5, place),
            Refusal::Scratch => (6, 0),
            Refusal::Schedule => (7, 0),
            Refusal::Stage => (8, 0),
            Refusal::Row => (9, 0),
            Refusal::Request(place) => (10, place),
        };
        Answer { number, place }
    }
}

// Done, or the refusal.
impl<T: Drop> From<Result<T, Refusal>> for Answer {
    ghost from_gives = { λ outcome answer. answer ≡ answered outcome };

    fn from(outcome: Result<T, Refusal>) -> Answer {
        match outcome {
            Ok(_) => Answer {
                number: 0,
                place: 0,
            },
            Err(refusal) => Answer::from(refusal),
        }
    }
}

// The n of a permitted length 2^n, n from 1 to 12.
#[tactic(auto, using(crate::proofs::Lengths::exponent_met, crate::proofs::Lengths::exponent_missed))]
pub fn log_of(len: usize) -> Option<usize>
    ensures { result ≡ exponent_of len }
{
    for n in 1..13 {
        if len == 1 << n {
            return Some(n);
        }
    }
    None
}

// The n of the length 2^n that a table of `len` entries is for.
#[tactic(auto, using(crate::proofs::Lengths::exponent_none))]
pub fn table_log(len: usize) -> Option<usize>
    ensures { result ≡ exponent_of (len + len) }
{
    if 2048 < len {
        return None;
    }
    log_of(len + len)
}
