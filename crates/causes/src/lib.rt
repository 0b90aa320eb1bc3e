// Why the status of a link changed, and what an entry of the record tells of it (document 02, [2]).
#![tactic(auto)]

ghost use Rattle.std.specs.Prelude.{◌≡◌};
ghost use Rattle.causes.specs.Causes.{cause_code, first_flip, flip_number};

use links::LinkIndex;

#[derive(Clone, Copy)]
pub enum Cause {
    None,
    ReverseFlow,
    InletTooLow,
    OutletTooHigh,
    Reopened,
}

// What is told of the links that changed in one update: the lowest and its cause.
pub type Flip = Option<(LinkIndex, Cause)>;

// The number of a cause.
pub fn cause_code(cause: Cause) -> usize
    ensures { result ≡ cause_code cause }
{
    match cause {
        Cause::None => 0,
        Cause::ReverseFlow => 1,
        Cause::InletTooLow => 2,
        Cause::OutletTooHigh => 3,
        Cause::Reopened => 4,
    }
}

// What is told once link j changed by this cause: a lower link that changed before it stays.
pub fn first_flip(flip: Flip, j: usize, cause: Cause) -> Flip
    ensures { result ≡ first_flip flip j cause }
{
    match flip {
        None => Some((LinkIndex(j), cause)),
        Some(_) => flip,
    }
}

// The number of an entry: the link's number plus 1 in the low byte, the cause in the high one.
pub fn flip_number(flip: Flip) -> usize
    ensures { result ≡ flip_number flip }
{
    match flip {
        None => 0,
        Some((j, cause)) => {
            let low = (j.0 % 256 + 1) % 256;
            let high = cause_code(cause);
            low + 256 * high
        }
    }
}
