// Why a sheet is refused: refusals 1 to 4, each with its number and its place.
ghost use Rattle.std.specs.Prelude.{◌≡◌};
ghost use Rattle.refusals.specs.Refusals.{number_of, place_of};

// Why a sheet is refused, with the offset of the record at fault.
#[derive(Clone, Copy)]
pub enum Refusal {
    Unreadable(usize),
    NodeCount,
    LinkCount,
    Field(usize),
    Ends(usize),
}

// Document 01's number of a refusal.
pub fn refusal_number(refusal: Refusal) -> usize
    ensures { result ≡ number_of refusal }
{
    match refusal {
        Refusal::Unreadable(_) => 1,
        Refusal::NodeCount => 2,
        Refusal::LinkCount => 2,
        Refusal::Field(_) => 3,
        Refusal::Ends(_) => 4,
    }
}

// Its place: a byte offset, or which count is wrong.
pub fn refusal_place(refusal: Refusal) -> usize
    ensures { result ≡ place_of refusal }
{
    match refusal {
        Refusal::Unreadable(at) => at,
        Refusal::NodeCount => 0,
        Refusal::LinkCount => 1,
        Refusal::Field(at) => at,
        Refusal::Ends(at) => at,
    }
}
