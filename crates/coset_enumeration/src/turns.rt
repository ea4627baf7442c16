// What a turn of an enumeration gives.
ghost use Rattle.std.specs.Prelude.{◌≡◌};
ghost use Rattle.coset_enumeration.specs.Enumeration.{answer_of};

use race::Progress;

/// What a turn gives: whether there is more to do, what is used of the budget and the budget tell.
pub fn answer(goes_on: bool, made: usize, budget: usize) -> Progress
    ensures { result ≡ answer_of goes_on made budget }
{
    if !goes_on {
        Progress::Decided
    } else if made < budget {
        Progress::More
    } else {
        Progress::Spent
    }
}
