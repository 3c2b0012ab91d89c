// Whether a row is one that the reader could give.
ghost use Rattle.std.specs.Prelude.{◌≡◌};
ghost use Rattle.laws.specs.Lists.{Each};
ghost use Rattle.filter.specs.Ranges.{FilterInRange};
ghost use Rattle.filter.specs.Sizes.{place_count};
ghost use Rattle.element.specs.Write.{row_given};

use filter::Filter;
use filter::component::{PLACES, PRECEDENCES};

#[tactic(auto, using(crate::proofs::Typed::row_in_range))]
fn row_typed(row: [Filter; PLACES])
    ensures { Each FilterInRange place_count row }
{}

// Its places could be given, it holds from one to fifteen filters, and no two of them have one precedence.
pub(crate) fn row_given(row: &[Filter; PLACES]) -> bool
    ensures { result ≡ row_given row.now }
{
    // the read is for the proof alone: nothing is left of it in what is compiled
    row_typed(*row);
    let mut count: u8 = 0;
    let mut given = true;
    let mut repeated = false;
    let mut precedences = [false; PRECEDENCES];
    for filter in row {
        given = given & filter.place_fine();
        if filter.held() {
            let precedence = usize::from(filter.precedence);
            count += 1;
            repeated = repeated | precedences[precedence];
            precedences[precedence] = true;
        }
    }
    given & (1 <= count) & (count <= 15) & !repeated
}
