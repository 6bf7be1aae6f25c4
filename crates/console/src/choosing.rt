//! The level that a named rule chooses.

ghost use Rattle.std.specs.Prelude.{◌≡◌};
ghost use Rattle.console.specs.Chosen.{chosen_by};

use commands::Scoring;
use rules::levels::choose;
use rules::{Average, Paired};
use view::{Refusal, View};

/// The level of a view that a named rule chooses.
pub(crate) fn choose_by<V: View>(view: &V, scoring: Scoring) -> Result<usize, Refusal>
    ensures { result ≡ chosen_by scoring (V.View.site view.now) }
{
    match scoring {
        Scoring::Average => choose(view, &Average),
        Scoring::Net(net) => choose(view, &net),
        Scoring::AverageThenNet(net) => {
            let rule = Paired {
                first: Average,
                second: net,
            };
            choose(view, &rule)
        }
        Scoring::NetThenAverage(net) => {
            let rule = Paired {
                first: net,
                second: Average,
            };
            choose(view, &rule)
        }
    }
}
