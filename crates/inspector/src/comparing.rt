//! Whether homes and ups are those of a view.

ghost use Rattle.std.specs.Prelude.{◌≡◌, Ok};
ghost use Rattle.cores.specs.Counting.{lowest};
ghost use Rattle.inspector.specs.Inspecting.{is_wrong};
ghost use Rattle.inspector.specs.Parts.{claimed, CanBeCompared};

use crate::Refusal;
use crate::claim::Claim;
use view::View;
use view::forest::homes_and_ups;

/// The lowest station whose home or up is not that of the view, if there is one. What it asks for leaves nothing to
/// refuse.
pub(crate) fn find_wrong<V: View>(view: &V, claim: &Claim) -> Result<Option<usize>, Refusal>
    requires { CanBeCompared (V.View.site view.now) (claimed claim.now) }
    ensures { let g = V.View.site view.now in
        result ≡ Ok (lowest g.size (is_wrong g (claimed claim.now))) }
{
    let mut homes = [0; 512];
    let mut ups = [0; 512];
    homes_and_ups(view, claim.numbers(), &mut homes, &mut ups)?;
    Ok(claim.find_difference(&homes, &ups))
}
