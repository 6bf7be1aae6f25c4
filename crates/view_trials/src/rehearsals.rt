//! Callers that rehearse: however they end, the service list is as it was.

ghost use Rattle.std.specs.Prelude.{◌≡◌, ◌&&◌, true, not, nat_lt, length};
ghost use Rattle.view.specs.Answers.{links_answer};
ghost use Rattle.view.specs.Service.{is_marked, with_mark};
ghost use Rattle.view.specs.Struck.{struck_site, struck_row};
ghost use Rattle.view_trials.specs.Alike.{alike};

use view::links::count_links;
use view::rehearsal::Rehearsal;
use view::service::ServiceList;
use view::struck::Struck;
use view::{Refusal, View};

/// How many links a site keeps without a station, and without the stations that a list marks.
#[tactic(auto, using(view::proofs::Marks::restored))]
pub fn links_without<V: View>(
    view: &V,
    list: &mut ServiceList,
    station: usize,
) -> Result<usize, Refusal>
    ensures list { list.new ≡ list.old }
    ensures links { result ≡ links_answer (struck_site (is_marked (with_mark list.old station true)) (V.View.site view.now)) }
{
    let rehearsal = Rehearsal::begin(list, station);
    let links = count_links(&Struck::new(view, &rehearsal.list()))?;
    Ok(links)
}

/// Whether the links that two stations have, each struck alone, are the same number.
#[tactic(auto, using(view::proofs::Marks::restored))]
pub fn weigh_alike<V: View>(
    view: &V,
    list: &mut ServiceList,
    a: usize,
    b: usize,
) -> Result<bool, Refusal>
    ensures list { list.new ≡ list.old }
    ensures answer { result ≡ alike
        (links_answer (struck_site (is_marked (with_mark list.old a true)) (V.View.site view.now)))
        (links_answer (struck_site (is_marked (with_mark list.old b true)) (V.View.site view.now))) }
{
    let without_a = {
        let rehearsal = Rehearsal::begin(list, a);
        count_links(&Struck::new(view, &rehearsal.list()))?
    };
    let rehearsal = Rehearsal::begin(list, b);
    let without_b = count_links(&Struck::new(view, &rehearsal.list()))?;
    Ok(without_a == without_b)
}

/// Whether a station has a neighbour, though another is struck.
#[tactic(auto, using(view::proofs::Marks::restored))]
pub fn is_heard_without<V: View>(
    view: &V,
    list: &mut ServiceList,
    station: usize,
    struck: usize,
) -> bool
    ensures list { list.new ≡ list.old }
    ensures answer { let marks = is_marked (with_mark list.old struck true) in
        result ≡ (not (marks station) && nat_lt 0 (length (struck_row marks (V.View.row view.now) station))) }
{
    let rehearsal = Rehearsal::begin(list, struck);
    if rehearsal.list().is_marked(station) {
        return false;
    }
    0 < Struck::new(view, &rehearsal.list()).degree(station)
}
