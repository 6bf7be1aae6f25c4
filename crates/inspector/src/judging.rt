//! Whether numbers and an order stand up to the links.

ghost use Rattle.std.specs.Prelude.{◌≡◌};
ghost use Rattle.inspector.specs.Parts.{HasPlaces, CanBeJudged};

use view::View;

/// Numbers and an order that are claimed for the stations of a view, with the place of each station in the order.
#[derive(Drop)]
pub(crate) struct Judged<'a, V: View> {
    view: &'a V,
    numbers: &'a [u16],
    order: &'a [u16],
    places: [usize; 512],
    ghost fit: { CanBeJudged (V.View.site view.now) numbers.now order.now },
    ghost placed: { HasPlaces order.now places },
}

impl<'a, V: View> Judged<'a, V> {
    ghost use Rattle.std.specs.Prelude.{◌<◌, slice_index};
    ghost use Rattle.cores.specs.Counting.{lowest};
    ghost use Rattle.cores.specs.Orders.{at_fault, falls, after};

    /// Notes the place of each station.
    pub(crate) fn new(view: &'a V, numbers: &'a [u16], order: &'a [u16]) -> Judged<'a, V>
        requires { CanBeJudged (V.View.site view.now) numbers.now order.now }
        ensures view { result.view.now ≡ view.now }
        ensures numbers { result.numbers.now ≡ numbers.now }
        ensures order { result.order.now ≡ order.now }
    {
        let mut places = [0; 512];
        for (place, station) in order.iter().enumerate() {
            places[usize::from(*station)] = place;
        }
        Judged {
            view,
            numbers,
            order,
            places,
        }
    }

    /// Whether the station that comes next after another carries less.
    fn falls_after(&self, s: usize) -> bool
        requires { s < (V.View.site self.now.view.now).size }
        ensures { result ≡ falls (slice_index self.now.numbers.now) s (after s self.now.order.now) }
    {
        match self.order.get(self.places[s] + 1) {
            Some(next) => self.numbers[usize::from(*next)] < self.numbers[s],
            None => false,
        }
    }

    /// Whether a station is at fault: fewer than its number of neighbours carry at least its number, more neighbours
    /// than its number come after it, or the next station in the order carries less.
    fn is_at_fault(&self, s: usize) -> bool
        requires { s < (V.View.site self.now.view.now).size }
        ensures { result ≡ at_fault (V.View.site self.now.view.now) (slice_index self.now.numbers.now) self.now.order.now s }
    {
        let number = self.numbers[s];
        let mut supporting = 0;
        let mut later = 0;
        for t in self.view.neighbours(s) {
            supporting += usize::from(self.numbers[t] >= number);
            later += usize::from(self.places[t] > self.places[s]);
        }
        let number = usize::from(number);
        supporting < number || later > number || self.falls_after(s)
    }

    /// The lowest station at fault, if there is one.
    pub(crate) fn find_fault(&self) -> Option<usize>
        ensures { let g = V.View.site self.now.view.now in
            result ≡ lowest g.size (at_fault g (slice_index self.now.numbers.now) self.now.order.now) }
    {
        (0..self.numbers.len()).find(|s| self.is_at_fault(*s))
    }
}
