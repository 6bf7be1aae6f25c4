//! Components of stations, as links join them.

ghost use Rattle.std.specs.Prelude.{◌≡◌, ◌≤◌, EachIndex, slice_index};

/// Stations in components. The label of a station is one of its component, itself or a lower one, so labels lead down to
/// the lowest, which is its own label.
#[derive(Drop)]
pub(super) struct Components {
    labels: [u16; 512],
    ghost downward: { EachIndex labels (λ s. slice_index labels s ≤ s) },
}

impl Components {
    ghost use Rattle.std.specs.Prelude.{ℕ, Bool, ◌<◌, set, false};
    ghost use Rattle.view.specs.Components.{together, AreComponents, AreSettled, LeadTogether, AreShortened, with_link};

    /// Each station on its own.
    pub(super) fn apart() -> Components
        ensures { (n : ℕ) → n ≤ 512 → AreComponents n (λ s t. false) result.labels }
    {
        Components {
            // a cast, as there are 512 stations
            labels: std::array::from_fn(|s| s as u16),
        }
    }

    /// Gives a station the label of its label, and answers it.
    fn shorten(&mut self, s: usize) -> usize
        requires { s < 512 }
        ensures label { result ≡ slice_index self.old.labels (slice_index self.old.labels s) }
        ensures labels { self.new.labels ≡ set self.old.labels s result }
    {
        let label = self.labels[usize::from(self.labels[s])];
        self.labels[s] = label;
        usize::from(label)
    }

    /// Where the labels lead from a station. They are shortened on the way, so that the next way is shorter.
    fn root(&mut self, s: usize) -> usize
        requires { s < 512 }
        ensures shortened { AreShortened self.old.labels self.new.labels }
        ensures leads { (n : ℕ) → s < n → LeadTogether n self.new.labels s result }
        ensures below { result ≤ s }
        ensures own { slice_index self.new.labels result ≡ result }
    {
        let mut at = s;
        while usize::from(self.labels[at]) != at {
            at = self.shorten(at);
        }
        at
    }

    /// Makes one component of those of two stations.
    pub(super) fn join(&mut self, s: usize, t: usize)
        requires here { s < 512 }
        requires there { t < 512 }
        ensures { (n : ℕ) (links : ℕ → ℕ → Bool) → s < n → t < n → n ≤ 512 → AreComponents n links self.old.labels
            → AreComponents n (with_link links s t) self.new.labels }
    {
        if !self.holds_together(s, t) {
            let a = self.root(s);
            let b = self.root(t);
            // a cast, as there are 512 stations
            self.labels[a.max(b)] = a.min(b) as u16;
        }
    }

    /// Gives each of so many stations the label to which its own leads. Then those in one component have one label.
    pub(super) fn settle(&mut self, stations: usize)
        requires { stations ≤ 512 }
        ensures shortened { AreShortened self.old.labels self.new.labels }
        ensures settled { AreSettled stations self.new.labels }
    {
        // from below, so that the label of a label leads no further
        for s in 0..stations {
            self.shorten(s);
        }
    }

    /// Whether two stations have one label.
    pub(super) fn holds_together(&self, s: usize, t: usize) -> bool
        requires here { s < 512 }
        requires there { t < 512 }
        ensures { result ≡ together self.now.labels s t }
    {
        self.labels[s] == self.labels[t]
    }
}
