//! A view with a table of its numbers.

ghost use Rattle.std.specs.Prelude.{◌≡◌, ◌≤◌, length};

use super::components::Components;
use crate::View;

/// A view of 512 stations at most, and a number for each.
#[derive(Drop)]
pub(super) struct Numbered<'a, V: View> {
    pub(super) view: &'a V,
    pub(super) numbers: &'a [u16],
    ghost right: { length numbers.now ≡ (V.View.site view.now).size },
    ghost few: { length numbers.now ≤ 512 },
}

impl<V: View> Numbered<'_, V> {
    ghost use Rattle.std.specs.Prelude.{ℕ, Bool, ◌+◌, ◌<◌, ◌↔◌, IsTrue, IfSome, EachIndex, slice_index};
    ghost use Rattle.std.specs.List.{Contains};
    ghost use Rattle.view.specs.Components.{AreComponents, AreSettled, with_links_of, links_at, lowest_with};

    /// Whether some station has a number.
    pub(super) fn has(&self, number: u16) -> bool
        ensures { IsTrue result ↔ Contains self.now.numbers.now number }
    {
        self.numbers.contains(&number)
    }

    /// The greatest number.
    pub(super) fn top(&self) -> u16
        ensures greatest { EachIndex self.now.numbers.now (λ s. slice_index self.now.numbers.now s ≤ result) }
        ensures reached { 0 < length self.now.numbers.now → Contains self.now.numbers.now result }
    {
        self.numbers.iter().copied().max().unwrap_or(0)
    }

    /// Joins a station with those of its neighbours that have its number or more.
    fn join_neighbours(&self, components: &mut Components, s: usize)
        requires { s < length self.now.numbers.now }
        ensures { let g = V.View.site self.now.view.now in let c = slice_index self.now.numbers.now in
            (links : ℕ → ℕ → Bool) → AreComponents g.size links components.old.labels
            → AreComponents g.size (with_links_of g c links s) components.new.labels }
    {
        for t in self.view.neighbours(s) {
            if self.numbers[s] <= self.numbers[t] {
                components.join(s, t);
            }
        }
    }

    /// From the components of the stations above a level to those of the level and above.
    pub(super) fn join_level(&self, components: &mut Components, level: u16)
        requires { let g = V.View.site self.now.view.now in let c = slice_index self.now.numbers.now in
            AreComponents g.size (links_at g c (level + 1)) components.old.labels }
        ensures joined { let g = V.View.site self.now.view.now in let c = slice_index self.now.numbers.now in
            AreComponents g.size (links_at g c level) components.new.labels }
        ensures settled { AreSettled (V.View.site self.now.view.now).size components.new.labels }
    {
        for s in 0..self.numbers.len() {
            if self.numbers[s] == level {
                self.join_neighbours(components, s);
            }
        }
        components.settle(self.numbers.len());
    }

    /// The lowest station of a number with the label of a station, if there is one.
    pub(super) fn lowest(&self, components: &Components, number: u16, s: usize) -> Option<usize>
        requires { s < length self.now.numbers.now }
        ensures lowest { result ≡ lowest_with self.now.numbers.now components.now.labels number s }
        ensures below { IfSome result (λ t. t < length self.now.numbers.now) }
    {
        (0..self.numbers.len()).find(|t| self.numbers[*t] == number
            && components.holds_together(s, *t))
    }
}
