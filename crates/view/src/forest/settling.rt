//! Homes and ups, level by level.

use super::components::Components;
use super::numbered::Numbered;
use crate::{NO_UP, View};

impl<V: View> Numbered<'_, V> {
    ghost use Rattle.std.specs.Prelude.{◌≡◌, ◌+◌, ◌<◌, ◌≤◌, ◌++◌, length, map, drop, slice_index};
    ghost use Rattle.view.specs.Ups.{up_in_table};
    ghost use Rattle.view.specs.Forest.{forest_by};
    ghost use Rattle.view.specs.Components.{AreComponents, AreSettled, links_at};
    ghost use Rattle.view.specs.Settling.{rewritten, home_at_level, waits, up_at_level};

    /// Writes the homes of the stations of a level, given the components of the level.
    fn settle_homes(&self, components: &Components, level: u16, homes: &mut [u16])
        requires joined { let g = V.View.site self.now.view.now in let c = slice_index self.now.numbers.now in
            AreComponents g.size (links_at g c level) components.now.labels }
        requires settled { AreSettled (V.View.site self.now.view.now).size components.now.labels }
        requires room { length self.now.numbers.now ≤ length homes.old }
        ensures { let g = V.View.site self.now.view.now in let c = slice_index self.now.numbers.now in
            homes.new ≡ rewritten (length self.now.numbers.now) (home_at_level g c level) homes.old }
    {
        for s in 0..self.numbers.len() {
            if self.numbers[s] == level {
                let home = self.lowest(components, level, s).unwrap_or(s);
                // a cast, as there are 512 stations at most
                homes[s] = home as u16;
            }
        }
    }

    /// Whether a station is a home above a level, and has no up yet.
    fn waits(&self, level: u16, homes: &[u16], ups: &[u16], s: usize) -> bool
        requires numbered { s < length self.now.numbers.now }
        requires has_home { s < length homes.now }
        requires has_up { s < length ups.now }
        ensures { result ≡ waits (slice_index self.now.numbers.now) level homes.now s (slice_index ups.now s) }
    {
        self.numbers[s] > level && usize::from(homes[s]) == s && ups[s] == NO_UP
    }

    /// Writes the ups that are of a level, given the components of the level.
    fn settle_ups(&self, components: &Components, level: u16, homes: &[u16], ups: &mut [u16])
        requires joined { let g = V.View.site self.now.view.now in let c = slice_index self.now.numbers.now in
            AreComponents g.size (links_at g c level) components.now.labels }
        requires settled { AreSettled (V.View.site self.now.view.now).size components.now.labels }
        requires homes_there { length self.now.numbers.now ≤ length homes.now }
        requires room { length self.now.numbers.now ≤ length ups.old }
        ensures { let g = V.View.site self.now.view.now in let c = slice_index self.now.numbers.now in
            ups.new ≡ rewritten (length self.now.numbers.now) (up_at_level g c level homes.now) ups.old }
    {
        for s in 0..self.numbers.len() {
            if self.waits(level, homes, ups, s) {
                let up = self.lowest(components, level, s);
                // a cast, as there are 512 stations at most
                ups[s] = up.map_or(NO_UP, |up| up as u16);
            }
        }
    }

    /// Goes down to a level from the one above it: joins its components, and writes what they settle.
    fn settle_level(
        &self,
        components: &mut Components,
        level: u16,
        homes: &mut [u16],
        ups: &mut [u16],
    )
        requires above { let g = V.View.site self.now.view.now in let c = slice_index self.now.numbers.now in
            AreComponents g.size (links_at g c (level + 1)) components.old.labels }
        requires homes_room { length self.now.numbers.now ≤ length homes.old }
        requires ups_room { length self.now.numbers.now ≤ length ups.old }
        ensures joined { let g = V.View.site self.now.view.now in let c = slice_index self.now.numbers.now in
            AreComponents g.size (links_at g c level) components.new.labels }
        ensures homes { let g = V.View.site self.now.view.now in let c = slice_index self.now.numbers.now in
            homes.new ≡ rewritten (length self.now.numbers.now) (home_at_level g c level) homes.old }
        ensures ups { let g = V.View.site self.now.view.now in let c = slice_index self.now.numbers.now in
            ups.new ≡ rewritten (length self.now.numbers.now) (up_at_level g c level homes.new) ups.old }
    {
        // a table may leave out many levels
        if self.has(level) {
            self.join_level(components, level);
            self.settle_homes(components, level, homes);
            self.settle_ups(components, level, homes, ups);
        }
    }

    /// Writes the homes and the ups of all stations, from the greatest number down.
    pub(super) fn settle(&self, homes: &mut [u16], ups: &mut [u16])
        requires homes_room { length self.now.numbers.now ≤ length homes.old }
        requires ups_room { length self.now.numbers.now ≤ length ups.old }
        ensures homes { let forest = forest_by (V.View.site self.now.view.now) self.now.numbers.now in
            homes.new ≡ forest.homes ++ drop (length self.now.numbers.now) homes.old }
        ensures ups { let forest = forest_by (V.View.site self.now.view.now) self.now.numbers.now in
            ups.new ≡ map up_in_table forest.ups ++ drop (length self.now.numbers.now) ups.old }
    {
        ups[..self.numbers.len()].fill(NO_UP);
        let mut components = Components::apart();
        for level in (0..=self.top()).rev() {
            self.settle_level(&mut components, level, homes, ups);
        }
    }
}
