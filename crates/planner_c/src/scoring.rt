//! Tally and choose, over a listing that is opened.

ghost use Rattle.std.specs.Prelude.{◌≡◌, ◌≤◌, ◌++◌, length, map, drop, min};
ghost use Rattle.view.specs.Answers.{answer, left_in};
ghost use Rattle.view.specs.Listing.{lists};
ghost use Rattle.view.specs.Checked.{opened};
ghost use Rattle.drawer.specs.Calls.{written_for};
ghost use Rattle.rules.specs.Levels.{levels};
ghost use Rattle.rules.specs.Choices.{choice_answer};
ghost use Rattle.rules.specs.Scores.{average, by_fraction};
ghost use Rattle.planner_c.specs.Replies.{reply, level};
ghost use Rattle.planner_c.specs.Given.{two_lists};

use crate::reply::{Level, Reply};
use rules::levels::{choose, tally};
use rules::{Average, Counts};
use view::Refusal;
use view::listed::{Listed, Listing};

/// Copies counts to the front of a list.
fn note_levels(counts: &[Counts], list: &mut [Level])
    requires { length counts.now ≤ length list.old }
    ensures { list.new ≡ map level counts.now ++ drop (length counts.now) list.old }
{
    for (place, counts) in counts.iter().enumerate() {
        list[place] = Level {
            members: counts.members,
            inside: counts.inside,
            boundary: counts.boundary,
        };
    }
}

/// Tallies a listing into the front of a list, of which it takes 512 entries at most, after `more` times.
fn tally_again(listing: Listing, more: usize, list: &mut [Level]) -> Result<usize, Refusal>
    ensures answer { let g = opened (lists listing.entry) in
        result ≡ answer length (written_for g (min (length list.old) 512) (levels g)) }
    ensures list { let g = opened (lists listing.entry) in
        list.new ≡ left_in (map level) (written_for g (min (length list.old) 512) (levels g)) list.old }
{
    let view = Listed::open(listing);
    let mut counts = [Counts::default(); 512];
    for _ in 0..more {
        let _ = tally(&view, &mut counts);
    }
    let room = list.len().min(512);
    let levels = tally(&view, &mut counts[..room])?;
    note_levels(&counts[..levels], list);
    Ok(levels)
}

/// Tallies what a listing opens as, into the front of a list, of which it takes 512 entries at most, after `more` times
/// for timing.
#[unsafe(no_mangle)]
pub extern "C" fn planner_tally(
    starts: &[u32],
    ends: &[u16],
    more: usize,
    list: &mut [Level],
) -> Reply
    ensures answer { let g = opened (two_lists starts.now ends.now) in
        result ≡ reply (answer length (written_for g (min (length list.old) 512) (levels g))) }
    ensures list { let g = opened (two_lists starts.now ends.now) in
        list.new ≡ left_in (map level) (written_for g (min (length list.old) 512) (levels g)) list.old }
{
    Reply::of(tally_again(Listing { starts, ends }, more, list))
}

/// The level that Average chooses of what a listing opens as, after `more` times for timing.
#[unsafe(no_mangle)]
pub extern "C" fn planner_choose(starts: &[u32], ends: &[u16], more: usize) -> Reply
    ensures { result ≡ reply (choice_answer (opened (two_lists starts.now ends.now)) average by_fraction) }
{
    let view = Listed::open(Listing { starts, ends });
    for _ in 0..more {
        let _ = choose(&view, &Average);
    }
    Reply::of(choose(&view, &Average))
}
