//! The levels of a view, and the one that a rule chooses.

ghost use Rattle.std.specs.Prelude.{◌≡◌, length};
ghost use Rattle.view.specs.Answers.{answer, left_in};
ghost use Rattle.drawer.specs.Calls.{written_for};
ghost use Rattle.rules.specs.Levels.{levels};
ghost use Rattle.rules.specs.Choices.{score_of, choice_answer};

use crate::numbered::Numbered;
use crate::{Counts, Refusal, Rule, Tally};
use drawer::numbers;
use view::View;

/// Counts the levels of a view, from 0 to its top number, into the front of a list. Answers how many there are, which
/// is how many entries are written. Each of them makes a `Tally`: see `laws::levels_are_within_limits`.
#[tactic(auto, using(crate::proofs::Tabled::refused))]
pub fn tally<V: View>(view: &V, list: &mut [Counts]) -> Result<usize, Refusal>
    ensures answer { let g = V.View.site view.now in
        result ≡ answer length (written_for g (length list.old) (levels g)) }
    ensures list { let g = V.View.site view.now in
        list.new ≡ left_in (λ levels. levels) (written_for g (length list.old) (levels g)) list.old }
{
    let mut table = [0; 512];
    let stations = numbers(view, &mut table)?;
    let numbered = Numbered {
        view,
        numbers: &table[..stations],
    };
    let needed = usize::from(numbered.top()) + 1;
    if list.len() < needed {
        return Err(Refusal::BufferShort { needed });
    }
    numbered.count_levels(&mut list[..needed]);
    Ok(needed)
}

/// What a level scores by a rule. Each level of a view scores, as its counts make a tally.
fn score<R: Rule>(rule: &R, level: &Counts) -> Option<R::Score>
    ensures { result ≡ score_of (R.Rule.scores rule.now) level.now }
{
    Some(rule.score(&Tally::new(*level)?))
}

/// Chooses a level of a view by a rule: the one that no other level scores above, the greatest of those. There is just
/// one: see `laws::choice_is_best` and `laws::only_one_is_chosen`.
pub fn choose<V: View, R: Rule>(view: &V, rule: &R) -> Result<usize, Refusal>
    ensures { result ≡ choice_answer (V.View.site view.now) (R.Rule.scores rule.now) (R.Rule.orders rule.now) }
{
    // a site has no more levels than stations
    let mut list = [Counts::default(); 512];
    let levels = tally(view, &mut list)?;
    let best = list[..levels]
        .iter()
        .enumerate()
        .filter_map(|(k, level)| Some((k, score(rule, level)?)))
        .max_by(|a, b| rule.compare(&a.1, &b.1));
    Ok(best.map_or(0, |(k, _)| k))
}
