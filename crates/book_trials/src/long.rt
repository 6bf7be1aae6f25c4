//! Thousands of links and unlinks, picked at random, the same ones in each run. After each, the answer and the rows of the
//! two ends are compared with a plain square of links, and all numbers with those of a fresh peel; at the end, all rows.

use book::{Book, Refusal, View};
use drawer::numbers;
use std::process::Abort;

/// A link that is to be set, or one that is to be taken away.
#[derive(Clone, Copy, PartialEq, Eq, Debug)]
enum Call {
    Link(usize, usize),
    Unlink(usize, usize),
}

/// Picks numbers, the same ones in each run.
#[derive(Drop)]
struct Picks {
    state: u64,
}

impl Picks {
    /// A number below a bound; 0 if there is none.
    fn below(&mut self, bound: usize) -> usize {
        self.state = self
            .state
            .wrapping_mul(6_364_136_223_846_793_005)
            .wrapping_add(1_442_695_040_888_963_407);
        // the low bits repeat soon
        let high = (self.state >> 33) as usize;
        high.checked_rem(bound).unwrap_or(0)
    }

    /// An end below each bound, in either order. Now and then they are equal, or off the site.
    fn ends(&mut self, bounds: (usize, usize), stations: usize) -> (usize, usize) {
        let (a, b) = (self.below(bounds.0), self.below(bounds.1));
        match self.below(24) {
            0 => (a, a),
            1 => (a, stations.saturating_add(b)),
            2 => (stations, b),
            3..13 => (a, b),
            _ => (b, a),
        }
    }
}

/// Which stations are linked, as a square.
#[derive(Drop)]
struct Plain {
    stations: usize,
    linked: [[bool; 512]; 512],
}

impl Plain {
    /// Whether a link stands.
    fn stands(&self, a: usize, b: usize) -> bool {
        a < 512 && b < 512 && self.linked[a][b]
    }

    /// How many links a station has.
    fn links(&self, s: usize) -> usize {
        (0..self.stations).filter(|t| self.stands(s, *t)).count()
    }

    /// Why the ends are refused, if they are.
    fn ends_refused(&self, a: usize, b: usize) -> Option<Refusal> {
        match [a, b].into_iter().find(|s| self.stations <= *s) {
            Some(station) => Some(Refusal::OffSite { station }),
            None => (a == b).then_some(Refusal::EqualEnds { station: a }),
        }
    }

    /// Why a call is refused, if it is.
    fn refused(&self, call: Call) -> Option<Refusal> {
        let (Call::Link(a, b) | Call::Unlink(a, b)) = call;
        if let Some(refusal) = self.ends_refused(a, b) {
            return Some(refusal);
        }
        let lower = a.min(b);
        match (call, self.stands(a, b)) {
            (Call::Link(..), true) => Some(Refusal::AlreadyLinked { lower }),
            (Call::Link(..), false) => [a, b]
                .into_iter()
                .find(|s| self.links(*s) == 32)
                .map(|station| Refusal::RowFull { station }),
            (Call::Unlink(..), false) => Some(Refusal::NotLinked { lower }),
            (Call::Unlink(..), true) => None,
        }
    }

    /// Notes a call that is not refused.
    fn note(&mut self, call: Call) {
        let (Call::Link(a, b) | Call::Unlink(a, b)) = call;
        if a < 512 && b < 512 {
            let stands = matches!(call, Call::Link(..));
            self.linked[a][b] = stands;
            self.linked[b][a] = stands;
        }
    }
}

/// A book and the same links as a square.
#[derive(Drop)]
struct Trial {
    book: Book,
    plain: Plain,
    picks: Picks,
    /// How many calls were granted, and at the number of each refusal, how many met it.
    met: [usize; 16],
}

impl Trial {
    /// A site without links.
    fn new(rt: &impl Abort, stations: usize) -> Trial {
        let mut book = Book::new();
        assert_eq!(rt; book.lay_out(stations), Ok(()));
        Trial {
            book,
            plain: Plain {
                stations,
                linked: [[false; 512]; 512],
            },
            picks: Picks { state: 20_251 },
            met: [0; 16],
        }
    }

    /// Picks a call: a link in so many of eight, else an unlink. Most links that are taken away stand.
    fn pick(&mut self, bounds: (usize, usize), links: usize) -> Call {
        let (a, b) = self.picks.ends(bounds, self.plain.stations);
        if self.picks.below(8) < links {
            return Call::Link(a, b);
        }
        if self.picks.below(8) == 0 {
            return Call::Unlink(a, b);
        }
        let place = self.picks.below(self.book.degree(a));
        Call::Unlink(a, self.book.neighbour(a, place).unwrap_or(b))
    }

    /// Makes a call.
    fn make(&mut self, call: Call) -> Result<(), Refusal> {
        match call {
            Call::Link(a, b) => self.book.link(a, b),
            Call::Unlink(a, b) => self.book.unlink(a, b),
        }
    }

    /// Makes a call, and compares its answer.
    fn compare_answer(&mut self, rt: &impl Abort, call: Call) {
        let refused = self.plain.refused(call);
        assert_eq!(rt; (call, self.make(call).err()), (call, refused));
        if refused.is_none() {
            self.plain.note(call);
        }
        let number = refused.map_or(0, |refusal| refusal.number());
        if let Some(met) = self.met.get_mut(usize::from(number)) {
            *met = met.saturating_add(1);
        }
    }

    /// Compares all numbers with those of a fresh peel.
    fn compare_numbers(&self, rt: &impl Abort) {
        let mut peeled = [0; 512];
        assert_eq!(rt; numbers(&self.book, &mut peeled), Ok(self.plain.stations));
        assert!(rt;
            (0..self.plain.stations).all(|s| self.book.number(s) == peeled.get(s).copied())
        );
        assert_eq!(rt; self.book.number(self.plain.stations), None);
    }

    /// Compares the row of a station.
    fn compare_row(&self, rt: &impl Abort, s: usize) {
        let row = (0..self.plain.stations).filter(|t| self.plain.stands(s, *t));
        assert!(rt; self.book.neighbours(s).eq(row));
    }

    /// Makes so many calls, and compares after each.
    fn run(&mut self, rt: &impl Abort, calls: usize, bounds: (usize, usize), links: usize) {
        for _ in 0..calls {
            let call = self.pick(bounds, links);
            self.compare_answer(rt, call);
            self.compare_numbers(rt);
            let (Call::Link(a, b) | Call::Unlink(a, b)) = call;
            self.compare_row(rt, a);
            self.compare_row(rt, b);
        }
    }

    /// Compares all rows.
    fn compare_rows(&self, rt: &impl Abort) {
        for s in 0..self.plain.stations {
            self.compare_row(rt, s);
        }
    }
}

#[test]
fn a_small_site_up_and_down(rt: HostRuntime) {
    let mut trial = Trial::new(&rt, 14);
    trial.run(&rt, 3_600, (14, 14), 4);
    trial.compare_rows(&rt);
    assert!(rt; 2_400 <= trial.met[0]);
    assert!(rt; trial.met[2..6].iter().all(|met| 50 <= *met));
}

#[test]
fn a_site_of_48_filled_and_emptied(rt: HostRuntime) {
    let mut trial = Trial::new(&rt, 48);
    trial.run(&rt, 800, (48, 48), 7);
    trial.run(&rt, 800, (48, 48), 1);
    trial.compare_rows(&rt);
    assert!(rt; 1_000 <= trial.met[0]);
    assert!(rt; trial.met[2..6].iter().all(|met| 50 <= *met));
}

/// Six stations fill their rows, others are linked across the site, and then links are taken away as often as set.
#[test]
fn the_largest_site_with_full_rows(rt: HostRuntime) {
    let mut trial = Trial::new(&rt, 512);
    for links in [7, 4] {
        trial.run(&rt, 420, (6, 72), links);
        trial.run(&rt, 420, (512, 512), links);
    }
    trial.compare_rows(&rt);
    assert!(rt; 1_100 <= trial.met[0]);
    assert!(rt; trial.met[2..7].iter().all(|met| 20 <= *met));
}
