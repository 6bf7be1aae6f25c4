//! One link more or less, and the numbers that it moves.

ghost use Rattle.std.specs.Prelude.{◌≡◌, Ok};
ghost use Rattle.cores.specs.Links.{joined, parted};
ghost use Rattle.book.specs.Answers.{link_answer, unlink_answer};
ghost use Rattle.book.specs.Tables.{links, numbers, places, site_of, Sound};
ghost use Rattle.book.specs.Current.{Current};

use super::Table;

impl Table {
    /// Puts two stations in each other's row.
    fn tie(&mut self, a: usize, b: usize)
        requires sound { Sound (links self.old) }
        requires granted { link_answer (site_of (links self.old)) a b ≡ Ok tt }
        ensures sound { Sound (links self.new) }
        ensures site { site_of (links self.new) ≡ joined (site_of (links self.old)) a b }
        ensures numbers { numbers self.new ≡ numbers self.old }
        ensures order { places self.new ≡ places self.old }
    {
        self.insert(a, b);
        self.insert(b, a);
    }

    /// Takes two stations out of each other's row.
    fn untie(&mut self, a: usize, b: usize)
        requires sound { Sound (links self.old) }
        requires granted { unlink_answer (site_of (links self.old)) a b ≡ Ok tt }
        ensures sound { Sound (links self.new) }
        ensures site { site_of (links self.new) ≡ parted (site_of (links self.old)) a b }
        ensures numbers { numbers self.new ≡ numbers self.old }
        ensures order { places self.new ≡ places self.old }
    {
        self.remove(a, b);
        self.remove(b, a);
    }

    /// Sets a link. Only the ends' smaller number may rise: the stations of that number that may now have more neighbours of
    /// greater numbers are lifted, and those of them that then have too few fall back.
    pub(crate) fn join(&mut self, a: usize, b: usize)
        requires current { Current self.old }
        requires granted { link_answer (site_of (links self.old)) a b ≡ Ok tt }
        ensures current { Current self.new }
        ensures site { site_of (links self.new) ≡ joined (site_of (links self.old)) a b }
    {
        let level = self.number(a).min(self.number(b));
        self.tie(a, b);
        // casts, as stations are below 512
        let mut lifted = self.spread(&[a as u16, b as u16], level);
        self.bring_forward(&mut lifted);
        self.settle(lifted.noted(), level + 1);
    }

    /// Takes a link away. Only the ends' smaller number may fall.
    pub(crate) fn part(&mut self, a: usize, b: usize)
        requires current { Current self.old }
        requires granted { unlink_answer (site_of (links self.old)) a b ≡ Ok tt }
        ensures current { Current self.new }
        ensures site { site_of (links self.new) ≡ parted (site_of (links self.old)) a b }
    {
        let level = self.number(a).min(self.number(b));
        self.untie(a, b);
        // casts, as stations are below 512
        self.settle(&[a as u16, b as u16], level);
    }
}
