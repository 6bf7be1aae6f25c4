//! Which stations an order has named.

ghost use Rattle.std.specs.Prelude.{◌≤◌};

/// The stations of a site, each marked once an order has named it.
#[derive(Drop)]
pub(crate) struct Roll {
    count: usize,
    named: [bool; 512],
    ghost few: { count ≤ 512 },
}

impl Roll {
    ghost use Rattle.std.specs.Prelude.{◌≡◌, nat_lt};
    ghost use Rattle.cores.specs.Numbers.{without};
    ghost use Rattle.sheet.specs.Parts.{unnamed};

    /// A roll of a site of so many stations, none of them named.
    pub(crate) fn new(count: usize) -> Roll
        requires { count ≤ 512 }
        ensures { unnamed result ≡ (λ t. nat_lt t count) }
    {
        Roll {
            count,
            named: [false; 512],
        }
    }

    /// Names a station, and tells whether it is of the site and was not named before.
    pub(crate) fn name(&mut self, station: u16) -> bool
        ensures answer { result ≡ unnamed self.old station }
        ensures after { unnamed self.new ≡ without station (unnamed self.old) }
    {
        let place = usize::from(station);
        let fits = place < self.count && !self.named[place];
        if fits {
            self.named[place] = true;
        }
        fits
    }
}
