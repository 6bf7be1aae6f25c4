//! The lines of the walkthrough, without their ends.

ghost use Rattle.std.specs.Prelude.{Some};
ghost use Rattle.transcript.specs.Wording.{counted_bytes, in_hexadecimal, listed, movement, movements, others_moved, told, up_or_dash};

use refusals::Refusal;
use std::fmt;
use view::listed::Extent;

/// A line of the walkthrough.
#[derive(Clone, Copy, PartialEq, Eq, Debug)]
pub enum Line<'a> {
    /// `table of N stations, E ends`
    Heading {
        stations: usize,
        ends: usize,
    },
    /// `row S: a b c`
    Row {
        station: usize,
        neighbours: &'a [u16],
    },
    /// `lawful: N stations, K links`, or the line of the refusal
    Verdict(Result<Extent, Refusal>),
    /// `link A B: moved S K->L, T M->N`, or `link A B: nobody moved`
    Linked {
        a: usize,
        b: usize,
        moved: &'a [Moved],
    },
    /// `link A B: ` and the line of the refusal
    LinkRefused {
        a: usize,
        b: usize,
        refusal: Refusal,
    },
    /// `struck S`
    Struck {
        station: usize,
    },
    /// `argument A: not a station`, counted from 1
    NoStation {
        argument: usize,
    },
    /// `removed S with D left`
    Removed {
        station: usize,
        left: usize,
    },
    /// `station S number K home H up U`, or `-` where there is no up
    Station {
        station: usize,
        number: u16,
        home: u16,
        up: Option<u16>,
    },
    /// `sheet L bytes: 01 0a ff`
    Sheet {
        bytes: &'a [u8],
    },
    /// `inspected: passed`, or `inspected: ` and the line of the refusal
    Inspected(Result<(), Refusal>),
    /// `cards L bytes: 01 0a ff`
    Cards {
        bytes: &'a [u8],
    },
    /// `level K: M members, I inside, B boundary`
    Level {
        level: usize,
        members: u32,
        inside: u32,
        boundary: u32,
    },
}

impl fmt::Display for Line<'_> {
    ghost output = { λ line. Some (told line) };

    fn fmt<W: fmt::Write>(&self, f: &mut fmt::Formatter<W>) -> fmt::Result {
        match *self {
            Line::Heading { stations, ends } => {
                write!(f, "table of {stations} stations, {ends} ends")
            }
            Line::Row {
                station,
                neighbours,
            } => {
                let row = Stations(neighbours);
                write!(f, "row {station}:{row}")
            }
            Line::Verdict(Ok(Extent { stations, links })) => {
                write!(f, "lawful: {stations} stations, {links} links")
            }
            Line::Verdict(Err(refusal)) => write!(f, "{refusal}"),
            Line::Linked { a, b, moved } => {
                let moved = Movements(moved);
                write!(f, "link {a} {b}: {moved}")
            }
            Line::LinkRefused { a, b, refusal } => write!(f, "link {a} {b}: {refusal}"),
            Line::Struck { station } => write!(f, "struck {station}"),
            Line::NoStation { argument } => write!(f, "argument {argument}: not a station"),
            Line::Removed { station, left } => write!(f, "removed {station} with {left} left"),
            Line::Station {
                station,
                number,
                home,
                up,
            } => {
                let up = Up(up);
                write!(f, "station {station} number {number} home {home} up {up}")
            }
            Line::Sheet { bytes } => {
                let bytes = Bytes(bytes);
                write!(f, "sheet {bytes}")
            }
            Line::Cards { bytes } => {
                let bytes = Bytes(bytes);
                write!(f, "cards {bytes}")
            }
            Line::Inspected(Ok(())) => write!(f, "inspected: passed"),
            Line::Inspected(Err(refusal)) => write!(f, "inspected: {refusal}"),
            Line::Level {
                level,
                members,
                inside,
                boundary,
            } => {
                write!(
                    f,
                    "level {level}: {members} members, {inside} inside, {boundary} boundary"
                )
            }
        }
    }
}

/// A station whose number changed.
#[derive(Clone, Copy, Default, PartialEq, Eq, Debug)]
pub struct Moved {
    pub station: usize,
    /// Its number before.
    pub from: u16,
    /// Its number now.
    pub to: u16,
}

/// `S K->L`.
impl fmt::Display for Moved {
    ghost output = { λ moved. Some (movement moved) };

    fn fmt<W: fmt::Write>(&self, f: &mut fmt::Formatter<W>) -> fmt::Result {
        let Moved { station, from, to } = *self;
        write!(f, "{station} {from}->{to}")
    }
}

/// `moved` and the stations that did, parted by commas, or `nobody moved`.
#[derive(Clone, Copy)]
struct Movements<'a>(&'a [Moved]);

impl fmt::Display for Movements<'_> {
    ghost output = { λ moved. Some (movements moved.0.now) };

    fn fmt<W: fmt::Write>(&self, f: &mut fmt::Formatter<W>) -> fmt::Result {
        match self.0 {
            [] => write!(f, "nobody moved"),
            [first, others @ ..] => {
                let others = Others(others);
                write!(f, "moved {first}{others}")
            }
        }
    }
}

/// The stations that moved behind the first, each after a comma.
#[derive(Clone, Copy)]
struct Others<'a>(&'a [Moved]);

impl fmt::Display for Others<'_> {
    ghost output = { λ others. Some (others_moved others.0.now) };

    fn fmt<W: fmt::Write>(&self, f: &mut fmt::Formatter<W>) -> fmt::Result {
        for moved in self.0 {
            write!(f, ", {moved}")?;
        }
        Ok(())
    }
}

/// Stations, each after a space.
#[derive(Clone, Copy, PartialEq, Eq, Debug)]
pub struct Stations<'a>(pub &'a [u16]);

impl fmt::Display for Stations<'_> {
    ghost output = { λ row. Some (listed row.0.now) };

    fn fmt<W: fmt::Write>(&self, f: &mut fmt::Formatter<W>) -> fmt::Result {
        for t in self.0 {
            write!(f, " {t}")?;
        }
        Ok(())
    }
}

/// A station's up, or `-` where it has none.
#[derive(Clone, Copy)]
struct Up(Option<u16>);

impl fmt::Display for Up {
    ghost output = { λ up. Some (up_or_dash up.0) };

    fn fmt<W: fmt::Write>(&self, f: &mut fmt::Formatter<W>) -> fmt::Result {
        match self.0 {
            Some(up) => write!(f, "{up}"),
            None => write!(f, "-"),
        }
    }
}

/// `L bytes: 01 0a ff`.
#[derive(Clone, Copy)]
struct Bytes<'a>(&'a [u8]);

impl fmt::Display for Bytes<'_> {
    ghost output = { λ bytes. Some (counted_bytes bytes.0.now) };

    fn fmt<W: fmt::Write>(&self, f: &mut fmt::Formatter<W>) -> fmt::Result {
        let count = self.0.len();
        let digits = Hexadecimal(self.0);
        write!(f, "{count} bytes:{digits}")
    }
}

/// Bytes, each after a space, by two hexadecimal digits.
#[derive(Clone, Copy)]
struct Hexadecimal<'a>(&'a [u8]);

impl fmt::Display for Hexadecimal<'_> {
    ghost output = { λ bytes. Some (in_hexadecimal bytes.0.now) };

    #[tactic(auto, using(std::proofs::lemmas::Grind::common_steps, std::proofs::lemmas::Fmt::hex_byte))]
    fn fmt<W: fmt::Write>(&self, f: &mut fmt::Formatter<W>) -> fmt::Result {
        for &byte in self.0 {
            write!(f, " {byte:02x}")?;
        }
        Ok(())
    }
}
