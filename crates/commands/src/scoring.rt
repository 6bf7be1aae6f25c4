//! The scoring rules that a command can name.

ghost use Rattle.commands.specs.Meanings.{Understood};
ghost use Rattle.commands.specs.Numerals.{bytes_of};
ghost use Rattle.commands.specs.Rules.{net_of, scoring_of};

use crate::lists::read_number;
use crate::unread::Unread;
use rules::Net;

const AVERAGE: &[u8] = b"average";

const NET: &[u8] = b"net";

const THEN: &[u8] = b"then";

/// A scoring rule.
#[derive(Clone, Copy, PartialEq, Eq, Debug)]
pub enum Scoring {
    /// `average`
    Average,
    /// `net P Q R`
    Net(Net),
    /// `average then net P Q R`
    AverageThenNet(Net),
    /// `net P Q R then average`
    NetThenAverage(Net),
}

/// The rule of the net gain that words name: `net` and its three weights.
fn read_net(words: &[&[u8]]) -> Result<Net, Unread>
    ensures { Understood (net_of (bytes_of words.now)) result }
{
    match words {
        [net, gain, boundary, member] if *net == NET => Ok(Net {
            inside_gain: read_number(gain)?,
            boundary_cost: read_number(boundary)?,
            member_cost: read_number(member)?,
        }),
        _ => Err(Unread::NotUnderstood),
    }
}

impl Scoring {
    /// The scoring rule that words name.
    pub(crate) fn read(words: &[&[u8]]) -> Result<Scoring, Unread>
        ensures { Understood (scoring_of (bytes_of words.now)) result }
    {
        if words == [AVERAGE].as_slice() {
            return Ok(Scoring::Average);
        }
        if let Some(net) = words.strip_prefix(&[AVERAGE, THEN]) {
            return Ok(Scoring::AverageThenNet(read_net(net)?));
        }
        if let Some(net) = words.strip_suffix(&[THEN, AVERAGE]) {
            return Ok(Scoring::NetThenAverage(read_net(net)?));
        }
        Ok(Scoring::Net(read_net(words)?))
    }
}
