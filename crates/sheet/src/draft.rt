//! A sheet that is being written.

ghost use Rattle.std.specs.Prelude.{◌≤◌};

use crate::Refusal;
use crate::entry::Entry;

/// The length of the longest sheet: two bytes, and seven for each of 512 stations.
pub const LONGEST: usize = 3_586;

/// The front of a sheet.
#[derive(Drop)]
pub(crate) struct Draft {
    bytes: [u8; LONGEST],
    len: usize,
    ghost fits: { len ≤ 3586 },
}

impl Draft {
    ghost use Rattle.std.specs.Prelude.{◌≡◌, ◌+◌, ◌<◌, [], ◌∷◌, ◌++◌, length};
    ghost use Rattle.sheet.specs.Encoding.{field, field_if, up_field, entry_bytes};
    ghost use Rattle.view.specs.Answers.{answer, with_room, left_in};
    ghost use Rattle.sheet.specs.Parts.{bytes_written};

    /// Nothing yet.
    pub(crate) fn new() -> Draft
        ensures { bytes_written result ≡ [] }
    {
        Draft {
            bytes: [0; LONGEST],
            len: 0,
        }
    }

    /// Writes a byte.
    fn push(&mut self, byte: u8)
        requires { length (bytes_written self.old) < LONGEST }
        ensures { bytes_written self.new ≡ bytes_written self.old ++ byte ∷ [] }
    {
        self.bytes[self.len] = byte;
        self.len += 1;
    }

    /// Writes a field, the low byte first.
    #[tactic(auto, unfolding(crate::specs::Encoding::field))]
    pub(crate) fn push_field(&mut self, value: u16)
        requires { length (bytes_written self.old) + length (field value) ≤ LONGEST }
        ensures { bytes_written self.new ≡ bytes_written self.old ++ field value }
    {
        let [low, high] = value.to_le_bytes();
        self.push(low);
        self.push(high);
    }

    /// Writes a field if it is present.
    #[tactic(auto, unfolding(crate::specs::Encoding::field_if))]
    fn push_field_if(&mut self, present: bool, value: u16)
        requires { length (bytes_written self.old) + length (field_if present value) ≤ LONGEST }
        ensures { bytes_written self.new ≡ bytes_written self.old ++ field_if present value }
    {
        if present {
            self.push_field(value);
        }
    }

    /// Writes an up if there is one.
    #[tactic(auto, unfolding(crate::specs::Encoding::up_field))]
    fn push_up(&mut self, up: Option<u16>)
        requires { length (bytes_written self.old) + length (up_field up) ≤ LONGEST }
        ensures { bytes_written self.new ≡ bytes_written self.old ++ up_field up }
    {
        if let Some(up) = up {
            self.push_field(up);
        }
    }

    /// Writes what a plan says of station s.
    pub(crate) fn push_entry(&mut self, s: usize, entry: Entry)
        requires { length (bytes_written self.old) + length (entry_bytes s entry) ≤ LONGEST }
        ensures { bytes_written self.new ≡ bytes_written self.old ++ entry_bytes s entry }
    {
        let has = entry.present(s);
        self.push(has.map_byte());
        self.push_field_if(has.number, entry.number);
        self.push_field_if(has.home, entry.home);
        self.push_up(entry.up);
    }

    /// Copies the sheet to the front of a buffer, or refuses one that is too short. Answers its length.
    pub(crate) fn copy_to(&self, out: &mut [u8]) -> Result<usize, Refusal>
        ensures answer { let sheet = bytes_written self.now in
            result ≡ answer length (with_room (length sheet) (length out.old) sheet) }
        ensures out { let sheet = bytes_written self.now in
            out.new ≡ left_in (λ bytes. bytes) (with_room (length sheet) (length out.old) sheet) out.old }
    {
        if out.len() < self.len {
            return Err(Refusal::BufferShort { needed: self.len });
        }
        out[..self.len].copy_from_slice(&self.bytes[..self.len]);
        Ok(self.len)
    }
}
