//! Whether a text is that of an address, found without memory.
ghost use Rattle.std.specs.Prelude.{◌≡◌, ◌∷◌, [], bytes_eq};
ghost use Rattle.coverage_db.specs.Text.{address_text, subject_fields, place_text, index_text, path_at, rise_text, write_text};
ghost use Rattle.point_lookup.specs.Matching.{after, is_at_end, left_of};

use crate::split::behind;
use cov_host::Sequence;
use coverage_db::{Address, DbInstance, SourceLine, Subject};
use itoa::{Buffer, Integer};

/// Whether this is the text of the address.
pub fn is_address(instances: &Sequence<DbInstance>, address: &Address, text: &[u8]) -> bool
    ensures { result ≡ bytes_eq (address_text instances.now address.now) text.now }
{
    let mut matcher = Matcher { left: Some(text) };
    matcher.byte(address.subject.letter());
    matcher.byte(b' ');
    matcher.path(instances, address.instance);
    matcher.byte(b' ');
    matcher.subject(&address.subject);
    matcher.is_at_end()
}

/// What is left of a text after what it was found to begin with.
#[derive(Drop)]
struct Matcher<'a> {
    /// None where the text does not begin so.
    left: Option<&'a [u8]>,
}

impl<'a> Matcher<'a> {
    /// The bytes come next.
    fn bytes(&mut self, front: &[u8])
        ensures { left_of self.new.left ≡ after front.now (left_of self.old.left) }
    {
        if let Some(left) = self.left {
            self.left = behind(left, front);
        }
    }

    /// The byte comes next.
    fn byte(&mut self, byte: u8)
        ensures { left_of self.new.left ≡ after (byte ∷ []) (left_of self.old.left) }
    {
        self.bytes(&[byte]);
    }

    /// The number comes next, in decimal.
    fn number<I: Integer + Drop>(&mut self, number: I)
        ensures { left_of self.new.left ≡ after (I.text number) (left_of self.old.left) }
    {
        self.bytes(Buffer::new().format(number).as_bytes());
    }

    /// A space and the field come next.
    fn field(&mut self, field: &[u8])
        ensures { left_of self.new.left ≡ after (32 ∷ field.now) (left_of self.old.left) }
    {
        self.byte(b' ');
        self.bytes(field);
    }

    /// A space and a source with its line come next.
    fn place(&mut self, at: SourceLine)
        ensures { left_of self.new.left ≡ after (32 ∷ place_text at) (left_of self.old.left) }
    {
        self.byte(b' ');
        self.number(at.source);
        self.byte(b':');
        self.number(at.line);
    }

    /// A space and the index as declared come next.
    fn index(&mut self, index: Option<u32>)
        ensures { left_of self.new.left ≡ after (32 ∷ index_text index) (left_of self.old.left) }
    {
        self.byte(b' ');
        match index {
            None => self.byte(b'-'),
            Some(index) => self.number(index),
        }
    }

    /// A space and the direction of a change come next.
    fn rise(&mut self, rise: bool)
        ensures { left_of self.new.left ≡ after (32 ∷ rise_text rise) (left_of self.old.left) }
    {
        if rise {
            self.field(b"01");
        } else {
            self.field(b"10");
        }
    }

    /// A space and the way of an access come next.
    fn write(&mut self, write: bool)
        ensures { left_of self.new.left ≡ after (32 ∷ write_text write) (left_of self.old.left) }
    {
        if write {
            self.field(b"w");
        } else {
            self.field(b"r");
        }
    }

    /// The path of the instance at this place comes next.
    #[tactic(auto, using(crate::proofs::Matched::after_none))]
    fn path(&mut self, instances: &Sequence<DbInstance>, place: u32)
        ensures { left_of self.new.left ≡ after (path_at instances.now place) (left_of self.old.left) }
    {
        if let Some(instance) = instances.get(place as usize) {
            self.bytes(instance.path.as_slice());
        }
    }

    /// The fields of an address after its instance come next.
    fn subject(&mut self, subject: &Subject)
        ensures { left_of self.new.left ≡ after (subject_fields subject.now) (left_of self.old.left) }
    {
        match subject {
            Subject::Line { number, at, word } => {
                self.number(*number);
                self.place(*at);
                self.field(word.text().as_bytes());
            }
            Subject::Logic {
                number,
                at,
                operator,
                case,
            } => {
                self.number(*number);
                self.place(*at);
                self.field(operator.text().as_bytes());
                self.field(case.text().as_bytes());
            }
            Subject::Toggle { name, index, rise } => {
                self.bytes(name.as_slice());
                self.index(*index);
                self.rise(*rise);
            }
            Subject::State { name, state } => {
                self.bytes(name.as_slice());
                self.field(state.as_slice());
            }
            Subject::Arc { name, from, to } => {
                self.bytes(name.as_slice());
                self.field(from.as_slice());
                self.field(to.as_slice());
            }
            Subject::Word { name, index, write } => {
                self.bytes(name.as_slice());
                self.index(Some(*index));
                self.write(*write);
            }
        }
    }

    /// Whether nothing is left of the text, and all of it came.
    fn is_at_end(&self) -> bool
        ensures { result ≡ is_at_end (left_of self.now.left) }
    {
        match self.left {
            Some(left) => left.is_empty(),
            None => false,
        }
    }
}
