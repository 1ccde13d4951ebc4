//! Reading what of an address its place among the points goes by.
ghost use Rattle.std.specs.Prelude.{◌≡◌, ◌<◌, ◌^◌, length, IfSome, option_map};
ghost use Rattle.coverage_db.specs.Fields.{fields_of};
ghost use Rattle.coverage_db.specs.Order.{bytes_cmp};
ghost use Rattle.coverage_db.specs.Reading.{instance_of};
ghost use Rattle.coverage_db.specs.Table.{Rises};
ghost use Rattle.point_lookup.specs.Keys.{address_key, line_key, logic_key, machine_key, seen, seen_subject, subject_key, toggle_key, word_key};

use crate::fields::Fields;
use crate::key::{Key, KeySubject};
use coverage_db::{DbInstance, NodeCase};

/// The key of an address in a text. None where the text is that of no address.
#[tactic(auto, unfolding(crate::specs::Keys::address_key))]
pub(crate) fn read_key<'a>(instances: &[DbInstance], text: &'a [u8]) -> Option<Key<'a>>
    requires few { length instances.now < 2 ^ 32 }
    requires rise { Rises (λ a b. bytes_cmp a.path b.path) instances.now }
    ensures { option_map seen result ≡ address_key instances.now (fields_of text.now) }
{
    let mut fields = Fields::new(text);
    let letter = fields.next_field()?;
    let path = fields.next_field()?;
    let instance = find_instance(instances, path)? as u32;
    let subject = read_subject(letter, &mut fields)?;
    Some(Key { instance, subject })
}

/// The place of the instance with this path.
fn find_instance(instances: &[DbInstance], path: &[u8]) -> Option<usize>
    requires { Rises (λ a b. bytes_cmp a.path b.path) instances.now }
    ensures place { result ≡ instance_of instances.now path.now }
    ensures within { IfSome result (λ place. place < length instances.now) }
{
    instances
        .binary_search_by(|instance| instance.path.as_slice().cmp(path))
        .ok()
}

/// What a point with this letter counts.
#[tactic(auto, unfolding(crate::specs::Keys::subject_key))]
fn read_subject<'a>(letter: &[u8], fields: &mut Fields<'a>) -> Option<KeySubject<'a>>
    ensures { option_map seen_subject result ≡ subject_key letter.now fields.old }
{
    match letter {
        [b'l'] => read_line(fields),
        [b'c'] => read_logic(fields),
        [b't'] => read_toggle(fields),
        [b'f'] => read_machine(fields),
        [b'm'] => read_word(fields),
        _ => None,
    }
}

#[tactic(auto, unfolding(crate::specs::Keys::line_key))]
fn read_line<'a>(fields: &mut Fields<'a>) -> Option<KeySubject<'a>>
    ensures { option_map seen_subject result ≡ line_key fields.old }
{
    let number = fields.number()?;
    Some(KeySubject::Line { number })
}

#[tactic(auto, unfolding(crate::specs::Keys::logic_key))]
fn read_logic<'a>(fields: &mut Fields<'a>) -> Option<KeySubject<'a>>
    ensures { option_map seen_subject result ≡ logic_key fields.old }
{
    let number = fields.number()?;
    let _place = fields.next_field()?;
    let _operator = fields.next_field()?;
    let case = NodeCase::of_text(fields.next_field()?)?;
    Some(KeySubject::Logic { number, case })
}

#[tactic(auto, unfolding(crate::specs::Keys::toggle_key))]
fn read_toggle<'a>(fields: &mut Fields<'a>) -> Option<KeySubject<'a>>
    ensures { option_map seen_subject result ≡ toggle_key fields.old }
{
    let name = fields.next_field()?;
    let index = fields.index()?;
    let rise = fields.next_field()? == b"01".as_slice();
    Some(KeySubject::Toggle { name, index, rise })
}

#[tactic(auto, unfolding(crate::specs::Keys::machine_key))]
fn read_machine<'a>(fields: &mut Fields<'a>) -> Option<KeySubject<'a>>
    ensures { option_map seen_subject result ≡ machine_key fields.old }
{
    let name = fields.next_field()?;
    let state = fields.next_field()?;
    Some(match fields.next_field() {
        None => KeySubject::State { name, state },
        Some(to) => KeySubject::Arc {
            name,
            from: state,
            to,
        },
    })
}

#[tactic(auto, unfolding(crate::specs::Keys::word_key))]
fn read_word<'a>(fields: &mut Fields<'a>) -> Option<KeySubject<'a>>
    ensures { option_map seen_subject result ≡ word_key fields.old }
{
    let name = fields.next_field()?;
    let index = fields.number()?;
    let write = fields.next_field()? == b"w".as_slice();
    Some(KeySubject::Word { name, index, write })
}
