ghost use Rattle.std.specs.Prelude.{◌≡◌, ◌≤◌, IfOk};
ghost use Rattle.coverage_db.specs.Fields.{Takes, fields_of, field_at, end_at, equals_at, number_at};
ghost use Rattle.coverage_db.specs.Views.{unit};

use crate::line_fault::LineFault;
use crate::number::read_number;
use crate::split::split_first;
use std::marker::Model;

/// The fields of a line that are left, which contracts see as a list of texts.
#[derive(Drop)]
pub(crate) struct Fields<'a> {
    /// What is left of the line. None after its last field.
    rest: Option<&'a [u8]>,
}

impl<'a> Model for Fields<'a> {
    ghost use Rattle.std.specs.Prelude.{List, ℕ};
    ghost use Rattle.coverage_db.specs.Views.{fields_left};

    ghost Value = { List (List ℕ) };

    ghost view = { λ fields. fields_left fields.rest };
}

impl<'a> Fields<'a> {
    /// All fields of a line.
    pub(crate) fn new(line: &'a [u8]) -> Self
        ensures { result ≡ fields_of line.now }
    {
        Fields { rest: Some(line) }
    }

    /// Takes the next field.
    pub(crate) fn next_field(&mut self) -> Result<&'a [u8], LineFault>
        ensures { Takes (λ field. field.now) result self.new (field_at self.old) }
    {
        let Some(rest) = self.rest else {
            return Err(LineFault::Misfit);
        };
        match split_first(rest, b' ') {
            Some((field, others)) => {
                self.rest = Some(others);
                Ok(field)
            }
            None => {
                self.rest = None;
                Ok(rest)
            }
        }
    }

    /// Finds that no field is left.
    pub(crate) fn end(&mut self) -> Result<(), LineFault>
        ensures { Takes unit result self.new (end_at self.old) }
    {
        if self.rest.is_none() {
            Ok(())
        } else {
            Err(LineFault::Misfit)
        }
    }

    /// Takes the field `=`.
    pub(crate) fn equals(&mut self) -> Result<(), LineFault>
        ensures { Takes unit result self.new (equals_at self.old) }
    {
        if self.next_field()? == b"=".as_slice() {
            Ok(())
        } else {
            Err(LineFault::Misfit)
        }
    }

    /// Takes a number from least to greatest.
    pub(crate) fn number(&mut self, least: u64, greatest: u64) -> Result<u64, LineFault>
        ensures number { Takes (λ number. number) result self.new (number_at least greatest self.old) }
        ensures within { IfOk result (λ number. number ≤ greatest) }
    {
        read_number(self.next_field()?, least, greatest)
    }
}
