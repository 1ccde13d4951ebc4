use crate::{Store, Update};
use body_calls::{Bodies, Lvalue};
use known_state::Known;
use write_log::common_law;

impl<'a> Bodies for Store<'a> {
    ghost use Rattle.body_store.specs.Bodies.{around_of, queued_of, rooms_of};
    ghost use Rattle.body_store.specs.Views.{under_of};

    ghost queued = { queued_of };

    ghost around = { around_of };

    ghost rooms = { rooms_of };

    ghost under = { under_of };

    fn write(&mut self, to: &Lvalue, part: &Known, blame: Option<u32>) {
        match *to {
            Lvalue::Signal(signal) => self.write_whole(signal, part, blame),
            Lvalue::Part { signal, low } => self.write_part(signal, &low, part, blame),
            Lvalue::Word { memory, index } => self.write_word(memory, &index, part),
        }
    }

    fn queue(&mut self, to: &Lvalue, part: &Known, certain: bool) {
        self.updates.push(Update {
            to: *to,
            value: *part,
            certain,
        });
    }

    fn begin_test(&mut self, test: u32) {
        self.log.begin_test(test);
        self.words.begin_test(test);
    }

    fn second_branch(&mut self) {
        self.log.second_branch(&mut self.signals);
        self.words.second_branch(self.memories.as_mut_slice());
    }

    fn end_test(&mut self) {
        common_law();
        self.signals.fitting();
        self.log.end_test(&mut self.signals);
        self.words.end_test(self.memories.as_mut_slice());
    }
}
