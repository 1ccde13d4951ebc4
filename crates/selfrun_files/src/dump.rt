ghost use Rattle.std.specs.Prelude.{◌≡◌, ◌≢◌, ◌+◌, ◌≤◌, [], ◌++◌, flat_map, length, take};
ghost use Rattle.selfrun_files.specs.Dump.{IsWithin, rest_of};
ghost use Rattle.selfrun_files.specs.Samples.{after, given_first, high, last, low};
ghost use Rattle.selfrun_files.specs.Text.{dump_text, line_of, sample_text};

use crate::block::Block;
use crate::moment::Moment;

/// The header of the dump.
const HEADER: &[u8] = b"$scope module selfrun $end
$var wire 1 c clk $end
$var wire 1 w we $end
$var wire 4 a a $end
$var wire 8 d d $end
$var reg 8 p p $end
$var reg 8 q q $end
$upscope $end
$enddefinitions $end
";

/// What comes after the lines that were made.
#[derive(Clone, Copy)]
pub(crate) enum Next {
    /// The clock is 0: a step begins, or the dump ends.
    Low,
    /// The clock is 1, and the step ends.
    High,
    /// Nothing.
    End,
}

/// A dump that is made while it is read: the lines of one time are kept, and the moment that they are of.
#[derive(Drop)]
pub(crate) struct GeneratedDump {
    pub(crate) block: Block,
    /// How many bytes of the block were read.
    pub(crate) at: usize,
    /// The moment before the step whose lines come next.
    pub(crate) moment: Moment,
    /// How many steps are left.
    pub(crate) left: u32,
    pub(crate) next: Next,
}

impl GeneratedDump {
    /// The dump from this number with this many steps, of which nothing was read.
    pub(crate) fn new(number: u32, steps: u32) -> Self
        requires { steps ≤ 1000000 }
        ensures rest { rest_of result ≡ dump_text number steps }
        ensures within { IsWithin result }
    {
        let mut block = Block::new();
        block.push_all(HEADER);
        GeneratedDump {
            block,
            at: 0,
            moment: Moment::start(number),
            left: steps,
            next: Next::Low,
        }
    }

    /// Moves the next bytes into the front of the piece, and says how many. Only at the end there is no next byte.
    pub(crate) fn read(&mut self, piece: &mut [u8]) -> usize
        requires { IsWithin self.old }
        ensures length { length piece.new ≡ length piece.old }
        ensures few { result ≤ length piece.new }
        ensures bytes { rest_of self.old ≡ take result piece.new ++ rest_of self.new }
        ensures none_at_end { result ≡ 0 → piece.new ≢ [] → rest_of self.old ≡ [] }
        ensures within { IsWithin self.new }
    {
        self.ready();
        let left = self.block.rest(self.at);
        let count = left.len().min(piece.len());
        piece[..count].copy_from_slice(&left[..count]);
        self.at += count;
        count
    }

    /// Makes lines where all that were made were read.
    fn ready(&mut self)
        requires { IsWithin self.old }
        ensures rest { rest_of self.new ≡ rest_of self.old }
        ensures some { self.new.at ≡ length self.new.block → rest_of self.new ≡ [] }
        ensures within { IsWithin self.new }
    {
        if self.at == self.block.len() {
            self.make();
        }
    }

    /// Makes the lines of the next time, where all lines before it were read.
    fn make(&mut self)
        requires within { IsWithin self.old }
        requires read { self.old.at ≡ length self.old.block }
        ensures rest { rest_of self.new ≡ rest_of self.old }
        ensures some { length self.new.block ≡ 0 → rest_of self.new ≡ [] }
        ensures start { self.new.at ≡ 0 }
        ensures within { IsWithin self.new }
    {
        self.block.clear();
        self.at = 0;
        match self.next {
            Next::Low if self.left == 0 => {
                push_last(&mut self.block, &self.moment);
                self.next = Next::End;
            }
            Next::Low => {
                push_low(&mut self.block, &self.moment);
                self.next = Next::High;
            }
            Next::High => {
                let ended = self.moment.after();
                push_high(&mut self.block, &self.moment, &ended);
                self.moment = ended;
                self.left -= 1;
                self.next = Next::Low;
            }
            Next::End => {}
        }
    }
}

/// Adds the lines of a time at which the clock is 0 and a step begins. The first ones give the registers too.
fn push_low(block: &mut Block, moment: &Moment)
    requires step { moment.now.step ≤ 1000000 }
    requires empty { block.old ≡ [] }
    ensures { block.new ≡ sample_text (low moment.now) }
{
    let inputs = moment.inputs();
    block.push_time(10 * moment.step);
    block.push_bit(b'c', false);
    block.push_bit(b'w', inputs.we);
    block.push_vector(b'a', 4, inputs.a);
    block.push_vector(b'd', 8, inputs.d);
    push_first(block, moment.step);
}

/// Adds the lines of the registers where this step is the first.
fn push_first(block: &mut Block, step: u32)
    requires { length block.old + 24 ≤ 256 }
    ensures { block.new ≡ block.old ++ flat_map line_of (given_first step) }
{
    if step == 0 {
        block.push_vector(b'p', 8, 0);
        block.push_vector(b'q', 8, 0);
    }
}

/// Adds the lines of a time at which the clock is 1, with what the registers then contain.
fn push_high(block: &mut Block, moment: &Moment, ended: &Moment)
    requires step { moment.now.step ≤ 1000000 }
    requires empty { block.old ≡ [] }
    requires ended { ended.now ≡ after moment.now }
    ensures { block.new ≡ sample_text (high moment.now) }
{
    block.push_time(10 * moment.step + 5);
    block.push_bit(b'c', true);
    block.push_vector(b'p', 8, ended.registers.p);
    block.push_vector(b'q', 8, ended.registers.q);
}

/// Adds the lines of the last time.
fn push_last(block: &mut Block, moment: &Moment)
    requires step { moment.now.step ≤ 1000000 }
    requires empty { block.old ≡ [] }
    ensures { block.new ≡ sample_text (last moment.now) }
{
    block.push_time(10 * moment.step);
    block.push_bit(b'c', false);
}
