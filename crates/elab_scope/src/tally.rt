ghost use Rattle.std.specs.Prelude.{◌≡◌, ◌≤◌, ◌+◌, ◌-◌, ℕ, All, OnOk, map};
ghost use Rattle.std.specs.Option.{option_map};
ghost use Rattle.elab_scope.specs.Tally as spec;
ghost use Rattle.elab_scope.specs.View.{IsWithin, fault_view, writing_view};
ghost use Rattle.flat_design.specs.Bodies.{met_fault, met_signal, met_words, met_process, met_instance, met_statement, met_text, met_writing};

use crate::fault::FoundFault;
use crate::names::NameAt;
use cov_host::{NoMemory, Place};
use flat_design::{Counts, DesignLimit, Thing};
use std::alloc::Global;
use std::marker::Model;
use tree_sizes::Room;

/// A target of an assignment: the signal or memory that its name means, and which of its bits are written.
#[derive(Clone, Copy, Drop)]
pub struct Written<'a> {
    /// The name that the target begins with.
    pub name: NameAt<'a>,
    /// The signal or memory that the name means.
    pub thing: Thing,
    /// How far the lowest bit that is written is above the lowest bit.
    pub low: u32,
    /// The number of bits that are written.
    pub count: u32,
    /// Whether it is a blocking assignment.
    pub blocking: bool,
    /// Whether it is a continuous assignment.
    pub continuous: bool,
    /// The number of the process of the assignment.
    pub process: u32,
}

/// What was found up to the first limit that is passed: the first fault, what the limits count, and what is written.
#[derive(Drop)]
pub struct Tally<'a> {
    first: Option<FoundFault<'a>>,
    counts: Counts,
    ended: bool,
    writings: Vec<Written<'a>>,
}

impl<'a> Model for Tally<'a> {
    ghost use Rattle.std.specs.Prelude.{All, map, ◌≤◌};
    ghost use Rattle.std.specs.Option.{option_map};
    ghost use Rattle.elab_scope.specs.Tally as spec;
    ghost use Rattle.elab_scope.specs.View.{IsWithin, fault_view, writing_view};

    ghost Value = { spec.Tally };

    ghost view = { λ t. record {
      first = option_map fault_view t.first;
      counts = t.counts;
      ended = t.ended;
      writings = map writing_view t.writings.items;
    } };

    ghost invariant = { λ t. (t.counts.signals ≤ 65536) × (t.counts.processes ≤ 65536) × (t.counts.words ≤ 262144) × (t.counts.instances ≤ 65536) × (t.counts.statements ≤ 1048576) × (t.counts.text ≤ 134217728) × All IsWithin t.writings.items };
}

impl<'a> Tally<'a> {
    /// Nothing is found yet. It takes no memory.
    pub fn new(alloc: Global) -> Tally<'a>
        ensures { result ≡ spec.nothing_found }
    {
        Tally {
            first: None,
            counts: Counts {
                signals: 0,
                processes: 0,
                words: 0,
                instances: 0,
                statements: 0,
                text: 0,
            },
            ended: false,
            writings: Vec::new(alloc),
        }
    }

    /// Reports a fault.
    pub fn fault(&mut self, fault: FoundFault<'a>)
        ensures { self.new ≡ spec.after self.old (met_fault (fault_view fault.entry)) }
    {
        if self.ended {
            return;
        }
        self.tell(fault);
    }

    /// A fault before any limit.
    fn tell(&mut self, fault: FoundFault<'a>)
        ensures { self.new ≡ spec.with_fault (fault_view fault.entry) self.old }
    {
        self.ended = fault.is_limit();
        if self.tells(&fault) {
            self.first = Some(fault);
        }
    }

    /// Whether this fault is reported and not the one found so far.
    fn tells(&self, fault: &FoundFault) -> bool
        ensures { result ≡ spec.tells self.now.first (fault_view fault.now) }
    {
        match &self.first {
            Some(first) => fault.goes_before(first),
            None => true,
        }
    }

    /// Counts a declared signal, whose item is at this place.
    pub fn signal(&mut self, place: Place)
        ensures { self.new ≡ spec.after self.old (met_signal place) }
    {
        if self.ended {
            return;
        }
        if self.counts.signals == 65_536 {
            self.tell(FoundFault::limit(DesignLimit::Signals, place));
        } else {
            self.counts.signals += 1;
        }
    }

    /// Counts a memory of `count` words, whose item is at this place.
    pub fn words(&mut self, place: Place, count: u32)
        ensures { self.new ≡ spec.after self.old (met_words place count) }
    {
        if self.ended {
            return;
        }
        if u64::from(self.counts.words) + u64::from(count) > 262_144 {
            self.tell(FoundFault::limit(DesignLimit::Words, place));
        } else {
            self.counts.words += count;
        }
    }

    /// Counts a process, whose item is at this place.
    pub fn process(&mut self, place: Place)
        ensures { self.new ≡ spec.after self.old (met_process place) }
    {
        if self.ended {
            return;
        }
        if self.counts.processes == 65_536 {
            self.tell(FoundFault::limit(DesignLimit::Processes, place));
        } else {
            self.counts.processes += 1;
        }
    }

    /// Counts an instance, whose item is at this place.
    pub fn instance(&mut self, place: Place)
        ensures { self.new ≡ spec.after self.old (met_instance place) }
    {
        if self.ended {
            return;
        }
        if self.counts.instances == 65_536 {
            self.tell(FoundFault::limit(DesignLimit::Instances, place));
        } else {
            self.counts.instances += 1;
        }
    }

    /// Counts a statement at this place.
    pub fn statement(&mut self, place: Place)
        ensures { self.new ≡ spec.after self.old (met_statement place) }
    {
        if self.ended {
            return;
        }
        if self.counts.statements == 1_048_576 {
            self.tell(FoundFault::limit(DesignLimit::Statements, place));
        } else {
            self.counts.statements += 1;
        }
    }

    /// How much text may still be gone through, and one part more.
    pub(crate) fn room(&self) -> Room
        ensures { self.now.counts.text + result.left ≡ 134217729 }
    {
        Room {
            left: 134_217_729 - self.counts.text,
        }
    }

    /// Counts text at this place, which leaves this of the room.
    pub(crate) fn text(&mut self, place: Place, room: Room)
        requires { room.left ≤ 134217729 }
        ensures { (n : ℕ) → room.left ≡ 134217729 - self.old.counts.text - n → self.new ≡ spec.after self.old (met_text place n) }
    {
        if self.ended {
            return;
        }
        if room.left == 0 {
            self.tell(FoundFault::limit(DesignLimit::Text, place));
        } else {
            self.counts.text = 134_217_729 - room.left;
        }
    }

    /// Adds what a target of an assignment writes.
    pub fn writing(&mut self, written: Written<'a>) -> Result<(), NoMemory>
        requires { IsWithin written }
        ensures { OnOk result (self.new ≡ spec.after self.old (met_writing (writing_view written.entry))) }
    {
        if !self.ended {
            self.writings.push(written)?;
        }
        Ok(())
    }

    /// Whether a limit is passed, so that nothing after it counts.
    pub fn is_ended(&self) -> bool
        ensures { result ≡ self.now.ended }
    {
        self.ended
    }

    /// What the limits count so far.
    pub fn counts(&self) -> Counts
        ensures counts { result ≡ self.now.counts }
        ensures signals { result.signals ≤ 65536 }
        ensures processes { result.processes ≤ 65536 }
        ensures words { result.words ≤ 262144 }
    {
        self.counts
    }

    /// The first fault, if one was found.
    pub fn first(&self) -> Option<FoundFault<'a>>
        ensures { option_map fault_view result ≡ self.now.first }
    {
        self.first
    }

    /// What is written.
    pub fn writings(&self) -> &[Written<'a>]
        ensures written { map writing_view result.now ≡ self.now.writings }
        ensures within { All IsWithin result.now }
    {
        &self.writings
    }
}
