//! Terms of each form.

ghost use Rattle.std.specs.Prelude.{◌≡◌, IfOk, None, map};
ghost use Rattle.design_model.specs.Tree as t;
ghost use Rattle.design_model.specs.View.{term_view, terms_of};
ghost use Rattle.flat_design.specs.Terms.{head_as};

use cov_host::{NoMemory, Place};
use design_model::{Form, Term};
use elab_const::Shape;
use four_state::{Binary, Four, Unary};
use std::alloc::Global;

/// Where a term is written, and the width and sign that its context gives it: what all forms of terms have in common.
#[derive(Clone, Copy)]
pub struct Around {
    /// Of the first token of the expression.
    pub place: Place,
    /// The width and sign in its context.
    pub shape: Shape,
}

impl Around {
    /// A term of this form with this number as a counted node.
    fn counted(self, alloc: Global, node: Option<u32>, form: Form) -> Result<Term, NoMemory>
        ensures head { IfOk result (λ x. (x.place ≡ self.place) × (x.width ≡ self.shape.width) × (x.signed ≡ self.shape.signed) × (x.node ≡ node)) }
        ensures form { IfOk result (λ x. x.form.value ≡ form) }
    {
        Ok(Term {
            place: self.place,
            width: self.shape.width,
            signed: self.shape.signed,
            node,
            form: Box::new(alloc, form)?,
        })
    }

    /// A number.
    pub fn number(self, alloc: Global, value: Four) -> Result<Term, NoMemory>
        ensures { IfOk result (λ x. term_view x ≡ t.number (head_as self.place self.shape None) value) }
    {
        self.counted(alloc, None, Form::Number(value))
    }

    /// A signal.
    pub fn signal(self, alloc: Global, signal: u32) -> Result<Term, NoMemory>
        ensures { IfOk result (λ x. term_view x ≡ t.signal (head_as self.place self.shape None) signal) }
    {
        self.counted(alloc, None, Form::Signal(signal))
    }

    /// A word of a memory.
    pub fn word(self, alloc: Global, memory: u32, index: Term) -> Result<Term, NoMemory>
        ensures { IfOk result (λ x. term_view x ≡ t.word (head_as self.place self.shape None) memory (term_view index)) }
    {
        self.counted(alloc, None, Form::Word { memory, index })
    }

    /// `of[index]`.
    pub fn bit(self, alloc: Global, of: Term, index: Term) -> Result<Term, NoMemory>
        ensures { IfOk result (λ x. term_view x ≡ t.bit (head_as self.place self.shape None) (term_view of) (term_view index)) }
    {
        self.counted(alloc, None, Form::Bit { of, index })
    }

    /// `of[high:low]`.
    pub fn part(self, alloc: Global, of: Term, high: Term, low: Term) -> Result<Term, NoMemory>
        ensures { IfOk result (λ x. term_view x ≡ t.part (head_as self.place self.shape None) (term_view of) (term_view high) (term_view low)) }
    {
        self.counted(alloc, None, Form::Part { of, high, low })
    }

    /// `of[base +: width]`, or where `up` is false `of[base -: width]`.
    pub fn slide(
        self,
        alloc: Global,
        of: Term,
        base: Term,
        width: Term,
        up: bool,
    ) -> Result<Term, NoMemory>
        ensures { IfOk result (λ x. term_view x ≡ t.slide (head_as self.place self.shape None) (term_view of) (term_view base) (term_view width) up) }
    {
        let form = Form::Slide {
            of,
            base,
            width,
            up,
        };
        self.counted(alloc, None, form)
    }

    /// An operator with one operand, and its number as a counted node.
    pub fn unary(
        self,
        alloc: Global,
        node: Option<u32>,
        op: Unary,
        operand: Term,
    ) -> Result<Term, NoMemory>
        ensures { IfOk result (λ x. term_view x ≡ t.unary (head_as self.place self.shape node) op (term_view operand)) }
    {
        self.counted(alloc, node, Form::Unary(op, operand))
    }

    /// An operator with two operands, and its number as a counted node.
    pub fn binary(
        self,
        alloc: Global,
        node: Option<u32>,
        op: Binary,
        left: Term,
        right: Term,
    ) -> Result<Term, NoMemory>
        ensures { IfOk result (λ x. term_view x ≡ t.binary (head_as self.place self.shape node) op (term_view left) (term_view right)) }
    {
        self.counted(alloc, node, Form::Binary(op, left, right))
    }

    /// `test ? yes : no`.
    pub fn choice(self, alloc: Global, test: Term, yes: Term, no: Term) -> Result<Term, NoMemory>
        ensures { IfOk result (λ x. term_view x ≡ t.choice (head_as self.place self.shape None) (term_view test) (term_view yes) (term_view no)) }
    {
        self.counted(alloc, None, Form::Choice { test, yes, no })
    }

    /// A concatenation.
    pub fn concat(self, alloc: Global, parts: Vec<Term>) -> Result<Term, NoMemory>
        ensures { IfOk result (λ x. term_view x ≡ t.concat (head_as self.place self.shape None) (terms_of (map term_view parts.items))) }
    {
        self.counted(alloc, None, Form::Concat(parts))
    }

    /// A concatenation that is repeated.
    pub fn repeat(self, alloc: Global, count: Term, parts: Vec<Term>) -> Result<Term, NoMemory>
        ensures { IfOk result (λ x. term_view x ≡ t.repeat (head_as self.place self.shape None) (term_view count) (terms_of (map term_view parts.items))) }
    {
        self.counted(alloc, None, Form::Repeat(count, parts))
    }

    /// `$signed`, or where the flag is false `$unsigned`.
    pub fn sign(self, alloc: Global, signed: bool, operand: Term) -> Result<Term, NoMemory>
        ensures { IfOk result (λ x. term_view x ≡ t.sign (head_as self.place self.shape None) signed (term_view operand)) }
    {
        self.counted(alloc, None, Form::Sign(signed, operand))
    }
}
