//! The faults of sources.
use crate::parser::cases::{REFUSALS, Refusal};
use crate::parser::source::{fault_of, joined};
use cov_host::{Name, Place};
use std::alloc::Global;
use verilog_parser::{ParseFault, ParseKind};

/// Whether the detail is this form, or is missing where the form is empty.
fn is_form(detail: Option<Name>, form: &str) -> bool {
    match detail {
        Some(name) => name.as_slice() == form.as_bytes(),
        None => form.is_empty(),
    }
}

/// Whether the place is this one, or is missing where the line is 0.
pub(crate) fn is_at(place: Option<Place>, line: u32, column: u32) -> bool {
    match place {
        Some(place) => place.line == line && place.column == column,
        None => line == 0,
    }
}

/// Whether a fault is of this kind, at this place and with this detail.
pub(crate) fn is_fault(
    fault: ParseFault,
    wanted: ParseKind,
    line: u32,
    column: u32,
    form: &str,
) -> bool {
    match fault {
        ParseFault::At {
            kind,
            place,
            detail,
        } => { kind == wanted && is_at(place, line, column) && is_form(detail, form) }
        ParseFault::NoMemory => false,
    }
}

fn is_refused(alloc: Global, refusal: &Refusal) -> bool {
    let Ok(source) = joined(alloc, &[refusal.source]) else {
        return false;
    };
    match fault_of(alloc, source) {
        Some(fault) => is_fault(
            fault,
            refusal.kind,
            refusal.line,
            refusal.column,
            refusal.detail,
        ),
        None => false,
    }
}

#[test]
fn faults_of_sources(rt: HostRuntime) {
    for refusal in REFUSALS {
        assert!(rt; is_refused(rt.alloc(), refusal), "{}", refusal.source);
    }
}
